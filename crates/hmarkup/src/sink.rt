//! Where parse errors go.

use names::{ParseError, Refusal};

/// Receives parse errors, and may refuse one.
pub trait ErrorSink {
    ghost use Rattle.std.specs.Prelude.{Result};
    ghost use Rattle.hmarkup.specs.Vocabulary.{Error, Refused};

    /// One call of the sink: its state before, the error, what it returns, and its state after.
    ghost gives: { Self → Error → Result (Unit {0}) Refused → Self → Type 0 };

    fn take_error(&mut self, error: ParseError) -> Result<(), Refusal>
        ensures { gives self.old error result self.new };
}
