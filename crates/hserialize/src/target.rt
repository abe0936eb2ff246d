//! What bytes are written to.

ghost use Rattle.std.specs.Prelude.{◌≡◌, ℕ, ⊤, true, List, Option, IfErr, OnOk, OnErr};
ghost use Rattle.std.specs.Io.KnownBytes.{Appends, Keeps};
ghost use Rattle.hserialize.specs.Vocabulary.{counted_by, counted_unless, Writes, counted_by_result, AppendsBeginning, Write};

use names::Refusal;

/// A writer that counts its failed calls.
pub trait Target {
    // All bytes that the writer has taken, where it says.
    ghost written: { Self → Option (List ℕ) };

    // How many calls have failed.
    ghost failed: { Self → ℕ };

    // What a flush that succeeded makes of the writer, where it says.
    ghost flushes: { Self → Self → Type 0 } = { λ before after. ⊤ };

    /// Writes a beginning of the bytes, and returns its length. None if the call failed; a call that writes none of one or more bytes has failed.
    fn write(&mut self, bytes: &[u8]) -> Option<usize>
        ensures bytes { Writes (written self.old) (written self.new) result bytes.now }
        ensures count { failed self.new ≡ counted_by (failed self.old) result };

    /// Flushes, and returns whether the call succeeded.
    fn flush(&mut self) -> bool
        ensures bytes { Keeps (written self.old) (written self.new) }
        ensures flushed { result ≡ true → flushes self.old self.new }
        ensures count { failed self.new ≡ counted_unless (failed self.old) result };

    /// The number of failed calls. It stays at the greatest value.
    fn failures(&self) -> u64
        ensures { result ≡ failed self.now };
}

/// Writes all of the bytes, in as many calls as needed. No call follows a failed one.
pub fn write_all<W: Target>(target: &mut W, bytes: &[u8]) -> Result<(), Refusal>
    ensures count { W.failed target.new ≡ counted_by_result (W.failed target.old) result }
    ensures all { OnOk result (Appends (W.written target.old) (W.written target.new) bytes.now) }
    ensures cause { IfErr result (λ refusal. refusal ≡ Write) }
    ensures beginning { OnErr result (AppendsBeginning (W.written target.old) (W.written target.new) bytes.now) }
{
    let mut rest = bytes;
    while !rest.is_empty() {
        match target.write(rest) {
            Some(taken) => rest = &rest[taken..],
            None => return Err(Refusal::Write),
        }
    }
    Ok(())
}
