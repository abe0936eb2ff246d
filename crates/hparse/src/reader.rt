//! An input from a reader.

ghost use Rattle.std.specs.Prelude.{◌<◌, ℕ, List};
ghost use Rattle.hparse.specs.Vocabulary.{gives_item, HasRead, WasRead, Manner, Began, Comes, as_document, ReadsInto, ReadsTo};

use crate::options::Options;
use crate::reading::Reading;
use crate::source::Source;
use htext::MAX_INPUT;
use htoken::{Start, TokenSink};
use names::{Names, Refusal};
use std::alloc::Global;

/// Hands the tokens and the parse errors of a document that a reader gives to a sink, as they come: it is read in pieces of at
/// most this many bytes, and reading goes on to the end, unless a read fails or a piece brings a refusal. The answer is the sink as
/// its calls have left it, and the table of the tokens' names if the input was read to its end. A sink that has refused something is
/// handed nothing more, and after a failed read none is handed the end of the input.
pub fn read_into<S: TokenSink, R: Source>(
    alloc: Global,
    piece: usize,
    options: &Options,
    sink: S,
    source: &mut R,
) -> (S, Result<Names, Refusal>)
    requires piece { 0 < piece }
    ensures { ReadsInto (gives_item S.gives S.gives_token) (as_document options.now.table.now options.now.bad_bytes options.now.limits.input)
        R.left R.failed sink piece source.old source.new result.0 result.1 }
{
    let names = Names::new(alloc, options.keys);
    let mut reading = Reading::new(alloc, options, Start::Document, names, sink);
    let answer = read_to_end(alloc, piece, &mut reading, source);
    let (names, sink) = reading.into_parts();
    match answer {
        Ok(()) => (sink, Ok(names)),
        Err(refusal) => {
            drop(names);
            (sink, Err(refusal))
        }
    }
}

/// Reads an input to its end and ends it, unless a read fails or a piece brings a refusal.
pub(crate) fn read_to_end<S: TokenSink, R: Source>(
    alloc: Global,
    piece: usize,
    reading: &mut Reading<S>,
    source: &mut R,
) -> Result<(), Refusal>
    requires { 0 < piece }
    ensures { (m : Manner) (began : Began S) (fed : List ℕ) → HasRead (gives_item S.gives S.gives_token) m began reading.old fed
        → ReadsTo R.left R.failed (λ bytes. Comes (gives_item S.gives S.gives_token) m began bytes reading.new.feeding.names reading.new.feeding.sink)
        (WasRead (gives_item S.gives S.gives_token) m began) (HasRead (gives_item S.gives S.gives_token) m began reading.new) ⊥ piece fed
        source.old source.new result }
{
    let mut buffer = vec![in alloc; 0u8; piece]?;
    for _turn in 0..MAX_INPUT + 4 {
        match source.read(&mut buffer) {
            None => return Err(Refusal::Read),
            Some(0) => return reading.end(),
            Some(count) => reading.feed(&buffer[..count])?,
        }
    }
    // No input leads here: a turn feeds at least one byte, and one past the greatest limit is refused when three more have been fed.
    Err(Refusal::TooLarge { at: MAX_INPUT })
}
