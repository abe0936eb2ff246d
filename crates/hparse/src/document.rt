//! The tokens of a document.

ghost use Rattle.std.specs.List.{flat_map};
ghost use Rattle.hparse.specs.Vocabulary.{of_document, ShowsRun};

use crate::collect::Collected;
use crate::options::Options;
use crate::reading::Reading;
use crate::token_run::TokenRun;
use htoken::Start;
use names::{Names, Refusal};
use std::alloc::Global;

/// The tokens of the pieces joined, however they are cut.
pub fn tokens(alloc: Global, pieces: &[&[u8]], options: &Options) -> Result<TokenRun, Refusal>
    ensures { ShowsRun options.now.table.now (of_document options.now.bad_bytes options.now.limits.input) (flat_map (λ piece. piece.now) pieces.now) result }
{
    let names = Names::new(alloc, options.keys);
    let mut reading = Reading::new(
        alloc,
        options,
        Start::Document,
        names,
        Collected::new(alloc),
    );
    for piece in pieces {
        if let Err(refusal) = reading.feed(piece) {
            drop(reading);
            return Err(refusal);
        }
    }
    if let Err(refusal) = reading.end() {
        drop(reading);
        return Err(refusal);
    }
    let (names, collected) = reading.into_parts();
    collected.into_run(names)
}
