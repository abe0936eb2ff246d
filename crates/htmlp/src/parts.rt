//! Writing to standard error: parts of texts, and what `clap` says of a word that it does not know, without its tip to write `-- ` before it,
//! which helps only where a file is meant.

ghost use Rattle.std.specs.List.{flat_map};
ghost use Rattle.hwrite.specs.Calls.{WritesAll};

use hwrite::{Target, write_all};
use names::Refusal;
use std::fmt;

/// Writes these parts, one after another.
pub(crate) fn write_parts<W: Target>(target: &mut W, parts: &[&str]) -> Result<(), Refusal>
    ensures { WritesAll (W.written target.old) (W.failed target.old) (W.written target.new) (W.failed target.new)
        (flat_map (λ p. p.now) parts.now) result }
{
    for part in parts {
        write_all(target, part.as_bytes())?;
    }
    Ok(())
}

/// What the tip begins with.
const TIP: &str = "\n\n  tip: to pass '";

/// What comes after the tip.
const USAGE: &str = "\n\nUsage: ";

/// A target as a writer of texts, each of which is one error of `clap`.
#[derive(Drop)]
pub(crate) struct WithoutTip<'a, W>(pub &'a mut W);

impl<W: Target> fmt::Write for WithoutTip<'_, W> {
    fn write_str(&mut self, text: &str) -> fmt::Result {
        write_parts(self.0, &without_tip(text)).map_err(|_| fmt::Error)
    }
}

/// The parts of the text that stay.
fn without_tip(text: &str) -> [&str; 3] {
    match (text.split_once(TIP), text.rsplit_once(USAGE)) {
        (Some((error, _)), Some((_, usage))) => [error, USAGE, usage],
        _ => [text, "", ""],
    }
}
