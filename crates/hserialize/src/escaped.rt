//! Texts as they are written (HTML Standard, `#serialising-html-fragments`, "Escaping a string").

ghost use Rattle.std.specs.Prelude.{◌≡◌, IfSome, None};
ghost use Rattle.std.specs.Char.{encode_utf8};
ghost use Rattle.hserialize.specs.Vocabulary.{escaped, written_char, PutsTo};

use crate::escaping::{Escaping, Setting};
use crate::target::Target;
use crate::writer::{Answer, Writer, put, put_before};

/// What is written for a character that is not written as it is.
fn reference(ch: char, escaping: Escaping, setting: Setting) -> Option<&'static str>
    ensures some { IfSome result (λ text. written_char escaping setting ch ≡ text.now) }
    ensures none { result ≡ None → written_char escaping setting ch ≡ encode_utf8 ch }
{
    match (ch, escaping, setting) {
        ('&', _, _) => Some("&amp;"),
        ('\u{A0}', _, _) => Some("&nbsp;"),
        ('"', _, Setting::Value) => Some("&quot;"),
        ('<', _, Setting::Text) | ('<', Escaping::Two, _) => Some("&lt;"),
        ('>', _, Setting::Text) | ('>', Escaping::Two, _) => Some("&gt;"),
        _ => None,
    }
}

/// Writes a text: escaping a string (`#escapingString`).
pub(crate) fn put_escaped<W: Target>(
    out: &mut Writer<W>,
    source: &str,
    escaping: Escaping,
    setting: Setting,
) -> Answer
    ensures { PutsTo W.written W.failed out.old out.new (escaped escaping setting source.now) result }
{
    let bytes = source.as_bytes();
    // What is before is written.
    let mut done = 0;
    for (at, ch) in source.char_indices() {
        if let Some(reference) = reference(ch, escaping, setting) {
            put_before(out, &bytes[done..at], reference)?;
            done = at + ch.len_utf8();
        }
    }
    put(out, &bytes[done..])
}
