//! How a character is handed over.

ghost use Rattle.std.specs.Prelude.{◌≡◌, ◌<◌, map};
ghost use Rattle.htext.specs.Vocabulary.{Hands, Whole, is_clean, items, read_items, read_as};

use crate::Bom;
use crate::decoder::MAX_INPUT;
use crate::sink::CharSink;
use names::{ErrorCode, ParseError, Refusal, is_noncharacter};

const BYTE_ORDER_MARK: char = '\u{FEFF}';

#[inline(always)]
pub(crate) fn is_clean(ch: char) -> bool
    ensures { result ≡ is_clean ch }
{
    match ch {
        '\t' | '\n' | '\u{C}' | ' '..='~' => true,
        _ => ch >= '\u{A0}' && ch != BYTE_ORDER_MARK && !is_noncharacter(ch as u32),
    }
}

/// Hands over what a character is in the text, with newlines normalized, after its errors: preprocessing the input stream
/// (`#preprocessing-the-input-stream`).
#[inline]
pub(crate) fn hand_char<S: CharSink>(
    bom: Bom,
    after_return: bool,
    ch: char,
    at: u64,
    sink: &mut S,
) -> Result<(), Refusal>
    requires { at < MAX_INPUT }
    ensures { Hands S.gives sink.old
        (items (map Whole (read_as bom after_return (record { ch = ch; at = at })))) result sink.new }
{
    match ch {
        ' '..='~' => sink.take_char(ch, at),
        '\u{A0}'..='\u{FDCF}' => sink.take_char(ch, at),
        '\n' if after_return => Ok(()),
        '\r' => sink.take_char('\n', at),
        BYTE_ORDER_MARK if at == 0 && matches!(bom, Bom::Drop) => Ok(()),
        _ => hand_read(ch, at, sink),
    }
}

#[inline(never)]
fn hand_read<S: CharSink>(ch: char, at: u64, sink: &mut S) -> Result<(), Refusal>
    requires { at < MAX_INPUT }
    ensures { Hands S.gives sink.old (read_items (Whole (record { ch = ch; at = at }))) result sink.new }
{
    if ch.is_control() && ch != '\0' && !ch.is_ascii_whitespace() {
        sink.take_error(ParseError {
            code: ErrorCode::ControlCharacterInInputStream,
            at,
        })?;
    }
    if is_noncharacter(ch as u32) {
        sink.take_error(ParseError {
            code: ErrorCode::NoncharacterInInputStream,
            at,
        })?;
    }
    sink.take_char(ch, at)
}
