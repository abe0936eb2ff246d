//! Characters and errors, added to what was read.

ghost use Rattle.std.specs.Prelude.{◌≡◌, ◌&&◌, ◌∷◌, ◌++◌, [], not, OnOk, string_bytes, encode_utf8_all};
ghost use Rattle.htag.specs.Vocabulary.{error_if, null_errors, without_null, ends_name, is_odd};

use names::{ErrorCode, ParseError, Placed};
use std::alloc::AllocError;

/// The errors that were raised, in the order of the text.
pub(crate) type Errors = Vec<ParseError>;

#[inline(always)]
pub(crate) fn ends_name(ch: char) -> bool
    ensures { result ≡ ends_name ch }
{
    ch == '>' || ch == '/' || ch.is_ascii_whitespace()
}

#[inline(always)]
pub(crate) fn is_fault(quoted: bool, ch: char) -> bool
    ensures { result ≡ not quoted && is_odd ch }
{
    !quoted && matches!(ch, '"' | '\'' | '<' | '=' | '`')
}

/// The character to keep: U+FFFD in place of NUL.
#[inline(always)]
pub(crate) fn kept(ch: char) -> char
    ensures { result ≡ without_null ch }
{
    if ch == '\0' { '\u{FFFD}' } else { ch }
}

#[inline(always)]
pub(crate) fn keep_if(
    says: bool,
    code: ErrorCode,
    at: u64,
    errors: &mut Errors,
) -> Result<(), AllocError>
    ensures { OnOk result (errors.new.items ≡ errors.old.items ++ error_if says code at) }
{
    if says {
        errors.push(ParseError { code, at })?;
    }
    Ok(())
}

#[inline(always)]
pub(crate) fn keep_null(next: Placed, errors: &mut Errors) -> Result<(), AllocError>
    ensures { OnOk result (errors.new.items ≡ errors.old.items ++ null_errors (next ∷ [])) }
{
    let code = ErrorCode::UnexpectedNullCharacter;
    keep_if(next.ch == '\0', code, next.at, errors)
}

pub(crate) fn push_all(text: &mut String, characters: &[char]) -> Result<(), AllocError>
    ensures { OnOk result (string_bytes text.new ≡ string_bytes text.old ++ encode_utf8_all characters.now) }
{
    for character in characters {
        text.push(*character)?;
    }
    Ok(())
}
