//! What both walks do with an error and with a character.

ghost use Rattle.std.specs.Prelude.{◌≡◌, ◌++◌, ◌∷◌, [], IfOk, OnOk, string_bytes};
ghost use Rattle.std.specs.Char.{encode_utf8};
ghost use Rattle.hmarkup.specs.Vocabulary.{error, fault_errors, null_errors, text_bytes, without_null, Hands};

use crate::sink::ErrorSink;
use names::{ErrorCode, ParseError, Placed, Refusal};
use std::alloc::{AllocError, Global};

pub fn tell<S: ErrorSink>(code: ErrorCode, at: u64, errors: &mut S) -> Result<(), Refusal>
    ensures { S.gives errors.old (error code at) result errors.new }
{
    errors.take_error(ParseError { code, at })
}

pub fn report<S: ErrorSink>(
    fault: Option<ParseError>,
    ch: char,
    at: u64,
    errors: &mut S,
) -> Result<(), Refusal>
    ensures { Hands S.gives errors.old (fault_errors fault ++ null_errors (record { ch = ch; at = at } ∷ [])) result errors.new }
{
    if let Some(fault) = fault {
        errors.take_error(fault)?;
    }
    if ch == '\0' {
        return tell(ErrorCode::UnexpectedNullCharacter, at, errors);
    }
    Ok(())
}

fn kept(ch: char) -> char
    ensures { result ≡ without_null ch }
{
    if ch == '\0' { '\u{FFFD}' } else { ch }
}

pub fn push(text: &mut String, ch: char) -> Result<(), AllocError>
    ensures { OnOk result (string_bytes text.new ≡ string_bytes text.old ++ encode_utf8 (without_null ch)) }
{
    text.push(kept(ch))
}

/// The characters as a string, with U+FFFD in place of NUL.
pub fn text_of(alloc: Global, characters: &[Placed]) -> Result<String, AllocError>
    ensures { IfOk result (λ text. string_bytes text ≡ text_bytes characters.now) }
{
    characters.iter().map(|p| kept(p.ch)).collect(alloc)
}
