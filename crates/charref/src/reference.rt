//! The result of a walk.

ghost use Rattle.std.specs.Prelude.{◌≡◌, [], ◌∷◌, ◌++◌, OnOk, bytes_eq, length, string_bytes, encode_utf8_all};
ghost use Rattle.charref.specs.Vocabulary.{characters_of};

use names::ErrorCode;
use std::alloc::AllocError;

/// The characters that a reference stands for.
#[derive(Clone, Copy)]
pub enum Characters {
    One(char),
    Two(char, char),
}

/// What is at an `&`: a reference, or an `&` that is text.
///
/// Its parse errors are placed at the `&`: missing-semicolon-after-character-reference if `missing_semicolon` is set, and
/// then `fault`. If `is_ambiguous` is set, no key matches, all characters taken are alphanumerics to be read again, and their run may
/// go on (`#ambiguous-ampersand-state`): the error is unknown-named-character-reference if a `;` follows that run.
#[derive(Clone, Copy)]
pub struct Reference {
    pub characters: Characters,
    /// How many characters at the end of those taken are not part of it and must be read again. The `&` is part of it.
    pub left: usize,
    pub missing_semicolon: bool,
    pub fault: Option<ErrorCode>,
    pub is_ambiguous: bool,
}

impl Characters {
    /// How many there are.
    #[inline(always)]
    pub fn count(self) -> usize
        ensures { result ≡ length (characters_of self) }
    {
        match self {
            Characters::One(_) => 1,
            Characters::Two(_, _) => 2,
        }
    }

    /// Whether they are this one alone.
    pub(crate) fn is_only(self, character: char) -> bool
        ensures { result ≡ bytes_eq (characters_of self) (character ∷ []) }
    {
        match self {
            Characters::One(only) => only == character,
            Characters::Two(_, _) => false,
        }
    }

    /// Adds them to a text.
    #[inline(always)]
    pub fn push_to(self, text: &mut String) -> Result<(), AllocError>
        ensures { OnOk result (string_bytes text.new ≡ string_bytes text.old ++ encode_utf8_all (characters_of self)) }
    {
        match self {
            Characters::One(only) => text.push(only),
            Characters::Two(first, second) => {
                text.push(first)?;
                text.push(second)
            }
        }
    }
}
