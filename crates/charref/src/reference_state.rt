//! The state of a walk.

use crate::number::Base;
use crate::search::Search;

/// What the characters after the `&` are so far: the beginning of a name, `#`, `#x`, or a number.
#[derive(Clone, Copy)]
pub(crate) enum ReferenceState {
    /// The character reference state (`#character-reference-state`), and after a letter or digit the named character reference state
    /// (`#named-character-reference-state`).
    Name(Search),
    /// After `#` the numeric character reference state (`#numeric-character-reference-state`), and with it the decimal character reference
    /// start state (`#decimal-character-reference-start-state`), which takes the same character; after `#x` the hexadecimal character
    /// reference start state (`#hexadecimal-character-reference-start-state`).
    Sign(Base),
    /// The hexadecimal or decimal character reference state (`#hexadecimal-character-reference-state`,
    /// `#decimal-character-reference-state`), with the number so far.
    Number(Base, u32),
}
