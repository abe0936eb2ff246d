//! A walk through the characters after an `&`: the table that it reads with, and its state.

ghost use Rattle.std.specs.Prelude.{◌≡◌, true, length};
ghost use Rattle.charref.specs.Held.{is_within};

use crate::reference_state::ReferenceState;
use crate::table::Table;

/// Reads a character reference, one character at a time (HTML Standard, from `#character-reference-state` to
/// `#numeric-character-reference-end-state`): a name of the table, a number, or an `&` that is text. It allocates nothing: the
/// name so far is a range of the table, and a number above the greatest code point is stored as one more than that.
#[derive(Clone, Copy)]
pub struct Walk<'t> {
    pub(crate) table: &'t Table,
    pub(crate) in_value: bool,
    pub(crate) state: ReferenceState,
    ghost within: { is_within state (length table.now) ≡ true },
}
