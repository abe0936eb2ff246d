//! Character references (HTML Standard, `#tokenization`, from `#character-reference-state` on): the table of named ones, and reading what follows an `&`.
#![tactic(auto)]

mod at_once;
mod entries;
mod flat;
mod key;
mod last;
mod laws;
mod number;
mod open_keys;
mod read;
mod reference;
mod reference_state;
mod search;
mod slots;
mod starts;
mod table;
mod walk;
mod walking;

pub use laws::{goes_on_in_a_reference, one_flat_table, one_reference, some_reference};
pub use reference::{Characters, Reference};
pub use table::{Match, Table};
pub use walk::Walk;
