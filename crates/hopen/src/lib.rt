//! The stack of open elements (HTML Standard, `#the-stack-of-open-elements`) and the list of active formatting elements
//! (`#the-list-of-active-formatting-elements`).
#![tactic(auto)]

mod attributes;
pub mod bookmark;
pub mod entry;
mod exchange;
pub mod formatting;
mod hashes;
mod kept;
pub mod laws;
mod leaving;
mod name_sets;
pub mod scope;
mod slots;
mod sought;
pub mod stack;

pub use bookmark::Bookmark;
pub use entry::Entry;
pub use formatting::Formatting;
pub use laws::{formatting_knows_no_names, stack_knows_no_names};
pub use scope::{Group, Scope};
pub use stack::{Open, OpenStack};
