//! The vocabulary of the parser: names as numbers, the sets of names that its rules use, refusals, parse errors, and characters with their places.
#![tactic(auto)]

pub mod attr;
pub mod error;
pub mod keys;
mod known;
pub mod laws;
pub mod placed;
pub mod raw;
pub mod refusal;
pub mod sets;
pub mod short;
pub mod table;
pub mod tag;
mod tags;

pub use attr::Attr;
pub use error::{ErrorCode, ParseError};
pub use keys::Keys;
pub use laws::each_table_spells;
pub use placed::{Placed, is_noncharacter};
pub use raw::{RawKind, RefusedName};
pub use refusal::{Refusal, TableFault};
pub use short::ShortText;
pub use table::{NameId, Names};
pub use tag::Tag;
