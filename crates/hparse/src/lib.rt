//! A document or a fragment to its tree and parse errors, or to its tokens, from bytes in any pieces or from a reader. What its options
//! are made of is passed on: the table of character references, the quirks list, the limits.
#![tactic(auto)]

mod builder_with_origins;
mod collect;
pub mod context;
pub mod document;
mod feeding;
pub mod options;
pub mod origins;
mod page_text;
pub mod parsed;
pub mod parser;
pub mod reader;
mod reading;
pub mod source;
pub mod token_run;

pub use charref::Table;
pub use context::is_context;
pub use document::tokens;
pub use hmarkup::Quirks;
pub use hmodes::Limits;
pub use options::Options;
pub use origins::Origin;
pub use page_text::AttributeTexts;
pub use parsed::Parsed;
pub use parser::{Parser, parse_reader};
pub use reader::read_into;
pub use source::Source;
pub use token_run::TokenRun;
