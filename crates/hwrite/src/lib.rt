//! The one crate that a user of the library depends on: parsing, writing, what comes back, and the program's engine, which reads an
//! input from a reader and prints to a writer. What is in crates below is passed on.
//!
//! [`read_into`] hands tokens and parse errors to a [`TokenSink`] of the user's, and gives it back. Where the sink refuses one, it is handed
//! no more, the reading ends, and `read_into` answers that refusal; `Refusal::Write` is one that no input brings.
#![tactic(auto)]

mod columns;
pub mod command;
pub mod counted;
pub mod devices;
pub mod engine;
mod line_index;
pub mod lines;
mod words;

pub use columns::{Lines, line_column};
pub use command::{Command, Task};
pub use counted::Counted;
pub use devices::{ReadDevice, WriteDevice};
pub use engine::{check_context, parser, run, write_text};
pub use hmarkup::ErrorSink;
pub use hnodes::{
    Ancestors, ChildElements, Children, Descendants, DocumentType, NodeId, NodeKind, Place, Tree,
};
pub use hparse::{
    AttributeTexts, Limits, Options, Origin, Parsed, Parser, Quirks, Source, Table, TokenRun,
    is_context, parse_reader, read_into, tokens,
};
pub use hserialize::{
    Escaping, Target, error_lines, is_plain, is_plain_document, print_errors, print_tree,
    serialize, serialize_in, serialize_in_to_vec, serialize_outer, serialize_outer_to_vec,
    serialize_to_vec, tree_text, write_all,
};
pub use htext::{BadBytes, MAX_INPUT};
pub use htoken::{Token, TokenSink};
pub use line_index::LineIndex;
pub use lines::token_lines;
pub use names::{
    Attr, ErrorCode, Keys, NameId, Names, ParseError, Refusal, RefusedName, TableFault, Tag,
};
