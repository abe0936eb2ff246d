//! Trees as text: what is serialized (HTML Standard, `#serialising-html-fragments`), to any target of bytes or in memory, whether it is
//! read as the same trees again, and the lines of trees and errors that the program prints.
#![tactic(auto)]

mod around;
pub mod content;
mod content_rows;
mod error_line;
mod escaped;
pub mod escaping;
pub mod gathered;
mod lines;
pub mod node_view;
mod plain;
mod plain_document;
mod plain_names;
mod plain_texts;
mod serializer;
mod sorted;
pub mod target;
pub mod walk;
mod writer;

pub use content::{Content, Role, Texts};
pub use escaping::Escaping;
pub use gathered::Gathered;
pub use lines::{error_lines, print_errors, print_tree, tree_text};
pub use node_view::NodeView;
pub use plain::is_plain;
pub use plain_document::is_plain_document;
pub use plain_names::is_plain_name;
pub use serializer::{
    serialize, serialize_in, serialize_in_to_vec, serialize_outer, serialize_outer_to_vec,
    serialize_to_vec,
};
pub use target::{Target, write_all};
pub use walk::{Reach, TreeWalk, Visit, inserts_marker};
