//! The tree of a document, and the nodes that are not in it yet, in one vector of linked nodes.
#![tactic(auto)]

pub mod attributes;
mod attrs;
mod attrs_view;
mod elements;
pub mod indexed_list;
mod laws;
mod links;
mod node;
mod relink;
mod shared;
mod store;
mod tree;
mod walks;

pub use attributes::{FEW_ATTRIBUTES, has_no_null_or_return, index_attrs, name_number};
pub use attrs_view::Attrs;
pub use elements::ChildElements;
pub use indexed_list::{IndexedList, NONE};
pub use laws::{edits_know_no_names, questions_know_no_names};
pub use node::{DocumentType, NodeId, NodeKind, Place};
pub use shared::Attributes;
pub use tree::Tree;
pub use walks::{Ancestors, Children, Descendants};
