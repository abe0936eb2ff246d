//! Comments, bogus comments and doctypes, read one character at a time (HTML Standard, `#bogus-comment-state` and `#comment-start-state` to
//! `#bogus-doctype-state`), and the quirks list.
#![tactic(auto)]

pub mod comment;
pub mod doctype;
mod doctype_state;
mod keyword;
pub mod quirks;
pub mod sink;
mod tail;
mod taking;

pub use comment::{CommentKind, CommentWalk};
pub use doctype::{Doctype, DoctypeWalk};
pub use quirks::{QuirkKind, Quirks};
pub use sink::ErrorSink;
