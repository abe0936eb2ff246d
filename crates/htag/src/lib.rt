//! Tags after their mark, a character at a time (HTML Standard, `#tag-name-state` and `#before-attribute-name-state` to
//! `#self-closing-start-tag-state`).
#![tactic(auto)]

mod at_once;
mod attribute;
mod kind;
mod piece;
mod push;
mod quiet;
mod run;
mod seen;
mod stamp;
mod tag_name_state;
mod tag_state;
mod walk;

pub use at_once::{bare_name, is_bare, tag_name};
pub use kind::TagKind;
pub use walk::TagWalk;
