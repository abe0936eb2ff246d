//! The tree construction: the insertion modes, and the builder that takes tokens (HTML Standard, `#the-insertion-mode`,
//! `#tree-construction` and `#parsing-html-fragments`).
#![tactic(auto)]

mod after_body;
mod before_head;
mod beginning;
mod builder;
mod elements;
pub mod family;
mod in_body;
mod in_caption;
mod in_cell;
mod in_head;
mod in_row;
mod in_table;
mod initial;
mod laws;
mod limits;
mod mode;
mod step;
mod table_body;
mod table_text;
mod token;
pub mod token_kind;
mod tree_construction;
mod words;

pub use builder::{Builder, Built};
pub use laws::{
    adopts_once, each_table_agrees, names_are_of_the_table, one_step, open_stands, raw_follows,
    steps_know_no_names,
};
pub use limits::{LEAST, Limits, MAX_DEPTH, MAX_NODES};
