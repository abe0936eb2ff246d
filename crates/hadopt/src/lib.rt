//! Where nodes go, what is inserted and closed, and the formatting elements (HTML Standard, `#the-list-of-active-formatting-elements`,
//! `#creating-and-inserting-nodes`, `#closing-elements-that-have-implied-end-tags` and `#parsing-main-inbody`).
#![tactic(auto)]

pub mod adopting;
pub mod insertion;
pub mod laws;
pub mod listing;
pub mod places;
pub mod popping;
pub mod questions;
pub mod reconstructing;
pub mod site;

pub use laws::{adoption_makes_few_elements, numbers_agree_with_texts, operations_know_no_names};
pub use popping::Passing;
pub use site::Site;
