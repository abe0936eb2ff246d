//! Laws over the definitions: the bytes of an input have exactly one answer, a front of them is refused only for what is settled, and
//! what is written of a plain tree or document is parsed as that.
#![tactic(auto)]

pub mod laws;

pub use laws::{
    fronts_of_accepted, one_answer, one_parse, plain_builds, plain_comes_back,
    plain_document_builds, plain_document_comes_back, plain_document_tokens, plain_tokens,
    refused_fronts,
};
