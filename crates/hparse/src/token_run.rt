//! What a run over an input's tokens answers.

use htoken::Token;
use names::{Names, ParseError};

/// The tokens of an input and its parse errors, with the table of the tokens' names.
#[derive(Drop)]
pub struct TokenRun {
    pub names: Names,
    pub tokens: Vec<Token>,
    pub errors: Vec<ParseError>,
}
