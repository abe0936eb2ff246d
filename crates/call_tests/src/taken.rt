//! The sink of the tests.

use hmarkup::ErrorSink;
use htoken::{Token, TokenSink};
use names::{Names, ParseError, Refusal};
use std::alloc::Global;

/// What it took: the characters as they are, `S` for a start tag, `.` for another token, and `!` for an error. It refuses what is more than `left`,
/// and counts what it refused.
#[derive(Drop)]
pub struct Taken {
    pub text: String,
    pub refused: u32,
    left: u32,
}

impl Taken {
    pub fn new(alloc: Global, left: u32) -> Taken {
        Taken {
            text: String::new(alloc),
            refused: 0,
            left,
        }
    }

    fn add(&mut self, ch: char) -> Result<(), Refusal> {
        if self.left == 0 {
            self.refused = self.refused.saturating_add(1);
            return Err(Refusal::Write);
        }
        self.left -= 1;
        self.text.push(ch)?;
        Ok(())
    }
}

impl ErrorSink for Taken {
    ghost gives = { λ _ _ _ _. Unit {0} };

    fn take_error(&mut self, _error: ParseError) -> Result<(), Refusal> {
        self.add('!')
    }
}

impl TokenSink for Taken {
    ghost gives_token = { λ _ _ _ _. Unit {0} };

    fn take_token(&mut self, token: Token) -> Result<(), Refusal> {
        self.add(letter(&token))
    }

    fn take_tag(&mut self, token: &mut Token, _names: &Names) -> Result<(), Refusal> {
        self.add(letter(token))
    }

    fn take_text(&mut self, ch: char, _at: u64) -> Result<(), Refusal> {
        self.add(ch)
    }
}

/// The letter of a token.
fn letter(token: &Token) -> char {
    match token {
        Token::Start { .. } => 'S',
        Token::Char { ch, .. } => *ch,
        _ => '.',
    }
}
