//! What a run collects, and parse errors in their order.

ghost use Rattle.std.specs.Prelude.{◌≡◌, [], MatchResult, OnOk};
ghost use Rattle.std.specs.List.Sorted.{IsPermutation, IsSorted};
ghost use Rattle.hparse.specs.Answer.{error_cmp};
ghost use Rattle.hparse.specs.Vocabulary.{Memory, IsRunOf};

use crate::token_run::TokenRun;
use hmarkup::ErrorSink;
use htoken::{Token, TokenSink};
use names::{Names, ParseError, Refusal};
use std::alloc::{AllocError, Global};
use std::mem;

/// Sorts errors by their places, and at one place by their codes.
pub fn sort_errors(errors: &mut Vec<ParseError>) -> Result<(), AllocError>
    ensures permutation { OnOk result (IsPermutation errors.old.items errors.new.items) }
    ensures sorted { OnOk result (IsSorted error_cmp errors.new.items) }
{
    errors.sort_by_key(|error| (error.at, error.code.rank()))?;
    Ok(())
}

/// The tokens and the parse errors so far, each in the order in which they came.
#[derive(Drop)]
pub struct Collected {
    pub tokens: Vec<Token>,
    pub errors: Vec<ParseError>,
}

impl Collected {
    pub fn new(alloc: Global) -> Collected
        ensures tokens { result.tokens.items ≡ [] }
        ensures errors { result.errors.items ≡ [] }
    {
        Collected {
            tokens: Vec::new(alloc),
            errors: Vec::new(alloc),
        }
    }

    /// What has been collected, with the errors in their order.
    pub fn into_run(self, names: Names) -> Result<TokenRun, Refusal>
        ensures { MatchResult result (IsRunOf names self) (λ refusal. refusal ≡ Memory) }
    {
        let Collected { tokens, mut errors } = self;
        sort_errors(&mut errors)?;
        Ok(TokenRun {
            names,
            tokens,
            errors,
        })
    }
}

impl ErrorSink for Collected {
    ghost use Rattle.hparse.specs.Collecting.{KeepsError};

    ghost gives = { KeepsError };

    fn take_error(&mut self, error: ParseError) -> Result<(), Refusal> {
        self.errors.push(error)?;
        Ok(())
    }
}

impl TokenSink for Collected {
    ghost use Rattle.hparse.specs.Collecting.{KeepsToken};

    ghost gives_token = { KeepsToken };

    fn take_token(&mut self, token: Token) -> Result<(), Refusal> {
        self.tokens.push(token)?;
        Ok(())
    }

    fn take_tag(&mut self, token: &mut Token, _names: &Names) -> Result<(), Refusal> {
        self.take_token(mem::replace(token, Token::Eof { at: 0 }))
    }

    fn take_text(&mut self, ch: char, at: u64) -> Result<(), Refusal> {
        self.take_token(Token::Char { ch, at })
    }
}
