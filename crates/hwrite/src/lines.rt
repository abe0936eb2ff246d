//! Tokens as they are printed.

ghost use Rattle.std.specs.Prelude.{◌≡◌, [], List, false, true, IfErr, IfOk, MatchResult, OnOk};
ghost use Rattle.std.specs.List.{flat_map};
ghost use Rattle.std.specs.String.{string_bytes};
ghost use Rattle.names.specs.declared.refusal.Refusal.TheVariants.{Memory};
ghost use Rattle.hwrite.specs.Vocabulary.{AddsText, beginning_of_characters, Char, drafted, Drafts, end_of_characters, Line, line_text, draft_table, tok_of, Tok, TokensMean, token_lines};

use crate::words::{begin_line, push_escaped, push_line};
use hmarkup::ErrorSink;
use hparse::TokenRun;
use htoken::{Token, TokenSink};
use names::{Names, ParseError, Refusal};
use std::alloc::{AllocError, Global};

/// The lines of the tokens so far, as they are printed.
#[derive(Drop)]
pub(crate) struct Draft {
    text: String,
    /// Whether characters end the text, and their line is open.
    in_characters: bool,
}

impl Draft {
    pub fn new(alloc: Global) -> Draft
        ensures { (lines : List Line) → drafted result lines ≡ flat_map line_text lines }
    {
        Draft {
            text: String::new(alloc),
            in_characters: false,
        }
    }

    fn end_characters(&mut self) -> Result<(), AllocError>
        ensures { OnOk result (AddsText self.old self.new (end_of_characters self.old.in_characters) false) }
    {
        if self.in_characters {
            self.text.push_str("\"\n")?;
            self.in_characters = false;
        }
        Ok(())
    }

    /// Begins a line of characters at this place, unless one is open.
    fn begin_characters(&mut self, at: u64) -> Result<(), AllocError>
        ensures { OnOk result (AddsText self.old self.new (beginning_of_characters self.old.in_characters at) true) }
    {
        if !self.in_characters {
            begin_line(&mut self.text, at, "chars \"")?;
            self.in_characters = true;
        }
        Ok(())
    }

    #[inline]
    fn push_text(&mut self, ch: char, at: u64) -> Result<(), AllocError>
        ensures { OnOk result (Drafts self.old (Char ch at) self.new) }
    {
        self.begin_characters(at)?;
        push_escaped(&mut self.text, ch)
    }

    /// Writes a token, with the table of its names if it is a tag.
    pub fn push(&mut self, token: &Token, names: Option<&Names>) -> Result<(), AllocError>
        ensures { OnOk result (Drafts self.old (tok_of (draft_table names.entry) token.now) self.new) }
    {
        if let Token::Char { ch, at } = token {
            return self.push_text(*ch, *at);
        }
        self.end_characters()?;
        push_line(&mut self.text, token, names)
    }

    #[tactic(auto, using(crate::proofs::Drafting::ended))]
    pub fn into_text(mut self) -> Result<String, Refusal>
        ensures { MatchResult result (λ text. string_bytes text ≡ drafted self []) (λ e. e ≡ Memory) }
    {
        self.end_characters()?;
        Ok(self.text)
    }
}

impl ErrorSink for Draft {
    ghost use Rattle.hwrite.specs.Draft.{PassesError};

    ghost gives = { PassesError };

    fn take_error(&mut self, _error: ParseError) -> Result<(), Refusal> {
        Ok(())
    }
}

impl TokenSink for Draft {
    ghost use Rattle.hwrite.specs.Draft.{DraftsToken};

    ghost gives_token = { DraftsToken };

    fn take_token(&mut self, token: Token) -> Result<(), Refusal> {
        self.push(&token, None)?;
        Ok(())
    }

    fn take_tag(&mut self, token: &mut Token, names: &Names) -> Result<(), Refusal> {
        self.push(token, Some(names))?;
        Ok(())
    }

    fn take_text(&mut self, ch: char, at: u64) -> Result<(), Refusal> {
        self.push_text(ch, at)?;
        Ok(())
    }
}

/// The tokens of a run as they are printed: a line each, but one line for characters that are next to each other.
pub fn token_lines(alloc: Global, run: &TokenRun) -> Result<Vec<u8>, Refusal>
    requires { (tokens : List Tok) × TokensMean run.now.names run.now.tokens.items tokens }
    ensures lines { (tokens : List Tok) → TokensMean run.now.names run.now.tokens.items tokens
        → IfOk result (λ text. text.items ≡ token_lines tokens) }
    ensures memory { IfErr result (λ refusal. refusal ≡ Refusal.Memory) }
{
    let mut draft = Draft::new(alloc);
    for token in &run.tokens {
        draft.push(token, Some(&run.names))?;
    }
    let text = draft.into_text()?;
    Ok(text.into_bytes())
}
