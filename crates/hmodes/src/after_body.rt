//! The insertion modes after the body (HTML Standard, `#parsing-main-inhtml`).

ghost use Rattle.hmodes.specs.Vocabulary.{after_body, after_after_body, character_in_body, End, ◌▸◌, error, to, again, InBody, AfterBody, Start, Performs, AlwaysPerforms};

use crate::family::Family::*;
use crate::mode::Mode;
use crate::token_kind::TokenKind::{self, *};
use crate::tree_construction::{Flow, Ruling, TreeConstruction};
use htoken::Token;

impl<'q> TreeConstruction<'q> {
    /// The "after body" insertion mode (`#parsing-main-afterbody`).
    pub(crate) fn after_body(&mut self, kind: TokenKind, token: &mut Token, at: u64) -> Ruling
        ensures { Performs at (after_body kind) token.old self.old result token.new self.new }
    {
        match kind {
            Ws => self.character_in_body(token, at),
            Comment => self.comment_in_first(token, at),
            Doctype => self.ignore(Mode::AfterBody, at),
            Start(Html) => self.html_again(token, at),
            End(Html) => {
                if self.context.is_some() {
                    return self.ignore(Mode::AfterBody, at);
                }
                self.control.mode = Mode::AfterAfterBody;
                Ok(Flow::Done)
            }
            Eof => Ok(Flow::Done),
            _ => self.back_to_body(Mode::AfterBody, at),
        }
    }

    /// What belongs in the body comes after it.
    fn back_to_body(&mut self, mode: Mode, at: u64) -> Ruling
        ensures { AlwaysPerforms at (error mode ▸ to InBody ▸ again) self.old result self.new }
    {
        self.error(mode, at)?;
        self.control.mode = Mode::InBody;
        Ok(Flow::Again)
    }

    /// The "after after body" insertion mode (`#the-after-after-body-insertion-mode`).
    pub(crate) fn after_after_body(&mut self, kind: TokenKind, token: &mut Token, at: u64) -> Ruling
        ensures { Performs at (after_after_body kind) token.old self.old result token.new self.new }
    {
        match kind {
            Comment => self.comment_in_document(token, at),
            Doctype => self.ignore(Mode::InBody, at),
            Ws => self.character_in_body(token, at),
            Start(Html) => self.html_again(token, at),
            Eof => Ok(Flow::Done),
            _ => self.back_to_body(Mode::AfterAfterBody, at),
        }
    }
}
