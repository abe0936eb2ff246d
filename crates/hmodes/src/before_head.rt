//! The insertion modes before the head (HTML Standard, `#the-before-html-insertion-mode` and `#the-before-head-insertion-mode`).

ghost use Rattle.std.specs.Prelude.{◌<◌};
ghost use Rattle.hmodes.specs.Vocabulary.{before_html, html_unwritten, before_head, head_unwritten, Performs, AlwaysPerforms};
ghost use Rattle.hmodes.specs.Vocabulary.{insert};

use crate::family::Family::*;
use crate::mode::Mode;
use crate::token::{take_attrs, token_name};
use crate::token_kind::TokenKind::{self, *};
use crate::tree_construction::{Flow, Ruling, TreeConstruction};
use htoken::Token;
use names::Tag;

impl<'q> TreeConstruction<'q> {
    pub(crate) fn before_html(&mut self, kind: TokenKind, token: &mut Token, at: u64) -> Ruling
        ensures { Performs at (before_html kind) token.old self.old result token.new self.new }
    {
        match kind {
            Comment => self.comment_in_document(token, at),
            Ws => Ok(Flow::Done),
            Start(Html) => {
                let name = token_name(token);
                let mut attrs = take_attrs(self.alloc, token);
                let place = self.site.place_in_document();
                self.site.insert_element(name, &mut attrs, place, at)?;
                self.control.mode = Mode::BeforeHead;
                Ok(Flow::Done)
            }
            End(Head | Body | Html | Br) => self.html_unwritten(at),
            Doctype | End(_) => self.ignore(Mode::BeforeHtml, at),
            _ => self.html_unwritten(at),
        }
    }

    /// An html that no tag began.
    fn html_unwritten(&mut self, at: u64) -> Ruling
        ensures { AlwaysPerforms at html_unwritten self.old result self.new }
    {
        let place = self.site.place_in_document();
        self.site
            .insert_element(Tag::Html.number(), &mut Vec::new(self.alloc), place, at)?;
        self.control.mode = Mode::BeforeHead;
        Ok(Flow::Again)
    }

    pub(crate) fn before_head(&mut self, kind: TokenKind, token: &mut Token, at: u64) -> Ruling
        ensures { Performs at (before_head kind) token.old self.old result token.new self.new }
    {
        match kind {
            Ws => Ok(Flow::Done),
            Comment => self.insert_comment(token, at),
            Start(Html) => self.html_again(token, at),
            Start(Head) => {
                self.insert(token, at)?;
                self.control.head = Some(self.current_node());
                self.control.mode = Mode::InHead;
                Ok(Flow::Done)
            }
            End(Head | Body | Html | Br) => self.head_unwritten(at),
            Doctype | End(_) => self.ignore(Mode::BeforeHead, at),
            _ => self.head_unwritten(at),
        }
    }

    /// A head that no tag began.
    fn head_unwritten(&mut self, at: u64) -> Ruling
        ensures { AlwaysPerforms at head_unwritten self.old result self.new }
    {
        self.insert_named(Tag::Head.number(), at)?;
        self.control.head = Some(self.current_node());
        self.control.mode = Mode::InHead;
        Ok(Flow::Again)
    }
}
