//! The insertion modes of the head (HTML Standard, `#parsing-main-inhead` to `#the-after-head-insertion-mode`).

ghost use Rattle.std.specs.Prelude.{◌≡◌, ◌<◌, IfSome};
ghost use Rattle.hmodes.specs.Vocabulary.{state_of, Performs, AlwaysPerforms, Does};
ghost use Rattle.hmodes.specs.Vocabulary.{in_head, in_head_noscript, noscript_ends, after_head, body_unwritten, late, removed, error, ended, with_site, ◌▸◌, to, insert, pop, AfterHead, push_head};

use crate::family::Family::*;
use crate::mode::Mode;
use crate::token_kind::TokenKind::{self, *};
use crate::tree_construction::{Flow, Ruling, TreeConstruction, done};
use hopen::Open;
use htoken::Token;
use names::{Refusal, Tag};

impl<'q> TreeConstruction<'q> {
    pub(crate) fn in_head(&mut self, kind: TokenKind, token: &mut Token, at: u64) -> Ruling
        ensures { Performs at (in_head kind) token.old self.old result token.new self.new }
    {
        match kind {
            Ws => self.put(token, at),
            Comment => self.insert_comment(token, at),
            Start(Html) => self.html_again(token, at),
            Start(Base | HeadVoid) => done(self.void(token, at)),
            Start(Title | Noframes | Style | Script) => done(self.raw(token, at)),
            // The scripting flag (`#scripting-flag`) is disabled.
            Start(Noscript) => self.insert_and_go(Mode::InHeadNoscript, token, at),
            End(Head) => self.pop_and_go(Mode::AfterHead, Flow::Done),
            End(Body | Html | Br) => self.pop_and_go(Mode::AfterHead, Flow::Again),
            Doctype | Start(Head) | End(_) => self.ignore(Mode::InHead, at),
            _ => self.pop_and_go(Mode::AfterHead, Flow::Again),
        }
    }

    /// An element, whose content goes by another mode.
    pub(crate) fn insert_and_go(&mut self, mode: Mode, token: &mut Token, at: u64) -> Ruling
        ensures { Performs at (insert ▸ to mode) token.old self.old result token.new self.new }
    {
        self.insert(token, at)?;
        self.control.mode = mode;
        Ok(Flow::Done)
    }

    /// The current node is closed, and another mode comes.
    pub(crate) fn pop_and_go(&mut self, mode: Mode, flow: Flow) -> Ruling
        ensures { AlwaysPerforms 0 (pop ▸ to mode ▸ ended flow) self.old result self.new }
    {
        self.site.pop();
        self.control.mode = mode;
        Ok(flow)
    }

    /// The "in head noscript" insertion mode (`#parsing-main-inheadnoscript`).
    pub(crate) fn in_head_noscript(&mut self, kind: TokenKind, token: &mut Token, at: u64) -> Ruling
        ensures { Performs at (in_head_noscript kind) token.old self.old result token.new self.new }
    {
        match kind {
            Start(Html) => self.html_again(token, at),
            End(Noscript) => self.pop_and_go(Mode::InHead, Flow::Done),
            Ws => self.put(token, at),
            Comment => self.insert_comment(token, at),
            Start(HeadVoid) => done(self.void(token, at)),
            Start(Noframes | Style) => done(self.raw(token, at)),
            End(Br) => self.noscript_ends(at),
            Doctype | Start(Head | Noscript) | End(_) => self.ignore(Mode::InHeadNoscript, at),
            _ => self.noscript_ends(at),
        }
    }

    /// A noscript that no tag closed.
    fn noscript_ends(&mut self, at: u64) -> Ruling
        ensures { AlwaysPerforms at noscript_ends self.old result self.new }
    {
        self.error(Mode::InHeadNoscript, at)?;
        self.site.pop();
        self.control.mode = Mode::InHead;
        Ok(Flow::Again)
    }

    pub(crate) fn after_head(&mut self, kind: TokenKind, token: &mut Token, at: u64) -> Ruling
        requires { IfSome self.old.control.head (λ k. (0 < k) × (k < self.old.site.nodes.made)) }
        ensures { Performs at (after_head kind) token.old self.old result token.new self.new }
    {
        match kind {
            Ws => self.put(token, at),
            Comment => self.insert_comment(token, at),
            Start(Html) => self.html_again(token, at),
            Start(Body) => self.insert_and_go(Mode::InBody, token, at),
            Start(Base | HeadVoid | Noframes | Script | Style | Title) => {
                self.late(kind, token, at)
            }
            End(Body | Html | Br) => self.body_unwritten(at),
            Doctype | Start(Head) | End(_) => self.ignore(Mode::AfterHead, at),
            _ => self.body_unwritten(at),
        }
    }

    /// The head is open again.
    fn open_head(&mut self, at: u64) -> Result<(), Refusal>
        requires { IfSome self.old.control.head (λ k. (0 < k) × (k < self.old.site.nodes.made)) }
        ensures { Does at (error AfterHead ▸ push_head) self.old result self.new }
    {
        let head = self.control.head;
        self.error(Mode::AfterHead, at)?;
        if let Some(node) = head {
            let name = Tag::Head.number();
            self.site.push(Open { node, name }, at)?;
        }
        Ok(())
    }

    /// The head is no longer open.
    fn remove_head(&mut self)
        ensures { state_of self.new ≡ with_site (removed self.old.control.head self.old.site) (state_of self.old) }
    {
        if let Some(node) = self.control.head {
            self.site.leave(node);
        }
    }

    /// A tag that belongs in the head: by the rules of "in head", while the head is open again.
    fn late(&mut self, kind: TokenKind, token: &mut Token, at: u64) -> Ruling
        requires { IfSome self.old.control.head (λ k. (0 < k) × (k < self.old.site.nodes.made)) }
        ensures { Performs at (late (in_head kind)) token.old self.old result token.new self.new }
    {
        self.open_head(at)?;
        match self.in_head(kind, token, at)? {
            Flow::Done => self.remove_head(),
            Flow::Again => return Ok(Flow::Again),
        }
        Ok(Flow::Done)
    }

    /// A body that no tag began.
    fn body_unwritten(&mut self, at: u64) -> Ruling
        ensures { AlwaysPerforms at body_unwritten self.old result self.new }
    {
        self.insert_named(Tag::Body.number(), at)?;
        self.control.mode = Mode::InBody;
        Ok(Flow::Again)
    }
}
