//! What follows `<!`, comments and doctypes (HTML Standard, `#bogus-comment-state` to `#bogus-doctype-state`).

ghost use Rattle.std.specs.Prelude.{◌≡◌, ℕ, true, MatchResult};
ghost use Rattle.htoken.specs.Vocabulary.{all, BeginsBogus, Comment, EndsDoctype, error, gives_item, GivesSpan, HandedMeans, is_plain_in_bogus, place, TakesNext};

use crate::markup_declaration_open::{Opens, is_plain, opened_by, plain_front};
use crate::sink::TokenSink;
use crate::state::State;
use crate::token::Token;
use crate::tokenizer::{Answer, Tokenizer};
use hmarkup::{CommentWalk, DoctypeWalk};
use names::{ErrorCode, ParseError, Placed, Refusal};
use std::mem;

impl<'t> Tokenizer<'t> {
    /// The markup declaration open state (`#markup-declaration-open-state`), after `<!`.
    pub(crate) fn markup_declaration_open<S: TokenSink>(
        &mut self,
        p: Placed,
        sink: &mut S,
    ) -> Answer
        requires { (bang : ℕ) × (self.old.state ≡ State.MarkupDeclarationOpen bang) }
        ensures { TakesNext (gives_item S.gives S.gives_token) self.old p sink.old result sink.new self.new }
    {
        if !is_plain(p.ch) {
            self.begin_held(ErrorCode::IncorrectlyOpenedComment, p.at)?;
            return self.in_comment(p, sink);
        }
        let at = p.at;
        self.held.push(p)?;
        match opened_by(&self.held) {
            Opens::Nothing => Ok(()),
            Opens::Comment => {
                self.comment = CommentWalk::comment(self.alloc);
                self.state = State::Comment;
                Ok(())
            }
            Opens::Doctype => {
                self.doctype = DoctypeWalk::new(self.alloc);
                self.state = State::Doctype;
                Ok(())
            }
            Opens::Cdata => self.begin_held(ErrorCode::CdataInHtmlContent, at),
            Opens::Bogus => self.begin_held(ErrorCode::IncorrectlyOpenedComment, at),
        }
    }

    /// Begins what is read as a comment up to the first `>` (the bogus comment state, `#bogus-comment-state`) with the characters that are held.
    /// The error is at the first of them, or here.
    pub(crate) fn begin_held(&mut self, code: ErrorCode, at: u64) -> Answer
        ensures { MatchResult result (λ _. (self.new.state ≡ State.Comment) × (all is_plain_in_bogus self.old.held.items ≡ true
            → BeginsBogus self.old self.old.held.items (error code (place at self.old.held.items)) self.new)) (λ refusal. refusal ≡ Refusal.Memory) }
    {
        let at = self.held.first().map_or(at, |first| first.at);
        self.raised.errors.push(ParseError { code, at })?;
        self.comment = CommentWalk::bogus_after(self.alloc, plain_front(&self.held))?;
        self.state = State::Comment;
        Ok(())
    }

    /// Takes a character of a comment.
    pub(crate) fn in_comment<S: TokenSink>(&mut self, p: Placed, sink: &mut S) -> Answer
        requires { self.old.state ≡ State.Comment }
        ensures { TakesNext (gives_item S.gives S.gives_token) self.old p sink.old result sink.new self.new }
    {
        if self.comment.take_char(p.ch, p.at, &mut self.raised)? {
            self.end_comment(sink)
        } else {
            Ok(())
        }
    }

    /// Hands over the comment that has ended.
    pub(crate) fn end_comment<S: TokenSink>(&mut self, sink: &mut S) -> Answer
        ensures { GivesSpan (gives_item S.gives S.gives_token) (λ names token. HandedMeans names token (Comment self.old.comment.data self.old.at)) self.old
            sink.old result self.new sink.new }
    {
        let walk = mem::replace(&mut self.comment, CommentWalk::bogus(self.alloc));
        let text = walk.into_data();
        let at = self.at;
        self.end_span(Token::Comment { text, at }, sink)
    }

    /// Takes a character of a doctype.
    pub(crate) fn in_doctype<S: TokenSink>(&mut self, p: Placed, sink: &mut S) -> Answer
        requires { self.old.state ≡ State.Doctype }
        ensures { TakesNext (gives_item S.gives S.gives_token) self.old p sink.old result sink.new self.new }
    {
        if self.doctype.take_char(p.ch, p.at, &mut self.raised)? {
            self.end_doctype(sink)
        } else {
            Ok(())
        }
    }

    /// Hands over the doctype that has ended.
    pub(crate) fn end_doctype<S: TokenSink>(&mut self, sink: &mut S) -> Answer
        ensures { EndsDoctype (gives_item S.gives S.gives_token) self.old sink.old result self.new sink.new }
    {
        let walk = mem::replace(&mut self.doctype, DoctypeWalk::new(self.alloc));
        let doctype = Box::new(self.alloc, walk.into_doctype())?;
        let at = self.at;
        self.end_span(Token::Doctype { doctype, at }, sink)
    }
}
