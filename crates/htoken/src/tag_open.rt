//! After `<` and `</` in data (HTML Standard, `#tag-open-state` and `#end-tag-open-state`).

ghost use Rattle.std.specs.Prelude.{◌≡◌, ◌∷◌, ℕ, [], true};
ghost use Rattle.htoken.specs.Vocabulary.{gives_item, is_no_markup, TakesNext};

use crate::hand::give_faulty;
use crate::sink::TokenSink;
use crate::state::State;
use crate::tokenizer::{Answer, Tokenizer};
use htag::TagKind;
use names::{ErrorCode, ParseError, Placed};

impl<'t> Tokenizer<'t> {
    /// The tag open state (`#tag-open-state`), after `<`.
    #[inline(always)]
    pub(crate) fn tag_open<S: TokenSink>(&mut self, p: Placed, sink: &mut S) -> Answer
        requires { self.old.state ≡ State.TagOpen }
        ensures { TakesNext (gives_item S.gives S.gives_token) self.old p sink.old result sink.new self.new }
    {
        match p.ch {
            '/' => {
                self.state = State::EndTagOpen(p.at);
                Ok(())
            }
            '!' => {
                self.state = State::MarkupDeclarationOpen(p.at);
                self.held.clear();
                Ok(())
            }
            '?' => {
                self.held.clear();
                self.begin_held(ErrorCode::UnexpectedQuestionMarkInsteadOfTagName, p.at)?;
                self.in_comment(p, sink)
            }
            _ if p.ch.is_ascii_alphabetic() => Ok(self.begin_tag(TagKind::Start, p.ch)?),
            _ => self.less_is_text(p, sink),
        }
    }

    /// A `<` before a character with which it begins no markup is text.
    fn less_is_text<S: TokenSink>(&mut self, p: Placed, sink: &mut S) -> Answer
        requires state { self.old.state ≡ State.TagOpen }
        requires other { is_no_markup (p ∷ []) ≡ true }
        ensures { TakesNext (gives_item S.gives S.gives_token) self.old p sink.old result sink.new self.new }
    {
        self.state = State::Text;
        let at = self.at;
        let code = ErrorCode::InvalidFirstCharacterOfTagName;
        give_faulty(code, p.at, Placed { ch: '<', at }, sink)?;
        self.in_text(p, sink)
    }

    /// The end tag open state (`#end-tag-open-state`), after `</`.
    #[inline(always)]
    pub(crate) fn end_tag_open<S: TokenSink>(&mut self, p: Placed, sink: &mut S) -> Answer
        requires { (solidus : ℕ) × (self.old.state ≡ State.EndTagOpen solidus) }
        ensures { TakesNext (gives_item S.gives S.gives_token) self.old p sink.old result sink.new self.new }
    {
        match p.ch {
            '>' => {
                self.state = State::Text;
                sink.take_error(ParseError {
                    code: ErrorCode::MissingEndTagName,
                    at: p.at,
                })
            }
            _ if p.ch.is_ascii_alphabetic() => Ok(self.begin_tag(TagKind::End, p.ch)?),
            _ => {
                self.held.clear();
                self.begin_held(ErrorCode::InvalidFirstCharacterOfTagName, p.at)?;
                self.in_comment(p, sink)
            }
        }
    }
}
