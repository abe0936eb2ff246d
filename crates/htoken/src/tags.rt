//! Tags (HTML Standard, `#tag-name-state` and `#before-attribute-name-state` to `#self-closing-start-tag-state`).

ghost use Rattle.std.specs.Prelude.{◌≡◌, ℕ, List, Some, MatchResult, OnOk};
ghost use Rattle.htoken.specs.Vocabulary.{BeginsTag, End, EndsStartTag, EndsTag, gives_item, Grows, KeepsFaults, TakesNextNamed};

use crate::hand::{give_tag, tell_if};
use crate::script::Script;
use crate::sink::TokenSink;
use crate::state::State;
use crate::token::Token;
use crate::tokenizer::{Answer, Tokenizer};
use htag::TagKind;
use names::{ErrorCode, NameId, Names, Placed, RawKind, Refusal};
use std::alloc::AllocError;

impl<'t> Tokenizer<'t> {
    /// Begins a tag with the first letter of its name.
    #[inline(always)]
    pub(crate) fn begin_tag(&mut self, kind: TagKind, ch: char) -> Result<(), AllocError>
        ensures { OnOk result (BeginsTag self.old kind ch self.new) }
    {
        self.tag.begin(kind, ch)?;
        self.state = State::Tag;
        Ok(())
    }

    /// Takes a character of a tag (`#tag-name-state`, and the states from `#before-attribute-name-state` on).
    pub(crate) fn in_tag<S: TokenSink>(
        &mut self,
        names: &mut Names,
        p: Placed,
        sink: &mut S,
    ) -> Answer
        requires { self.old.state ≡ State.Tag }
        ensures takes { TakesNextNamed (gives_item S.gives S.gives_token) self.old names.old p names.new sink.old result sink.new self.new }
        ensures grows { Grows names.old names.new }
    {
        if self
            .tag
            .take_char(self.table, names, p.ch, p.at, &mut self.raised.errors)?
        {
            self.end_tag(names, sink)
        } else {
            Ok(())
        }
    }

    /// Hands over the tag that has ended.
    #[inline(always)]
    pub(crate) fn end_tag<S: TokenSink>(&mut self, names: &mut Names, sink: &mut S) -> Answer
        ensures tag { EndsTag (gives_item S.gives S.gives_token) self.old names.new sink.old result self.new sink.new }
        ensures grows { Grows names.old names.new }
    {
        let name = names.intern(self.alloc, self.tag.name())?;
        match self.tag.kind() {
            TagKind::Start => self.end_start_tag(name, names, sink),
            TagKind::End => {
                self.keep_faults()?;
                let at = self.at;
                self.kind = RawKind::None;
                self.end_errors(sink)?;
                give_tag(Token::End { name, at }, names, sink)
            }
        }
    }

    /// Keeps the errors of an end tag that has attributes or a solidus. It drops them.
    #[inline(always)]
    fn keep_faults(&mut self) -> Answer
        ensures { MatchResult result (λ _. KeepsFaults self.old self.new) (λ refusal. refusal ≡ Refusal.Memory) }
    {
        let code = ErrorCode::EndTagWithAttributes;
        tell_if(self.tag.has_attributes(), code, self.at, &mut self.raised)?;
        let code = ErrorCode::EndTagWithTrailingSolidus;
        tell_if(self.tag.is_closing(), code, self.at, &mut self.raised)
    }

    /// Hands over a start tag of this name, unless it is left out of the profile.
    #[inline(always)]
    fn end_start_tag<S: TokenSink>(&mut self, name: NameId, names: &Names, sink: &mut S) -> Answer
        ensures { (text : List ℕ) (attrs : List (List ℕ × List ℕ))
            → EndsStartTag (gives_item S.gives S.gives_token) self.old names.now name text attrs sink.old result self.new sink.new }
    {
        let at = self.at;
        let tag = name.tag();
        if let Some(name) = tag.refused_name() {
            return Err(Refusal::OutOfProfile { name, at });
        }
        self.kind = tag.raw_kind();
        self.last = Some(name);
        self.script = Script::new();
        let closing = self.tag.is_closing();
        let attrs = self.tag.take_attributes();
        self.end_errors(sink)?;
        let mut token = Token::Start {
            name,
            attrs,
            closing,
            at,
        };
        let answer = sink.take_tag(&mut token, names);
        self.keep_memory(token);
        answer
    }

    /// Keeps the memory of a tag's attributes for those of the next.
    #[inline(always)]
    fn keep_memory(&mut self, token: Token)
        ensures others { self.new ≡ record self.old { tag = self.new.tag } }
        ensures name { self.new.tag.name ≡ self.old.tag.name }
    {
        if let Token::Start { attrs, .. } = token {
            self.tag.give_back(attrs);
        }
    }
}
