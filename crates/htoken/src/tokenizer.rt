//! Characters in, tokens out: a tokenizer, and which state takes a character (HTML Standard, `#tokenization`).

ghost use Rattle.std.specs.Prelude.{◌≡◌, ◌∷◌, List, [], Some, Err, IfErr};
ghost use Rattle.htoken.specs.Vocabulary.{after_place, Alone, Character, EndsSpan, Entities, Event, FeedsText, Finishes, from_of, gives_item, Grows, Hands, HasTaken, HoldsFrom, IsTable, items_of, Kind, Refused, start_kind, Takes, Texts};

use crate::hand::hand_errors;
use crate::script::Script;
use crate::sink::TokenSink;
use crate::state::{Raised, State};
use crate::token::{Start, Token};
use crate::with_references::TextWithReferences;
use charref::{Table, Walk};
use hmarkup::{CommentWalk, DoctypeWalk};
use htag::TagWalk;
use names::{NameId, Names, Placed, RawKind, Refusal};
use std::alloc::Global;

/// What a step answers: that it is done, or a refusal.
pub(crate) type Answer = Result<(), Refusal>;

/// How many bytes of a run were taken, or a refusal.
pub(crate) type Taken = Result<usize, Refusal>;

/// Cuts a text that comes character by character into tokens (HTML Standard, `#tokenization`). It keeps the unfinished span alone.
pub struct Tokenizer<'t> {
    pub(crate) alloc: Global,
    pub(crate) table: &'t Table,
    pub(crate) kind: RawKind,
    pub(crate) last: Option<NameId>,
    pub(crate) state: State,
    /// The place of the first character that is held, and one more than the last place fed.
    pub(crate) at: u64,
    pub(crate) next: u64,
    pub(crate) held: Vec<Placed>,
    pub(crate) comment: CommentWalk,
    pub(crate) doctype: DoctypeWalk,
    pub(crate) reference: Walk<'t>,
    pub(crate) tag: TagWalk<'t>,
    pub(crate) script: Script,
    pub(crate) raised: Raised,
    pub(crate) with_references: TextWithReferences,
    pub(crate) refused: Option<Refusal>,
}

// Written out: a derived drop is read anew in the proof of each function that may drop a tokenizer.
impl<'t> Drop for Tokenizer<'t> {
    fn drop(self) {
        let Tokenizer {
            alloc: _,
            table: _,
            kind: _,
            last: _,
            state: _,
            at: _,
            next: _,
            held,
            comment,
            doctype,
            reference: _,
            tag,
            script: _,
            raised,
            with_references,
            refused: _,
        } = self;
        drop(held);
        drop(comment);
        drop(doctype);
        drop(tag);
        drop(raised);
        drop(with_references);
    }
}

/// One more than the place of a character.
pub(crate) fn after(at: u64) -> u64
    ensures { result ≡ after_place at }
{
    at.saturating_add(1)
}

impl<'t> Tokenizer<'t> {
    /// A tokenizer of a text that begins so. References are those of the table.
    pub fn new(alloc: Global, table: &'t Table, start: Start) -> Tokenizer<'t>
        ensures table { IsTable table.now }
        ensures taken { (names : Texts) → HasTaken table.now (start_kind start) result names [] [] }
    {
        Tokenizer {
            alloc,
            table,
            kind: start.kind(),
            last: None,
            state: State::Text,
            at: 0,
            next: 0,
            held: Vec::new(alloc),
            comment: CommentWalk::bogus(alloc),
            doctype: DoctypeWalk::new(alloc),
            reference: Walk::new(table, false),
            tag: TagWalk::new(alloc),
            script: Script::new(),
            raised: Raised {
                errors: Vec::new(alloc),
            },
            with_references: TextWithReferences::new(alloc),
            refused: None,
        }
    }

    /// Takes the next character; `at` is its first byte. Every call is handed the same table of names, which may have grown in between, and places rise.
    pub fn feed_char<S: TokenSink>(
        &mut self,
        names: &mut Names,
        ch: char,
        at: u64,
        sink: &mut S,
    ) -> Result<(), Refusal>
        ensures takes { (table : Entities) (start : Kind) (before : Texts) (text : List Character) (taken : List Event) → Grows before names.old
            → HasTaken table start self.old before text taken
            → Takes (gives_item S.gives S.gives_token) table start text (record { ch = ch; at = at } ∷ []) taken names.new sink.old result sink.new
            self.new }
        ensures grows { Grows names.old names.new }

        // After a refusal every later call returns the same one, and hands over nothing.
        ensures refused { IfErr result (λ refusal. self.new.refused ≡ Some refusal) }
        ensures again { (refusal : Refused) → self.old.refused ≡ Some refusal → (result ≡ Err refusal) × (sink.new ≡ sink.old) × (names.new ≡ names.old) }
    {
        if let Some(refusal) = self.refused {
            return Err(refusal);
        }
        let answer = self.take(names, Placed { ch, at }, sink);
        if let Err(refusal) = answer {
            self.refused = Some(refusal);
        }
        answer
    }

    /// The place of the first character that is held back, or, where none is, one more than the last place fed. Whatever comes
    /// after, every token before it has been handed over.
    pub fn held_from(&self) -> u64
        ensures holds { (table : Entities) (start : Kind) (names : Texts) (text : List Character) (taken : List Event)
            → HasTaken table start self.now names text taken → HoldsFrom table start text taken result }
        ensures from { result ≡ from_of self.now.state self.now }
    {
        match self.state {
            State::Text => self.next,
            State::AmbiguousAmpersand => self.next,
            _ => self.at,
        }
    }

    /// Says that the input ends; `end` is its length. Nothing is known of a call after one that returned Ok.
    pub fn finish<S: TokenSink>(
        &mut self,
        names: &mut Names,
        end: u64,
        sink: &mut S,
    ) -> Result<(), Refusal>
        ensures finishes { (table : Entities) (start : Kind) (before : Texts) (text : List Character) (taken : List Event) → Grows before names.old
            → HasTaken table start self.old before text taken
            → Finishes (gives_item S.gives S.gives_token) table start end text taken names.new sink.old result sink.new }
        ensures grows { Grows names.old names.new }

        // After a refusal every later call returns the same one, and hands over nothing.
        ensures refused { IfErr result (λ refusal. self.new.refused ≡ Some refusal) }
        ensures again { (refusal : Refused) → self.old.refused ≡ Some refusal → (result ≡ Err refusal) × (sink.new ≡ sink.old) × (names.new ≡ names.old) }
    {
        if let Some(refusal) = self.refused {
            return Err(refusal);
        }
        let answer = self.end_text(names, end, sink);
        if let Err(refusal) = answer {
            self.refused = Some(refusal);
        }
        answer
    }

    /// Takes a character, by what is held.
    #[inline(always)]
    pub(crate) fn take<S: TokenSink>(
        &mut self,
        names: &mut Names,
        p: Placed,
        sink: &mut S,
    ) -> Answer
        ensures takes { FeedsText (gives_item S.gives S.gives_token) self.old names.old (p ∷ []) names.new sink.old result sink.new self.new }
        ensures grows { Grows names.old names.new }
    {
        self.next = after(p.at);
        match self.state {
            State::Text => self.in_text(p, sink),
            State::TagOpen => self.tag_open(p, sink),
            State::EndTagOpen(_) => self.end_tag_open(p, sink),
            State::MarkupDeclarationOpen(_) => self.markup_declaration_open(p, sink),
            State::Comment => self.in_comment(p, sink),
            State::Doctype => self.in_doctype(p, sink),
            State::Reference => self.in_reference(p, sink),
            State::AmbiguousAmpersand => self.in_ambiguous_ampersand(p, sink),
            State::Tag => self.in_tag(names, p, sink),
            State::RcdataLessThanSign => self.rcdata_less_than_sign(p, sink),
            State::RcdataEndTagName(solidus) => self.rcdata_end_tag_name(solidus, names, p, sink),
        }
    }

    /// Hands over the span that has ended: its errors, and then its token.
    #[inline(always)]
    pub(crate) fn end_span<S: TokenSink>(&mut self, token: Token, sink: &mut S) -> Answer
        ensures handed { Hands (gives_item S.gives S.gives_token) sink.old (items_of self.old.raised.errors.items (Some (Alone token))) result sink.new }
        ensures then { EndsSpan self.old self.new }
    {
        self.end_errors(sink)?;
        sink.take_token(token)
    }

    /// Hands over the errors of the span that has ended.
    #[inline(always)]
    pub(crate) fn end_errors<S: TokenSink>(&mut self, sink: &mut S) -> Answer
        ensures handed { Hands S.gives sink.old self.old.raised.errors.items result sink.new }
        ensures then { EndsSpan self.old self.new }
    {
        let answer = hand_errors(&self.raised.errors, sink);
        self.raised.errors.clear();
        self.state = State::Text;
        answer
    }
}
