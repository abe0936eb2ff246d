//! References in text, and the runs of alphanumerics after an `&` (HTML Standard, `#character-reference-state` to
//! `#numeric-character-reference-end-state`).

ghost use Rattle.std.specs.Prelude.{◌≡◌, ◌≤◌, ◌==◌, ◌∷◌, ◌+◌, ◌-◌, List, [], false, length};
ghost use Rattle.htoken.specs.Vocabulary.{BeginsReference, Character, Entities, Event, Finds, gives_item, HandsEvents, IsInAmbiguousAmpersand, Kind, read_events, Reads, Takes, TakesNext, Texts};

use crate::hand::{give, give_all, give_piece, tell_unknown};
use crate::sink::TokenSink;
use crate::state::State;
use crate::tokenizer::{Answer, Tokenizer};
use charref::{Reference, Walk};
use names::Placed;

impl<'t> Tokenizer<'t> {
    /// Begins a reference at an `&`.
    pub(crate) fn begin_reference(&mut self, at: u64)
        ensures { BeginsReference self.old at self.new }
    {
        self.state = State::Reference;
        self.at = at;
        self.held.clear();
        self.reference = Walk::new(self.table, false);
    }

    /// The character reference state and the states after it (`#character-reference-state`), after `&`. Of a number no characters are held.
    #[inline(always)]
    pub(crate) fn in_reference<S: TokenSink>(&mut self, p: Placed, sink: &mut S) -> Answer
        requires { self.old.state ≡ State.Reference }
        ensures { TakesNext (gives_item S.gives S.gives_token) self.old p sink.old result sink.new self.new }
    {
        match self.reference.take(p.ch) {
            Some(found) => self.end_reference(&found, p, sink),
            None if self.reference.is_number() => Ok(self.held.clear()),
            None => Ok(self.held.push(p)?),
        }
    }

    /// Ends the reference that this character has shown, and reads again what does not belong to it.
    #[inline(never)]
    fn end_reference<S: TokenSink>(&mut self, found: &Reference, p: Placed, sink: &mut S) -> Answer
        requires { self.old.state ≡ State.Reference }
        ensures { (table : Entities) (start : Kind) (names : Texts) (text : List Character) (taken : List Event)
            → Finds table self.old.reference p found.now
            → Reads table start self.old names text (p ∷ []) taken
            → Takes (gives_item S.gives S.gives_token) table start text (p ∷ []) taken names sink.old result sink.new self.new }
    {
        if found.is_ambiguous {
            self.state = State::AmbiguousAmpersand;
            self.give_reference(found, 1, sink)?;
            return self.in_ambiguous_ampersand(p, sink);
        }
        self.state = State::Text;
        if found.left == 0 {
            return give_piece(found, self.at, sink);
        }
        self.give_reference(found, 1, sink)?;
        self.in_text(p, sink)
    }

    /// Hands over a reference, and the held characters that do not belong to it: the last ones that it leaves, of which so many come after
    /// those that are held.
    #[inline(always)]
    pub(crate) fn give_reference<S: TokenSink>(
        &self,
        found: &Reference,
        more: usize,
        sink: &mut S,
    ) -> Answer
        requires { more ≤ 1 }
        ensures { (names : Texts) → HandsEvents (gives_item S.gives S.gives_token) names sink.old
            (read_events found.now self.now.at self.now.held.items (length self.now.held.items + more - found.now.left)) result sink.new }
    {
        give_piece(found, self.at, sink)?;
        let count = (self.held.len() + more).saturating_sub(found.left);
        give_all(&self.held[count.min(self.held.len())..], sink)
    }

    /// The ambiguous ampersand state (`#ambiguous-ampersand-state`), in the run of alphanumerics after an `&` that no key begins.
    #[inline(always)]
    pub(crate) fn in_ambiguous_ampersand<S: TokenSink>(&mut self, p: Placed, sink: &mut S) -> Answer
        requires { self.old.state ≡ State.AmbiguousAmpersand }
        ensures { (table : Entities) (start : Kind) (names : Texts) (text : List Character) (taken : List Event)
            → IsInAmbiguousAmpersand table start self.old names text (p ∷ []) taken
            → Takes (gives_item S.gives S.gives_token) table start text (p ∷ []) taken names sink.old result sink.new self.new }
    {
        if p.ch.is_ascii_alphanumeric() {
            return give(p.ch, p.at, sink);
        }
        self.state = State::Text;
        tell_unknown(p.ch, self.at, sink)?;
        self.in_text(p, sink)
    }
}
