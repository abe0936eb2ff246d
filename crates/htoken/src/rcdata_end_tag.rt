//! The end tag of raw text (HTML Standard, `#rcdata-less-than-sign-state` to `#script-data-end-tag-name-state`).

ghost use Rattle.std.specs.Prelude.{◌≡◌, List, slice_get, true, length, string_bytes};
ghost use Rattle.htoken.specs.Vocabulary.{backwards, Character, gives_item, Grows, HandsEvents, HasFront, held_in_raw, is_script, run_events, TakesNext, TakesNextNamed, Texts};

use crate::hand::{give, give_all};
use crate::markup_declaration_open::is_read_as;
use crate::script::ends_name;
use crate::sink::TokenSink;
use crate::state::State;
use crate::tokenizer::{Answer, Tokenizer};
use names::{Names, Placed};

impl<'t> Tokenizer<'t> {
    /// The RCDATA less-than sign state and its like, after `<` in raw text (`#rcdata-less-than-sign-state`,
    /// `#rawtext-less-than-sign-state`, `#script-data-less-than-sign-state`, `#script-data-escaped-less-than-sign-state`).
    pub(crate) fn rcdata_less_than_sign<S: TokenSink>(&mut self, p: Placed, sink: &mut S) -> Answer
        requires { self.old.state ≡ State.RcdataLessThanSign }
        ensures { TakesNext (gives_item S.gives S.gives_token) self.old p sink.old result sink.new self.new }
    {
        if p.ch == '/' {
            self.state = State::RcdataEndTagName(p.at);
            self.held.clear();
            return Ok(());
        }
        let at = self.at;
        self.state = State::Text;
        self.give_raw(Placed { ch: '<', at }, sink)?;
        self.in_text(p, sink)
    }

    /// The RCDATA end tag open and RCDATA end tag name states and their like: after `</` and letters of the last start tag's name, which
    /// make an appropriate end tag token (`#appropriate-end-tag-token`, `#rcdata-end-tag-open-state`, `#rcdata-end-tag-name-state`,
    /// `#rawtext-end-tag-open-state`, `#rawtext-end-tag-name-state`, `#script-data-end-tag-open-state`, `#script-data-end-tag-name-state`,
    /// `#script-data-escaped-end-tag-open-state`, `#script-data-escaped-end-tag-name-state`).
    pub(crate) fn rcdata_end_tag_name<S: TokenSink>(
        &mut self,
        solidus: u64,
        names: &mut Names,
        p: Placed,
        sink: &mut S,
    ) -> Answer
        requires { self.old.state ≡ State.RcdataEndTagName solidus }
        ensures takes { TakesNextNamed (gives_item S.gives S.gives_token) self.old names.old p names.new sink.old result sink.new self.new }
        ensures grows { Grows names.old names.new }
    {
        match self.expected() {
            Some(byte) if is_read_as(p.ch, byte, true) => Ok(self.held.push(p)?),
            None if ends_name(p.ch) => {
                self.tag.begin_end();
                self.state = State::Tag;
                self.in_tag(names, p, sink)
            }
            // It is no end tag.
            _ => {
                self.give_held(solidus, sink)?;
                self.in_text(p, sink)
            }
        }
    }

    /// What comes next in the name of the end tag, if anything is left of it.
    fn expected(&self) -> Option<u8>
        ensures { result ≡ slice_get (string_bytes self.now.tag.name) (length self.now.held.items) }
    {
        self.tag.name().as_bytes().get(self.held.len()).copied()
    }

    /// Hands over what is held in raw text as characters: it is no end tag.
    pub(crate) fn give_held<S: TokenSink>(&mut self, solidus: u64, sink: &mut S) -> Answer
        ensures handed { (names : Texts) → HandsEvents (gives_item S.gives S.gives_token) names sink.old (run_events (held_in_raw solidus self.old)) result
            sink.new }
        ensures then { self.new ≡ record self.old { state = State.Text; script = self.new.script } }
        ensures follows { (front : List Character) → is_script self.old.kind ≡ true → HasFront self.old.script front
            → HasFront self.new.script (backwards front (held_in_raw solidus self.old)) }
    {
        self.state = State::Text;
        self.script = self.script.after('<').after('/').after_all(&self.held);
        give('<', self.at, sink)?;
        give('/', solidus, sink)?;
        give_all(&self.held, sink)
    }
}
