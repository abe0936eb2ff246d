//! Text: data, RCDATA, RAWTEXT, script data and PLAINTEXT (HTML Standard, `#data-state` to `#plaintext-state`).

ghost use Rattle.std.specs.Prelude.{◌≡◌, ◌∷◌, ℕ, [], true, ◌&&◌, is_some};
ghost use Rattle.htoken.specs.Vocabulary.{Char, chars, ends_by, FollowsAll, Gives, gives_item, HandsEvents, has_references, is_raw, is_script, IsFollowed, level_number, placed, TakesNext, Texts};

use crate::hand::{give, give_faulty};
use crate::sink::TokenSink;
use crate::state::State;
use crate::tokenizer::{Answer, Tokenizer};
use names::{ErrorCode, Placed, RawKind};

/// Whether references may be in text of this kind.
pub(crate) fn allows_references(kind: RawKind) -> bool
    ensures { result ≡ has_references kind }
{
    matches!(kind, RawKind::None | RawKind::Rcdata)
}

impl<'t> Tokenizer<'t> {
    /// Takes a character where nothing is held.
    #[inline(always)]
    pub(crate) fn in_text<S: TokenSink>(&mut self, p: Placed, sink: &mut S) -> Answer
        requires { self.old.state ≡ State.Text }
        ensures { TakesNext (gives_item S.gives S.gives_token) self.old p sink.old result sink.new self.new }
    {
        match self.kind {
            RawKind::None => self.in_data(p, sink),
            RawKind::Rcdata | RawKind::Rawtext | RawKind::Script | RawKind::Plaintext => {
                self.in_raw(p, sink)
            }
        }
    }

    /// Takes a character in the data state (`#data-state`).
    #[inline(always)]
    pub(crate) fn in_data<S: TokenSink>(&mut self, p: Placed, sink: &mut S) -> Answer
        requires text { self.old.state ≡ State.Text }
        requires is_data { self.old.kind ≡ RawKind.None }
        ensures { TakesNext (gives_item S.gives S.gives_token) self.old p sink.old result sink.new self.new }
    {
        match p.ch {
            '<' => {
                self.state = State::TagOpen;
                self.at = p.at;
                Ok(())
            }
            '&' => Ok(self.begin_reference(p.at)),
            '\0' => give_faulty(ErrorCode::UnexpectedNullCharacter, p.at, p, sink),
            _ => give(p.ch, p.at, sink),
        }
    }

    /// Takes a character in the RCDATA, RAWTEXT, script data or PLAINTEXT state (`#rcdata-state`, `#rawtext-state`, `#script-data-state`,
    /// `#plaintext-state`).
    #[inline(never)]
    fn in_raw<S: TokenSink>(&mut self, p: Placed, sink: &mut S) -> Answer
        requires text { self.old.state ≡ State.Text }
        requires raw { is_raw self.old.kind ≡ true }
        ensures { TakesNext (gives_item S.gives S.gives_token) self.old p sink.old result sink.new self.new }
    {
        match p.ch {
            '<' if self.may_end() => {
                self.state = State::RcdataLessThanSign;
                self.at = p.at;
                Ok(())
            }
            '&' if allows_references(self.kind) => Ok(self.begin_reference(p.at)),
            '\0' => {
                self.follow(p.ch);
                let (ch, at) = (char::REPLACEMENT_CHARACTER, p.at);
                give_faulty(
                    ErrorCode::UnexpectedNullCharacter,
                    at,
                    Placed { ch, at },
                    sink,
                )
            }
            _ => self.give_raw(p, sink),
        }
    }

    /// Hands over a character of raw text, and follows the level of script data.
    pub(crate) fn give_raw<S: TokenSink>(&mut self, p: Placed, sink: &mut S) -> Answer
        ensures follows { IsFollowed self.old p.ch self.new }
        ensures handed { (names : Texts) → HandsEvents (gives_item S.gives S.gives_token) names sink.old (Gives (Char p.ch p.at) ∷ []) result sink.new }
    {
        self.follow(p.ch);
        give(p.ch, p.at, sink)
    }

    /// Follows the level of script data.
    pub(crate) fn follow(&mut self, ch: char)
        ensures { IsFollowed self.old ch self.new }
    {
        if self.is_in_script() {
            self.script = self.script.after(ch);
        }
    }

    /// The same for a run.
    #[inline(always)]
    pub(crate) fn follow_run(&mut self, run: &str)
        ensures then { self.new ≡ record self.old { script = self.new.script } }
        ensures follows { (at : ℕ) → is_script self.old.kind ≡ true → FollowsAll self.old.script (placed at (chars run.now)) self.new.script }
    {
        if self.is_in_script() {
            self.script = self.script.after_text(run);
        }
    }

    /// Whether script data is here.
    pub(crate) fn is_in_script(&self) -> bool
        ensures { result ≡ is_script self.now.kind }
    {
        matches!(self.kind, RawKind::Script)
    }

    /// Whether the end tag of the raw text may be here.
    fn may_end(&self) -> bool
        ensures { result ≡ (is_some self.now.last && ends_by self.now.kind (level_number self.now.script.level)) }
    {
        match self.kind {
            RawKind::Rcdata | RawKind::Rawtext => self.last.is_some(),
            RawKind::Script => self.last.is_some() && self.script.may_end(),
            RawKind::None | RawKind::Plaintext => false,
        }
    }
}
