//! The text at the front of a run, and the `<` or `&` that ends it (HTML Standard, `#data-state` to `#plaintext-state` and
//! `#character-reference-state` to `#ambiguous-ampersand-state`).

ghost use Rattle.std.specs.Prelude.{◌≡◌, ◌<◌, ◌+◌, List, true, false, IfOk, IfSome, is_some, MatchResult, Err, drop, length, slice_index, take};
ghost use Rattle.htoken.specs.Vocabulary.{bare_errors, Character, chars, EndsFront, Entities, Error, Event, FeedsRun, first_placed, FollowsAll, gives_item, Hands, is_script, is_text_byte, IsBare, IsCut, IsWhole, Kind, placed, Reads, run_tokens, ShowsAmpersand, Takes, TakesOn, TellsText, Texts};

use crate::clean_run::Run;
use crate::hand::{give_piece, tell_unknown};
use crate::sink::TokenSink;
use crate::state::State;
use crate::text::allows_references;
use crate::tokenizer::{Answer, Taken, Tokenizer, after};
use charref::{Reference, Table, Walk};
use hmarkup::ErrorSink;
use htext::{alphanumeric_run, text_run};
use names::{RawKind, Refusal};

/// A whole reference, and how many bytes after its `&` show it. The last may be one that it leaves.
#[derive(Clone, Copy)]
pub(crate) struct WholeReference {
    pub found: Reference,
    pub size: usize,
}

/// How many bytes at the front of a run were read, and the whole reference that comes next, if the run shows one.
#[derive(Clone, Copy)]
pub(crate) struct Front {
    pub count: usize,
    pub next: Option<WholeReference>,
}

/// What the run after an `&` shows of it.
pub(crate) enum Ampersand {
    /// It is text: its length with the letters and digits after it.
    Text(usize),
    /// It begins a whole reference.
    Whole(WholeReference),
    /// The run does not show how it ends, or no references may be here.
    Open,
}

/// The front of a run, or a refusal.
pub(crate) type FrontRead = Result<Front, Refusal>;

/// Hands over the error of an `&` that is text, if it has one: it is of this length with the letters and digits after it.
#[inline(always)]
pub(crate) fn tell_bare<S: ErrorSink>(run: &str, size: usize, at: u64, sink: &mut S) -> Answer
    requires some { 0 < size }
    requires within { size < length run.now }
    ensures { (table : Entities) (kind : Kind) (is : IsBare table kind run.now size)
        → Hands S.gives sink.old (bare_errors is.letters is.next at) result sink.new }
{
    if size == 1 {
        return Ok(());
    }
    tell_unknown(char::from(run.as_bytes()[size]), at, sink)
}

/// What an `&` at the front of a run is, as far as the run shows it.
#[inline(always)]
pub(crate) fn at_ampersand(table: &Table, kind: RawKind, run: &str) -> Ampersand
    requires { 0 < length run.now }
    ensures { ShowsAmpersand table.now kind run.now result }
{
    let bytes = run.as_bytes();
    if bytes[0] != b'&' || bytes.len() < 2 || !allows_references(kind) {
        return Ampersand::Open;
    }
    let first = bytes[1];
    if !first.is_ascii() {
        return Ampersand::Open;
    }
    if !first.is_ascii_alphanumeric() && first != b'#' {
        return Ampersand::Text(1);
    }
    match Walk::settled(table, &bytes[1..]) {
        Some((found, _)) if found.is_ambiguous => {
            let size = 1 + alphanumeric_run(&bytes[1..]);
            if size < bytes.len() && bytes[size].is_ascii() {
                return Ampersand::Text(size);
            }
            Ampersand::Open
        }
        Some((found, size)) if found.left <= 1 => Ampersand::Whole(WholeReference { found, size }),
        _ => Ampersand::Open,
    }
}

impl<'t> Tokenizer<'t> {
    /// Takes the text at the front of a run where nothing is held, with the whole references in it as far as the sink takes them so, and what
    /// ends it: a `<`, or an `&`, and with it the whole reference if the run shows it. Returns the length.
    pub(crate) fn part_of_text<S: TokenSink>(&mut self, run: &Run, sink: &mut S) -> Taken
        requires text { self.old.state ≡ State.Text }
        requires some { 0 < length run.now.text.now }
        ensures takes { (names : Texts) → FeedsRun (gives_item S.gives S.gives_token) self.old names run.now.at run.now.text.now names sink.old result sink.new
            self.new }
        ensures few { IfOk result (λ count. (0 < count) × IsCut count run.now.text.now) }
    {
        let front = self.text_before(run, sink)?;
        self.give_text(&run.front(front.count), sink)?;
        if front.next.is_some() && sink.may_take_with_references() {
            return self.take_references(front, *run, sink);
        }
        self.take_end(&front, run, sink)
    }

    /// How many bytes at the front of a run are text: plain characters, and each `&` that is text, with the letters and digits after it.
    /// Hands over the errors of these.
    #[inline(always)]
    fn text_before<S: ErrorSink>(&self, run: &Run, sink: &mut S) -> FrontRead
        ensures front { MatchResult result
            (λ front. TellsText S.gives self.now.table.now self.now.kind run.now.text.now run.now.at front.count sink.old sink.new)
            (λ e. (errors : List Error) × Hands S.gives sink.old errors (Err e) sink.new) }
        ensures ends { IfOk result (λ front. front.count < length run.now.text.now → is_text_byte (slice_index run.now.text.now front.count) ≡ false) }
        ensures whole { IfOk result
            (λ front. IfSome front.next (λ it. IsWhole self.now.table.now self.now.kind (drop front.count run.now.text.now) it.found it.size)) }
    {
        let mut count = text_run(run.text.as_bytes());
        while count < run.text.len() {
            let rest = &run.text[count..];
            match at_ampersand(self.table, self.kind, rest) {
                Ampersand::Text(size) => {
                    tell_bare(rest, size, run.at + count as u64, sink)?;
                    count += size;
                    count += text_run((&run.text[count..]).as_bytes());
                }
                Ampersand::Whole(whole) => {
                    return Ok(Front {
                        count,
                        next: Some(whole),
                    });
                }
                Ampersand::Open => return Ok(Front { count, next: None }),
            }
        }
        Ok(Front { count, next: None })
    }

    /// Takes the whole reference after the front of a run, which has been taken, and what comes after it: as one text as far as the sink takes that.
    #[inline(never)]
    fn take_references<S: TokenSink>(&mut self, front: Front, run: Run, sink: &mut S) -> Taken
        requires text { self.old.state ≡ State.Text }
        requires some { is_some front.next ≡ true }
        requires ends { EndsFront self.old.table.now self.old.kind run.text.now front }
        ensures takes { TakesOn (gives_item S.gives S.gives_token) self.old run.entry.text.now run.entry.at front.count sink.old result sink.new self.new }
        ensures few { IfOk result (λ all. (0 < all) × IsCut all run.entry.text.now) }
    {
        let rest = run.after(front.count);
        let more = self
            .with_references
            .gather(self.table, self.kind, front.next, &rest)?;
        if self.with_references.give(rest.at, sink)? {
            let count = front.count + more.count;
            return self.take_end(&Front { count, ..more }, &run, sink);
        }
        self.take_end(&front, &run, sink)
    }

    /// Takes what comes after the front of a run, which has been taken: nothing, a `<`, or an `&`, and with it the whole reference if the run shows it.
    #[inline(always)]
    fn take_end<S: TokenSink>(&mut self, front: &Front, run: &Run, sink: &mut S) -> Taken
        requires text { self.old.state ≡ State.Text }
        requires some { 0 < length run.now.text.now }
        requires ends { EndsFront self.old.table.now self.old.kind run.now.text.now front.now }
        ensures takes { TakesOn (gives_item S.gives S.gives_token) self.old run.now.text.now run.now.at front.now.count sink.old result sink.new self.new }
        ensures few { IfOk result (λ all. (0 < all) × IsCut all run.now.text.now) }
    {
        let count = front.count;
        if count == run.text.len() {
            self.next = run.end();
            return Ok(count);
        }
        self.next = after(run.at + count as u64);
        if let Some(whole) = front.next {
            self.take_whole(&whole, &run.after(count), sink)?;
            return Ok(count + (whole.size + 1));
        }
        self.in_text(run.at_byte(count), sink)?;
        Ok(count + 1)
    }

    /// Gives the text at the front of a run, if there is any.
    #[inline(always)]
    fn give_text<S: TokenSink>(&mut self, front: &Run, sink: &mut S) -> Answer
        ensures handed { Hands S.gives_token sink.old (run_tokens (placed front.now.at (chars front.now.text.now))) result sink.new }
        ensures then { self.new ≡ record self.old { script = self.new.script } }
        ensures follows { is_script self.old.kind ≡ true → FollowsAll self.old.script (placed front.now.at (chars front.now.text.now)) self.new.script }
    {
        if front.text.is_empty() {
            return Ok(());
        }
        self.follow_run(front.text);
        sink.take_run(front.text, front.at)
    }

    /// Takes the whole reference at the front of a run, and after it the character that shows its end, if it leaves one.
    #[inline(always)]
    fn take_whole<S: TokenSink>(
        &mut self,
        whole: &WholeReference,
        run: &Run,
        sink: &mut S,
    ) -> Answer
        requires text { self.old.state ≡ State.Text }
        requires whole { IsWhole self.old.table.now self.old.kind run.now.text.now whole.now.found whole.now.size }
        ensures { (table : Entities) (start : Kind) (names : Texts) (text : List Character) (taken : List Event)
            → Reads table start self.old names text (first_placed run.now.at run.now.text.now) taken
            → Takes (gives_item S.gives S.gives_token) table start text (placed run.now.at (chars (take (whole.now.size + 1) run.now.text.now))) taken names
            sink.old result sink.new self.new }
    {
        self.next = after(run.at + whole.size as u64);
        give_piece(&whole.found, run.at, sink)?;
        if whole.found.left == 0 {
            return Ok(());
        }
        self.in_text(run.at_byte(whole.size), sink)
    }
}
