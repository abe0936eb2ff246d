//! Runs of plain characters, taken as wholes where a state allows it.

ghost use Rattle.std.specs.Prelude.{◌≡◌, ◌≤◌, ◌<◌, ◌+◌, List, true, Some, Err, IfErr, IfOk, length};
ghost use Rattle.htoken.specs.Vocabulary.{Character, chars, Entities, Event, FeedsRun, FeedsText, gives_item, Grows, HasTaken, is_clean, is_only_data, IsCut, Kind, list_all, MAX_INPUT, placed, prefix_len, Refused, replacement_run, Takes, Texts};

use crate::clean_run::Run;
use crate::sink::TokenSink;
use crate::state::State;
use crate::tokenizer::{Answer, Taken, Tokenizer};
use names::{Names, Placed, Refusal};

/// How many bytes are before the first one that may end a comment, or is a fault in it.
fn count_data(run: &str) -> usize
    ensures counted { result ≡ prefix_len is_only_data run.now }
    ensures few { result ≤ length run.now }
{
    for (index, byte) in run.as_bytes().iter().enumerate() {
        if matches!(*byte, b'-' | b'!' | b'<' | b'>' | 0) {
            return index;
        }
    }
    run.len()
}

impl<'t> Tokenizer<'t> {
    /// Takes a run of clean characters, the first byte of which is at `at`. It is the same as feeding them one by one.
    pub fn feed_run<S: TokenSink>(
        &mut self,
        names: &mut Names,
        run: &str,
        at: u64,
        sink: &mut S,
    ) -> Result<(), Refusal>
        requires clean { list_all is_clean (chars run.now) ≡ true }
        requires within { at + length run.now ≤ MAX_INPUT }
        ensures takes { (table : Entities) (start : Kind) (before : Texts) (text : List Character) (taken : List Event) → Grows before names.old
            → HasTaken table start self.old before text taken
            → Takes (gives_item S.gives S.gives_token) table start text (placed at (chars run.now)) taken names.new sink.old result sink.new self.new }
        ensures grows { Grows names.old names.new }

        // After a refusal every later call returns the same one, and hands over nothing.
        ensures refused { IfErr result (λ refusal. self.new.refused ≡ Some refusal) }
        ensures again { (refusal : Refused) → self.old.refused ≡ Some refusal → (result ≡ Err refusal) × (sink.new ≡ sink.old) × (names.new ≡ names.old) }
    {
        if let Some(refusal) = self.refused {
            return Err(refusal);
        }
        let answer = self.take_parts(names, &Run { text: run, at }, sink);
        if let Err(refusal) = answer {
            self.refused = Some(refusal);
        }
        answer
    }

    /// Takes the characters that replace this many bad parts of one byte each, the first of which is at `at`. It is the same as feeding them one by one.
    pub fn feed_bad<S: TokenSink>(
        &mut self,
        names: &mut Names,
        count: usize,
        at: u64,
        sink: &mut S,
    ) -> Result<(), Refusal>
        requires within { at + count ≤ MAX_INPUT }
        ensures takes { (table : Entities) (start : Kind) (before : Texts) (text : List Character) (taken : List Event) → Grows before names.old
            → HasTaken table start self.old before text taken
            → Takes (gives_item S.gives S.gives_token) table start text (replacement_run at count) taken names.new sink.old result sink.new self.new }
        ensures grows { Grows names.old names.new }

        // After a refusal every later call returns the same one, and hands over nothing.
        ensures refused { IfErr result (λ refusal. self.new.refused ≡ Some refusal) }
        ensures again { (refusal : Refused) → self.old.refused ≡ Some refusal → (result ≡ Err refusal) × (sink.new ≡ sink.old) × (names.new ≡ names.old) }
    {
        if let Some(refusal) = self.refused {
            return Err(refusal);
        }
        if count == 0 || self.is_in_script() || !matches!(self.state, State::Text) {
            let mut fed = 0;
            while fed < count {
                self.feed_char(names, char::REPLACEMENT_CHARACTER, at + fed as u64, sink)?;
                fed += 1;
            }
            return Ok(());
        }
        self.next = at + count as u64;
        let answer = sink.take_bad(count, at);
        if let Err(refusal) = answer {
            self.refused = Some(refusal);
        }
        answer
    }

    /// Takes a run, a part after another.
    fn take_parts<S: TokenSink>(&mut self, names: &mut Names, run: &Run, sink: &mut S) -> Answer
        ensures takes { FeedsText (gives_item S.gives S.gives_token) self.old names.old (placed run.now.at (chars run.now.text.now)) names.new
            sink.old result sink.new self.new }
        ensures grows { Grows names.old names.new }
    {
        let mut count = 0;
        while count < run.text.len() {
            let more = self.take_part(names, &run.after(count), sink)?;
            count += more;
        }
        Ok(())
    }

    /// Takes a part of a run: where nothing is held, the text at its front, what ends that, and a whole tag without attributes or the name of another
    /// start tag; in a tag, all up to its end; in a comment or a doctype, what is only data; and else one character.
    #[inline(always)]
    fn take_part<S: TokenSink>(&mut self, names: &mut Names, run: &Run, sink: &mut S) -> Taken
        requires some { 0 < length run.now.text.now }
        ensures takes { FeedsRun (gives_item S.gives S.gives_token) self.old names.old run.now.at run.now.text.now names.new sink.old result sink.new self.new }
        ensures few { IfOk result (λ count. (0 < count) × IsCut count run.now.text.now) }
        ensures grows { Grows names.old names.new }
    {
        match self.state {
            State::Text => self.text_and_tag(names, run, sink),
            State::Tag => self.part_of_tag(names, run, sink),
            State::Comment => self.part_of_comment(names, run, sink),
            State::Doctype => self.part_of_doctype(names, run, sink),
            // With arms of their own, so that the state is not asked for again.
            State::TagOpen => self.one_of_run(names, run, sink),
            State::EndTagOpen(_) => self.one_of_run(names, run, sink),
            _ => self.one_of_run(names, run, sink),
        }
    }

    /// Takes the text at the front of a run and what ends it, and after a `<` also a whole tag without attributes, or the name of another start tag.
    #[inline(always)]
    fn text_and_tag<S: TokenSink>(&mut self, names: &mut Names, run: &Run, sink: &mut S) -> Taken
        requires text { self.old.state ≡ State.Text }
        requires some { 0 < length run.now.text.now }
        ensures takes { FeedsRun (gives_item S.gives S.gives_token) self.old names.old run.now.at run.now.text.now names.new sink.old result sink.new self.new }
        ensures few { IfOk result (λ count. (0 < count) × IsCut count run.now.text.now) }
        ensures grows { Grows names.old names.new }
    {
        let count = self.part_of_text(run, sink)?;
        if count == run.text.len() || !matches!(self.state, State::TagOpen) {
            return Ok(count);
        }
        let more = self.take_tag_open(names, &run.after(count), sink)?;
        Ok(count + more)
    }

    /// Takes the characters of a tag at the front of a run, up to its end.
    #[inline(always)]
    fn part_of_tag<S: TokenSink>(&mut self, names: &mut Names, run: &Run, sink: &mut S) -> Taken
        requires tag { self.old.state ≡ State.Tag }
        requires some { 0 < length run.now.text.now }
        ensures takes { FeedsRun (gives_item S.gives S.gives_token) self.old names.old run.now.at run.now.text.now names.new sink.old result sink.new self.new }
        ensures few { IfOk result (λ count. (0 < count) × IsCut count run.now.text.now) }
        ensures grows { Grows names.old names.new }
    {
        let (count, ended) = self.tag.take_run(
            self.table,
            names,
            run.text,
            run.at,
            &mut self.raised.errors,
        )?;
        self.next = run.front(count).end();
        if ended {
            self.end_tag(names, sink)?;
            return Ok(count);
        }
        Ok(count)
    }

    /// Takes the first character of a run.
    #[inline(always)]
    fn one_of_run<S: TokenSink>(&mut self, names: &mut Names, run: &Run, sink: &mut S) -> Taken
        requires some { 0 < length run.now.text.now }
        ensures takes { FeedsRun (gives_item S.gives S.gives_token) self.old names.old run.now.at run.now.text.now names.new sink.old result sink.new self.new }
        ensures few { IfOk result (λ count. (0 < count) × IsCut count run.now.text.now) }
        ensures grows { Grows names.old names.new }
    {
        let ch = run.text.chars().next().unwrap();
        self.take(names, Placed { ch, at: run.at }, sink)?;
        Ok(ch.len_utf8())
    }

    /// Takes the characters of a comment at the front of a run that are only data, or the first one.
    fn part_of_comment<S: TokenSink>(&mut self, names: &mut Names, run: &Run, sink: &mut S) -> Taken
        requires comment { self.old.state ≡ State.Comment }
        requires some { 0 < length run.now.text.now }
        ensures takes { FeedsRun (gives_item S.gives S.gives_token) self.old names.old run.now.at run.now.text.now names.new sink.old result sink.new self.new }
        ensures few { IfOk result (λ count. (0 < count) × IsCut count run.now.text.now) }
        ensures grows { Grows names.old names.new }
    {
        let count = count_data(run.text);
        if count == 0 {
            return self.one_of_run(names, run, sink);
        }
        let front = run.front(count);
        self.comment
            .take_run(front.text, front.at, &mut self.raised)?;
        self.next = front.end();
        Ok(count)
    }

    /// The same of a doctype.
    fn part_of_doctype<S: TokenSink>(&mut self, names: &mut Names, run: &Run, sink: &mut S) -> Taken
        requires doctype { self.old.state ≡ State.Doctype }
        requires some { 0 < length run.now.text.now }
        ensures takes { FeedsRun (gives_item S.gives S.gives_token) self.old names.old run.now.at run.now.text.now names.new sink.old result sink.new self.new }
        ensures few { IfOk result (λ count. (0 < count) × IsCut count run.now.text.now) }
        ensures grows { Grows names.old names.new }
    {
        let count = run
            .text
            .floor_char_boundary(self.doctype.data_run(run.text));
        if count == 0 {
            return self.one_of_run(names, run, sink);
        }
        let front = run.front(count);
        self.doctype.take_run(front.text)?;
        self.next = front.end();
        Ok(count)
    }
}
