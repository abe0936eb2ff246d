//! Text with whole references in it, which a sink may take as one run (HTML Standard, `#character-reference-state` to
//! `#numeric-character-reference-end-state`).

ghost use Rattle.std.specs.Prelude.{◌≡◌, ◌≤◌, ◌<◌, ◌+◌, ℕ, List, true, false, IfOk, IfSome, MatchResult, drop, length, slice_index, IsUtf8};
ghost use Rattle.htoken.specs.Vocabulary.{AddsReferences, Character, characters_of, chars, EndsFront, Entities, gives_item, GivesTextWithReferences, is_clean, is_not_null, is_text_byte, IsBare, IsCut, IsGathered, IsTextWithReferences, IsWhole, Kind, list_all, MAX_INPUT, Texts};

use crate::clean_run::Run;
use crate::front::{Ampersand, Front, FrontRead, WholeReference, at_ampersand, tell_bare};
use crate::gathered_text::GatheredText;
use crate::hand::{hand_errors, tell_known};
use crate::sink::TokenSink;
use crate::state::Raised;
use crate::tokenizer::{Answer, Taken};
use charref::{Characters, Table};
use htext::text_run;
use names::{RawKind, Refusal};
use std::alloc::{AllocError, Global};

/// Characters of text, some of which stood as references, and the errors of these.
#[derive(Drop)]
pub(crate) struct TextWithReferences {
    pub text: GatheredText,
    pub raised: Raised,
}

/// Whether none of these characters is NUL.
#[inline(always)]
fn are_some(characters: Characters) -> bool
    ensures { result ≡ true → list_all is_not_null (characters_of characters) ≡ true }
{
    match characters {
        Characters::One(only) => only != '\0',
        Characters::Two(first, second) => first != '\0' && second != '\0',
    }
}

impl TextWithReferences {
    /// Nothing.
    pub(crate) fn new(alloc: Global) -> TextWithReferences {
        TextWithReferences {
            text: GatheredText::new(alloc),
            raised: Raised {
                errors: Vec::new(alloc),
            },
        }
    }

    /// Gathers what is at the front of a run, from the whole reference on that begins it: text, and whole references that do not stand for NUL.
    #[inline(never)]
    pub(crate) fn gather(
        &mut self,
        table: &Table,
        kind: RawKind,
        whole: Option<WholeReference>,
        run: &Run,
    ) -> FrontRead
        requires ends { EndsFront table.now kind run.now.text.now (record { count = 0; next = whole }) }
        ensures gathered { MatchResult result (λ front. IsGathered table.now kind run.now.text.now run.now.at front.count self.new) (λ e. e ≡ Refusal.Memory) }
        ensures ends { IfOk result (λ front. front.count < length run.now.text.now → is_text_byte (slice_index run.now.text.now front.count) ≡ false) }
        ensures whole { IfOk result (λ front. IfSome front.next (λ it. IsWhole table.now kind (drop front.count run.now.text.now) it.found it.size)) }
    {
        self.text.clear();
        self.raised.errors.clear();
        if let Some(first) = whole
            && are_some(first.found.characters)
        {
            let count = self.add_reference(&first, run.at)?;
            return self.gather_from(count, table, kind, run);
        }
        Ok(Front {
            count: 0,
            next: whole,
        })
    }

    /// Gathers on after this many bytes of a run, which are gathered.
    #[inline(always)]
    fn gather_from(&mut self, count: usize, table: &Table, kind: RawKind, run: &Run) -> FrontRead
        requires gathered { IsGathered table.now kind run.now.text.now run.now.at count self.old }
        ensures gathered { MatchResult result (λ front. IsGathered table.now kind run.now.text.now run.now.at front.count self.new) (λ e. e ≡ Refusal.Memory) }
        ensures ends { IfOk result (λ front. front.count < length run.now.text.now → is_text_byte (slice_index run.now.text.now front.count) ≡ false) }
        ensures whole { IfOk result (λ front. IfSome front.next (λ it. IsWhole table.now kind (drop front.count run.now.text.now) it.found it.size)) }
    {
        let mut count = count;
        loop {
            count += self.add_text(&run.text[count..])?;
            if count == run.text.len() {
                return Ok(Front { count, next: None });
            }
            let rest = &run.text[count..];
            match at_ampersand(table, kind, rest) {
                Ampersand::Text(size) => {
                    self.add_bare(rest, size, run.at + count as u64)?;
                    count += size;
                }
                Ampersand::Whole(whole) => {
                    if !are_some(whole.found.characters) {
                        return Ok(Front {
                            count,
                            next: Some(whole),
                        });
                    }
                    count += self.add_reference(&whole, run.at + count as u64)?;
                }
                Ampersand::Open => return Ok(Front { count, next: None }),
            }
        }
    }

    /// Adds a whole reference. Returns its length.
    #[inline(always)]
    fn add_reference(&mut self, whole: &WholeReference, at: u64) -> Taken
        requires some { list_all is_not_null (characters_of whole.now.found.characters) ≡ true }
        requires left { whole.now.found.left ≤ whole.now.size }
        requires within { whole.now.size < MAX_INPUT }
        ensures adds { (table : Entities) (kind : Kind) (run : List ℕ) → IsUtf8 run → IsWhole table kind run whole.now.found whole.now.size
            → MatchResult result (λ own. AddsReferences table kind run at own self.old self.new) (λ e. e ≡ Refusal.Memory) }
        ensures some { IfOk result (λ own. 0 < own) }
    {
        tell_known(&whole.found, at, &mut self.raised)?;
        self.text.push_characters(whole.found.characters)?;
        Ok(1 + whole.size - whole.found.left)
    }

    /// Adds the text at the front of a run. Returns its length.
    #[inline(always)]
    fn add_text(&mut self, run: &str) -> Result<usize, AllocError>
        requires clean { list_all is_clean (chars run.now) ≡ true }
        ensures adds { IfOk result (λ count. (table : Entities) (kind : Kind) (at : ℕ) → AddsReferences table kind run.now at count self.old self.new) }
        ensures ends { IfOk result (λ count. count < length run.now → is_text_byte (slice_index run.now count) ≡ false) }
    {
        let count = text_run(run.as_bytes());
        self.text.push_front(run, count)?;
        Ok(count)
    }

    /// Adds the `&` at the front of a run that is text, of this length with the letters and digits after it.
    #[inline(always)]
    fn add_bare(&mut self, run: &str, size: usize, at: u64) -> Answer
        requires clean { list_all is_clean (chars run.now) ≡ true }
        requires some { 0 < size }
        requires within { size < length run.now }
        requires cut { IsCut size run.now }
        ensures { (table : Entities) (kind : Kind) → IsBare table kind run.now size
            → MatchResult result (λ _. AddsReferences table kind run.now at size self.old self.new) (λ e. e ≡ Refusal.Memory) }
    {
        tell_bare(run, size, at, &mut self.raised)?;
        self.text.push_front(run, size)?;
        Ok(())
    }

    /// Hands over what was gathered, the first of which is at `at`, if the sink takes it as one run: then it returns true.
    #[inline(always)]
    pub(crate) fn give<S: TokenSink>(&self, at: u64, sink: &mut S) -> Result<bool, Refusal>
        requires some { list_all is_not_null (chars self.now.text) ≡ true }
        ensures { (names : Texts) (given : List Character) → IsTextWithReferences given self.now.text at
            → GivesTextWithReferences (gives_item S.gives S.gives_token) names given self.now.raised.errors.items sink.old result sink.new }
    {
        if !sink.take_with_references(self.text.as_str(), at)? {
            return Ok(false);
        }
        hand_errors(&self.raised.errors, sink)?;
        Ok(true)
    }
}
