//! Runs of clean characters in a tag: its name, each attribute that stands whole, and the characters of other values at once, and all else a
//! character at a time.

ghost use Rattle.std.specs.Prelude.{◌≡◌, ◌≤◌, ◌<◌, ◌+◌, ℕ, List, [], false, length, true, IfOk, OnOk};
ghost use Rattle.std.specs.List.{list_all};
ghost use Rattle.std.specs.Str.{chars};
ghost use Rattle.htag.specs.Vocabulary.{Character, Entities, Grows, Texts, MAX_INPUT, is_clean, IsCut, IsValueRun, not_ended, TakesFront, TakesTagRun, IsInTag};

use crate::at_once::plain_value;
use crate::piece::Pending;
use crate::push::ends_name;
use crate::tag_state::TagState;
use crate::walk::TagWalk;
use charref::Table;
use htext::{quoted_run, unquoted_run, word_run};
use names::{Attr, Names, ParseError, Placed, Refusal};

impl<'t> TagWalk<'t> {
    /// Takes the characters of a run, the first of them at `at`, up to the end of the tag or of the run. Returns how many bytes they are, and
    /// whether the tag has ended. It is the same as taking them one by one.
    pub fn take_run(
        &mut self,
        table: &'t Table,
        names: &mut Names,
        run: &str,
        at: u64,
        errors: &mut Vec<ParseError>,
    ) -> Result<(usize, bool), Refusal>
        requires clean { list_all is_clean (chars run.now) ≡ true }
        requires within { at + length run.now ≤ MAX_INPUT }
        ensures cut { IfOk result (λ it. IsCut it.0 run.now) }
        ensures some { 0 < length run.now → IfOk result (λ it. 0 < it.0) }
        ensures takes { (body : List Character) → IsInTag table.now names.old self.old body [] errors.old.items
            → TakesTagRun table.now names.new body at run.now result self.new errors.new.items }
        ensures grows { Grows names.old names.new }
        ensures kind { OnOk result (self.new.kind ≡ self.old.kind) }
    {
        let mut count = 0;
        while count < run.len() {
            let (more, ended) = self.take_part(
                table,
                names,
                &run[count..],
                at + count as u64,
                errors,
            )?;
            count += more;
            if ended {
                return Ok((count, true));
            }
        }
        Ok((count, false))
    }

    /// Takes what stands whole at the front of a run, or else one character: between attributes most often one that ends a name, which needs
    /// no look at the state. Returns how many bytes they are, and whether the tag has ended.
    #[inline(always)]
    fn take_part(
        &mut self,
        table: &'t Table,
        names: &mut Names,
        run: &str,
        at: u64,
        errors: &mut Vec<ParseError>,
    ) -> Result<(usize, bool), Refusal>
        requires clean { list_all is_clean (chars run.now) ≡ true }
        requires some { 0 < length run.now }
        ensures front { TakesFront table.now names.old names.new at run.now self.old errors.old.items result self.new errors.new.items }
        ensures some { IfOk result (λ it. 0 < it.0) }
    {
        let count = self.take_whole(table, names, run, at, errors)?;
        if count > 0 {
            return Ok((count, false));
        }
        let first = char::from(run.as_bytes()[0]);
        if matches!(self.phase, TagState::BeforeAttributeName) && ends_name(first) {
            let ended = self.before_attribute_name(Placed { ch: first, at }, errors)?;
            return Ok((1, ended));
        }
        let ch = run.chars().next().unwrap();
        let ended = self.take_char(table, names, ch, at, errors)?;
        Ok((ch.len_utf8(), ended))
    }

    /// Takes what stands whole at the front of a run: the rest of the tag's name, or an attribute, that begins with a small letter, or
    /// characters of a value. Returns its length, or 0.
    #[inline(always)]
    fn take_whole(
        &mut self,
        table: &Table,
        names: &mut Names,
        run: &str,
        at: u64,
        errors: &mut Vec<ParseError>,
    ) -> Result<usize, Refusal>
        requires clean { list_all is_clean (chars run.now) ≡ true }
        requires some { 0 < length run.now }
        ensures { TakesFront table.now names.old names.new at run.now self.old errors.old.items (not_ended result) self.new errors.new.items }
    {
        let bytes = run.as_bytes();
        let is_small = bytes[0].is_ascii_lowercase();
        match self.phase {
            TagState::TagName if is_small => {
                let count = word_run(bytes);
                self.name.push_str(&run[..count])?;
                Ok(count)
            }
            TagState::BeforeAttributeName if is_small => self.whole_attribute(
                table, names, run, at, errors,
            ),
            TagState::AttributeValueQuoted(mark) => {
                if !mark.is_ascii() {
                    return Ok(0);
                }
                self.take_in_value(quoted_run(mark as u8, bytes), run)
            }
            TagState::AttributeValueUnquoted => self.take_in_value(unquoted_run(bytes), run),
            _ => Ok(0),
        }
    }

    /// Takes so many bytes of a run, which stand for themselves in a value. Returns their length, or 0 where a reference is being read.
    #[inline(never)]
    fn take_in_value(&mut self, count: usize, run: &str) -> Result<usize, Refusal>
        requires stands { IsValueRun self.old.phase run.now count }
        requires clean { list_all is_clean (chars run.now) ≡ true }
        ensures { (table : Entities) (names : Texts) (at : ℕ) (errors : List ParseError)
            → TakesFront table names names at run.now self.old errors (not_ended result) self.new errors }
    {
        if count == 0 || !matches!(self.value.reading, Pending::Nothing) {
            return Ok(0);
        }
        self.value.text.push_str(&run[..count])?;
        Ok(count)
    }

    /// Takes the attribute at the front of a run, if its name and value stand there whole and raise no errors. Returns its length, or 0.
    #[inline(always)]
    fn whole_attribute(
        &mut self,
        table: &Table,
        names: &mut Names,
        run: &str,
        at: u64,
        errors: &mut Vec<ParseError>,
    ) -> Result<usize, Refusal>
        requires before { self.old.phase ≡ TagState.BeforeAttributeName }
        requires clean { list_all is_clean (chars run.now) ≡ true }
        ensures { TakesFront table.now names.old names.new at run.now self.old errors.old.items (not_ended result) self.new errors.new.items }
    {
        let bytes = run.as_bytes();
        let length = word_run(bytes);
        if length == 0 {
            return Ok(0);
        }
        let Some(found) = plain_value(&bytes[length..]) else {
            return Ok(0);
        };
        let from = length + found.before;
        let to = from + found.value;
        let written = &run[from..to];
        if !self.value.read_value(table, found.plain, written)? {
            return Ok(0);
        }
        let name = names.intern(self.alloc, &run[..length])?;
        let value = self.value.value(found.plain, written);
        let attr = Attr::new(name, value, self.alloc)?;
        self.at = at;
        self.keep(attr, errors)?;
        Ok(to + found.after)
    }
}
