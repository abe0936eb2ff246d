//! Values that are read at once: characters that stand for themselves, and references that raise no errors (HTML Standard,
//! `#attribute-value-(double-quoted)-state` to `#attribute-value-(unquoted)-state`).

ghost use Rattle.std.specs.Prelude.{◌≡◌, ◌<◌, [], IfOk, length, string_bytes, true, if◌then◌else◌};
ghost use Rattle.std.specs.List.{list_all};
ghost use Rattle.std.specs.Str.{chars};
ghost use Rattle.htag.specs.Vocabulary.{is_clean, is_no_reference, IsQuietFront};

use crate::piece::ValueWalk;
use charref::{Table, Walk};
use htext::quoted_run;
use std::alloc::AllocError;

impl<'t> ValueWalk<'t> {
    /// Reads a value that is written so, if it raises no error and each reference in it is settled; `plain` says that no `&` is in it.
    #[inline(always)]
    pub(crate) fn read_value(
        &mut self,
        table: &Table,
        plain: bool,
        run: &str,
    ) -> Result<bool, AllocError>
        requires plain { plain ≡ true → list_all is_no_reference run.now ≡ true }
        requires clean { list_all is_clean (chars run.now) ≡ true }
        ensures { IfOk result (λ whole. whole ≡ true → IsQuietFront table.now run.now (length run.now) []
            (if plain then run.now else string_bytes self.new.text)) }
    {
        if plain {
            return Ok(true);
        }
        self.read_quiet(table, run)
    }

    #[inline(always)]
    pub(crate) fn value<'a>(&'a self, plain: bool, run: &'a str) -> &'a str
        ensures { result.now ≡ (if plain then run.now else string_bytes self.now.text) }
    {
        if plain { run } else { &self.text }
    }

    /// Reads a value at once; returns false where a reference is not settled, or there is an error: then what is in `text` means nothing.
    #[inline(never)]
    fn read_quiet(&mut self, table: &Table, run: &str) -> Result<bool, AllocError>
        requires clean { list_all is_clean (chars run.now) ≡ true }
        ensures { IfOk result (λ whole. whole ≡ true → IsQuietFront table.now run.now (length run.now) [] (string_bytes self.new.text)) }
    {
        self.text.clear();
        let mut count = 0;
        while count < run.len() {
            let more = self.read_front(table, &run[count..])?;
            if more == 0 {
                return Ok(false);
            }
            count += more;
        }
        Ok(true)
    }

    /// Reads the characters up to the first `&`, or the reference at it, or an `&` that is text. Returns the length, or 0 where the bytes after
    /// it do not settle it, or it raises an error.
    #[inline(always)]
    fn read_front(&mut self, table: &Table, run: &str) -> Result<usize, AllocError>
        requires some { 0 < length run.now }
        requires clean { list_all is_clean (chars run.now) ≡ true }
        ensures { IfOk result (λ count. 0 < count → IsQuietFront table.now run.now count (string_bytes self.old.text) (string_bytes self.new.text)) }
    {
        let bytes = run.as_bytes();
        let count = quoted_run(b'&', bytes);
        if count > 0 {
            self.text.push_str(&run[..count])?;
            return Ok(count);
        }
        let Some((found, seen)) = Walk::settled(table, &bytes[1..]) else {
            return Ok(0);
        };
        if found.missing_semicolon || found.fault.is_some() || found.is_ambiguous {
            return Ok(0);
        }
        found.characters.push_to(&mut self.text)?;
        Ok(1 + seen - found.left)
    }
}
