//! What takes the text of an input.

use names::{ErrorCode, ParseError, Refusal};

/// Takes the characters of a text, and the errors of the input stream, each right before its character. It may refuse one.
pub trait CharSink {
    ghost use Rattle.std.specs.Prelude.{◌≡◌, ◌+◌, ◌<◌, ◌≤◌, Result, length, true};
    ghost use Rattle.std.specs.List.{list_all};
    ghost use Rattle.std.specs.Str.{chars};
    ghost use Rattle.htext.specs.Vocabulary.{Hands, Refused, MAX_INPUT, CharItem, Character, InputError, items, bad_each, is_clean, run_items};

    /// A step of the sink: as it was, what it was handed, its answer, and as it is then.
    ghost gives: { Self → CharItem → Result (Unit {0}) Refused → Self → Type 0 };

    /// Takes a character whose first byte is at `at` (from 0).
    fn take_char(&mut self, ch: char, at: u64) -> Result<(), Refusal>
        requires { at < MAX_INPUT }
        ensures { gives self.old (Character (record { ch = ch; at = at })) result self.new };

    /// Takes an error of the input stream, at the place of the character that is handed over next.
    fn take_error(&mut self, error: ParseError) -> Result<(), Refusal>
        ensures { gives self.old (InputError error) result self.new };

    /// Takes a run of clean characters, the first byte of which is at `at`. It is the same as taking them one by one, up to the first that is refused.
    fn take_run(&mut self, run: &str, at: u64) -> Result<(), Refusal>
        requires clean { list_all is_clean (chars run.now) ≡ true }
        requires within { at + length run.now ≤ MAX_INPUT }
        ensures { Hands gives self.old (run_items at (chars run.now)) result self.new }
    {
        for (index, ch) in run.char_indices() {
            self.take_char(ch, at + index as u64)?;
        }
        Ok(())
    }

    /// Takes what replaces this many bad parts of one byte each, the first of which is at `at`. It is the same as taking the error and
    /// the character of one after another, up to the first that is refused.
    fn take_bad(&mut self, count: usize, at: u64) -> Result<(), Refusal>
        requires within { at + count ≤ MAX_INPUT }
        ensures { Hands gives self.old (items (bad_each at count)) result self.new }
    {
        let mut taken = 0;
        while taken < count {
            let place = at + taken as u64;
            self.take_error(ParseError {
                code: ErrorCode::ReplacedBytes,
                at: place,
            })?;
            self.take_char(char::REPLACEMENT_CHARACTER, place)?;
            taken += 1;
        }
        Ok(())
    }
}
