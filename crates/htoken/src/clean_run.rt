//! Runs of clean characters, with their places.

ghost use Rattle.std.specs.Prelude.{◌≡◌, ◌≤◌, ◌<◌, ◌+◌, ◌++◌, List, true, drop, length, slice_index, take};
ghost use Rattle.htoken.specs.Vocabulary.{after_last, Character, chars, is_clean, IsCut, list_all, MAX_INPUT, placed};

use crate::tokenizer::after;
use names::Placed;

/// Clean characters of the input, the first byte of which is at `at`.
#[derive(Clone, Copy)]
pub(crate) struct Run<'r> {
    pub text: &'r str,
    pub at: u64,
    ghost clean: { list_all is_clean (chars text.now) ≡ true },
    ghost within: { at + length text.now ≤ MAX_INPUT },
}

impl<'r> Run<'r> {
    /// What comes after this many bytes of it.
    #[inline(always)]
    pub fn after(&self, count: usize) -> Run<'r>
        requires { IsCut count self.now.text.now }
        ensures text { result.text.now ≡ drop count self.now.text.now }
        ensures at { result.at ≡ self.now.at + count }
    {
        Run {
            text: &self.text[count..],
            at: self.at + count as u64,
        }
    }

    /// This many bytes of it.
    #[inline(always)]
    pub fn front(&self, count: usize) -> Run<'r>
        requires { IsCut count self.now.text.now }
        ensures text { result.text.now ≡ take count self.now.text.now }
        ensures at { result.at ≡ self.now.at }
    {
        Run {
            text: &self.text[..count],
            at: self.at,
        }
    }

    /// The character that is one byte there.
    #[inline(always)]
    pub fn at_byte(&self, index: usize) -> Placed
        requires { index < length self.now.text.now }
        ensures { result ≡ record { ch = slice_index self.now.text.now index; at = self.now.at + index } }
    {
        Placed {
            ch: char::from(self.text.as_bytes()[index]),
            at: self.at + index as u64,
        }
    }

    /// One more than the place of its last character.
    #[inline(always)]
    pub fn end(&self) -> u64
        requires { 0 < length self.now.text.now }
        ensures { (before : List Character) → result ≡ after_last (before ++ placed self.now.at (chars self.now.text.now)) }
    {
        match self.text.char_indices().next_back() {
            Some((index, _)) => after(self.at + index as u64),
            None => self.at,
        }
    }
}
