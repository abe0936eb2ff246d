//! The line of an error, put together before it is written: one write is cheaper than four.

ghost use Rattle.std.specs.Prelude.{◌≡◌};
ghost use Rattle.hserialize.specs.Vocabulary.{error_line, IsLine, PutsTo};

use crate::target::Target;
use crate::writer::{Answer, Writer, put};
use itoa::write_digits;
use names::{ErrorCode, ParseError};

/// The most digits of an error's place.
const DIGITS: usize = 20;

/// The most bytes of an error's line: the digits, a space, the longest text and the end.
const LINE: usize = DIGITS + 1 + 64 + 1;

/// The line of an error, kept for the next one: most are of the kind of the one before, and need new digits alone.
#[derive(Drop)]
pub(crate) struct ErrorLine {
    /// From [`DIGITS`] on a space, the text of the kind and the end of the line.
    bytes: [u8; LINE],
    /// Where the line ends.
    end: usize,
    code: ErrorCode,
}

impl ErrorLine {
    /// The line of an error of this kind, but for its place.
    pub(crate) fn of(code: ErrorCode) -> Self
        ensures line { IsLine result }
        ensures code { result.code ≡ code }
    {
        let text = code.text().as_bytes();
        let after = DIGITS + 1 + text.len();
        let mut bytes = [b'\n'; LINE];
        bytes[DIGITS] = b' ';
        bytes[DIGITS + 1..after].copy_from_slice(text);
        ErrorLine {
            bytes,
            end: after + 1,
            code,
        }
    }

    #[inline(always)]
    fn turn_to(&mut self, code: ErrorCode)
        requires { IsLine self.old }
        ensures line { IsLine self.new }
        ensures code { self.new.code ≡ code }
    {
        if self.code != code {
            *self = ErrorLine::of(code);
        }
    }

    /// Writes the line of an error.
    #[inline(always)]
    pub(crate) fn put<W: Target>(&mut self, out: &mut Writer<W>, error: &ParseError) -> Answer
        requires { IsLine self.old }
        ensures text { PutsTo W.written W.failed out.old out.new (error_line error.now) result }
        ensures line { IsLine self.new }
    {
        self.turn_to(error.code);
        let start = write_digits(error.at, &mut self.bytes, DIGITS);
        put(out, &self.bytes[start..self.end])
    }
}
