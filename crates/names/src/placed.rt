//! Characters with their places.

ghost use Rattle.std.specs.Prelude.{◌≡◌};
ghost use Rattle.names.specs.Placed.{is_noncharacter};

/// A character of an input, and the byte offset of its first byte, from 0.
#[derive(Clone, Copy, Debug, PartialEq, Eq)]
pub struct Placed {
    pub ch: char,
    pub at: u64,
}

/// How many code points a plane has; the last two of each are noncharacters.
const PLANE: u32 = 0x1_0000;

const FIRST_OF_LAST_TWO: u32 = 0xFFFE;

/// Whether a code point is a noncharacter: U+FDD0 to U+FDEF, or one of the last two of a plane.
#[inline]
pub fn is_noncharacter(code: u32) -> bool
    ensures { result ≡ is_noncharacter code }
{
    (0xFDD0..=0xFDEF).contains(&code) || code % PLANE >= FIRST_OF_LAST_TWO
}
