//! The characters of numeric references (HTML Standard, from `#numeric-character-reference-state` on).

ghost use Rattle.std.specs.Prelude.{◌≡◌, ◌+◌, ◌*◌, ◌≤◌, ◌<◌, true, false, min, MatchOption};
ghost use Rattle.charref.specs.Vocabulary.{numbered, number_fault, digit_value, is_alphanumeric, is_digit_of, radix};

use names::{ErrorCode, is_noncharacter};

/// The base in which a number is written.
#[derive(Clone, Copy)]
pub(crate) enum Base {
    Decimal,
    Hexadecimal,
}

/// One more than the greatest code point. Greater numbers mean the same, and are stored as this one.
pub(crate) const TOO_GREAT: u32 = 0x11_0000;

/// The value of each ASCII character as a hexadecimal digit; 16 for another letter, and 17 for what is neither. A table, since what is read
/// next cannot be foretold.
const DIGITS: [u8; 128] = [
    17, 17, 17, 17, 17, 17, 17, 17, 17, 17, 17, 17, 17, 17, 17, 17, 17, 17, 17, 17, 17, 17, 17, 17,
    17, 17, 17, 17, 17, 17, 17, 17, 17, 17, 17, 17, 17, 17, 17, 17, 17, 17, 17, 17, 17, 17, 17, 17,
    0, 1, 2, 3, 4, 5, 6, 7, 8, 9, 17, 17, 17, 17, 17, 17, 17, 10, 11, 12, 13, 14, 15, 16, 16, 16,
    16, 16, 16, 16, 16, 16, 16, 16, 16, 16, 16, 16, 16, 16, 16, 16, 16, 17, 17, 17, 17, 17, 17, 10,
    11, 12, 13, 14, 15, 16, 16, 16, 16, 16, 16, 16, 16, 16, 16, 16, 16, 16, 16, 16, 16, 16, 16, 16,
    16, 17, 17, 17, 17, 17,
];

/// Whether this is an ASCII letter or digit.
#[inline(always)]
#[tactic(auto, using(crate::proofs::Numbers::letter_or_digit, crate::proofs::Numbers::below_128))]
pub(crate) fn is_alphanumeric(byte: u8) -> bool
    ensures { result ≡ is_alphanumeric byte }
{
    if !byte.is_ascii() {
        return false;
    }
    DIGITS[usize::from(byte)] < 17
}

impl Base {
    fn radix(self) -> u32
        ensures { result ≡ radix self }
    {
        match self {
            Base::Decimal => 10,
            Base::Hexadecimal => 16,
        }
    }

    /// The value of a digit.
    #[inline(always)]
    pub(crate) fn digit(self, ch: char) -> Option<u32>
        ensures { MatchOption result (is_digit_of self ch ≡ false) (λ digit. (is_digit_of self ch ≡ true) × (digit ≡ digit_value ch) × (digit < 16)) }
    {
        if !ch.is_ascii() {
            return None;
        }
        let digit = u32::from(DIGITS[ch as usize]);
        if digit < self.radix() {
            Some(digit)
        } else {
            None
        }
    }

    /// The number with one more digit, at most `TOO_GREAT`.
    pub(crate) fn more(self, value: u32, digit: u32) -> u32
        requires value { value ≤ TOO_GREAT }
        requires digit { digit < 16 }
        ensures { result ≡ min (value * radix self + digit) TOO_GREAT }
    {
        (value * self.radix() + digit).min(TOO_GREAT)
    }
}

/// What each C1 control, from 80 on, is replaced with (`#numeric-character-reference-end-state`): some with themselves.
const C1_CONTROLS: [char; 32] = [
    '\u{20AC}', '\u{81}', '\u{201A}', '\u{192}', '\u{201E}', '\u{2026}', '\u{2020}', '\u{2021}',
    '\u{2C6}', '\u{2030}', '\u{160}', '\u{2039}', '\u{152}', '\u{8D}', '\u{17D}', '\u{8F}',
    '\u{90}', '\u{2018}', '\u{2019}', '\u{201C}', '\u{201D}', '\u{2022}', '\u{2013}', '\u{2014}',
    '\u{2DC}', '\u{2122}', '\u{161}', '\u{203A}', '\u{153}', '\u{9D}', '\u{17E}', '\u{178}',
];

/// The character that a number stands for (`#numeric-character-reference-end-state`).
pub(crate) fn numbered(value: u32) -> char
    ensures { result ≡ numbered value }
{
    match value {
        0 => char::REPLACEMENT_CHARACTER,
        0x80..=0x9F => C1_CONTROLS[value as usize - 0x80],
        _ => char::from_u32(value).unwrap_or(char::REPLACEMENT_CHARACTER),
    }
}

/// The parse error of a number, if it has one (`#numeric-character-reference-end-state`).
pub(crate) fn number_fault(value: u32) -> Option<ErrorCode>
    ensures { result ≡ number_fault value }
{
    if matches!(value, 0x20..=0x7E | 0xA0..=0xD7FF) {
        None
    } else if value == 0 {
        Some(ErrorCode::NullCharacterReference)
    } else if value > 0x10_FFFF {
        Some(ErrorCode::CharacterReferenceOutsideUnicodeRange)
    } else if matches!(value, 0xD800..=0xDFFF) {
        Some(ErrorCode::SurrogateCharacterReference)
    } else if is_noncharacter(value) {
        Some(ErrorCode::NoncharacterCharacterReference)
    } else if matches!(value, 1..=8 | 11 | 13..=31 | 0x7F..=0x9F) {
        Some(ErrorCode::ControlCharacterReference)
    } else {
        None
    }
}
