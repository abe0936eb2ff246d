//! How long the run of bytes of one kind at the front of a text is, counted 16 bytes at a time.

ghost use Rattle.std.specs.Prelude.{◌≡◌, ◌<◌, ◌≤◌, ◌↔◌, map, length, drop, IsTrue};
ghost use Rattle.std.specs.Int.{is_in_range};
ghost use Rattle.std.specs.List.{prefix_len};
ghost use Rattle.std.specs.Simd.Lanes.{mask_l};
ghost use Rattle.std.specs.Str.Lossy.{second_byte_min, second_byte_max};
ghost use Rattle.htext.specs.Vocabulary.{is_alphanumeric, AreBad, IsBadAlone, is_run_byte, is_not_of, is_quoted_byte, is_text_byte, is_word_byte, is_unquoted_byte, shares_no_bit};

use std::simd::prelude::*;

/// Which bytes make up a run.
#[derive(Clone, Copy)]
pub(crate) enum RunBytes {
    /// Those of tab, LF, FF, 20 to 7E, and U+00C0 to U+EFFF in UTF-8: most clean characters are of these.
    Clean,
    /// ASCII letters and digits.
    Alphanumeric,
    /// Small ASCII letters, digits, `-`, `.`, `:` and `_`.
    Word,
    /// All but white space, quotes, `&`, `<`, `=`, `>` and the grave accent.
    Unquoted,
    /// All but this one and `&`.
    Quoted(u8),
}

/// A set of bytes, by their low and high halves (four bits each): a byte is in it where the entries of its two halves share a bit, which
/// stands for some high halves.
#[derive(Clone, Copy)]
struct Halves {
    low: [u8; 16],
    high: [u8; 16],
}

/// The bytes of most clean characters (`RunBytes::Clean`). 1 stands for the high half 0, 2 for 2 to 6, 4 for 7, 8 for 8 to B and D, 16 for C,
/// and 32 for E.
const CLEAN: Halves = Halves {
    low: [
        46, 46, 46, 62, 62, 62, 62, 62, 62, 63, 63, 62, 63, 62, 62, 26,
    ],
    high: [1, 0, 2, 2, 2, 2, 2, 4, 8, 8, 8, 8, 16, 8, 32, 0],
};

/// ASCII letters and digits. 1 stands for the high half 3, 2 for 4 and 6, and 4 for 5 and 7.
const ALPHANUMERIC: Halves = Halves {
    low: [5, 7, 7, 7, 7, 7, 7, 7, 7, 7, 6, 2, 2, 2, 2, 2],
    high: [0, 0, 0, 1, 2, 4, 2, 4, 0, 0, 0, 0, 0, 0, 0, 0],
};

/// Small ASCII letters, digits, `-`, `.`, `:` and `_`. 1 stands for the high half 2, 2 for 3 and 7, 4 for 5, and 8 for 6.
const WORD: Halves = Halves {
    low: [2, 10, 10, 10, 10, 10, 10, 10, 10, 10, 10, 8, 8, 9, 9, 12],
    high: [0, 0, 1, 2, 0, 4, 8, 2, 0, 0, 0, 0, 0, 0, 0, 0],
};

/// All but white space, quotes, `&`, `<`, `=`, `>` and the grave accent. 1 stands for the high half 0, 2 for 2, 4 for 3, 8 for 6, and 16 for others.
const UNQUOTED: Halves = Halves {
    low: [
        21, 31, 29, 31, 31, 31, 29, 29, 31, 30, 30, 31, 26, 26, 27, 31,
    ],
    high: [1, 16, 2, 4, 16, 16, 8, 16, 16, 16, 16, 16, 16, 16, 16, 16],
};

/// Counts the bytes before the first `<` or `&`.
#[inline(always)]
pub fn text_run(bytes: &[u8]) -> usize
    ensures { result ≡ prefix_len is_text_byte bytes.now }
{
    run(RunBytes::Quoted(b'<'), bytes)
}

/// Counts the ASCII letters and digits before the first other byte.
#[inline(always)]
pub fn alphanumeric_run(bytes: &[u8]) -> usize
    ensures { result ≡ prefix_len is_alphanumeric bytes.now }
{
    run(RunBytes::Alphanumeric, bytes)
}

/// Counts the small ASCII letters, digits, `-`, `.`, `:` and `_` before the first other byte.
#[inline(always)]
pub fn word_run(bytes: &[u8]) -> usize
    ensures counted { result ≡ prefix_len is_word_byte bytes.now }
    ensures few { result ≤ length bytes.now }
{
    run(RunBytes::Word, bytes)
}

/// Counts the bytes before the first white space, quote, `&`, `<`, `=`, `>` or grave accent.
#[inline(always)]
pub fn unquoted_run(bytes: &[u8]) -> usize
    ensures counted { result ≡ prefix_len is_unquoted_byte bytes.now }
    ensures few { result ≤ length bytes.now }
{
    short_run(RunBytes::Unquoted, bytes)
}

/// Counts the bytes before the first `mark` or `&`.
#[inline(always)]
pub fn quoted_run(mark: u8, bytes: &[u8]) -> usize
    ensures counted { result ≡ prefix_len (is_quoted_byte mark) bytes.now }
    ensures few { result ≤ length bytes.now }
{
    short_run(RunBytes::Quoted(mark), bytes)
}

/// Counts the bytes at the front that are bad parts by themselves, up to this many.
pub(crate) fn bad_run(bytes: &[u8], most: usize) -> usize
    requires { most ≤ length bytes.now }
    ensures few { result ≤ most }
    ensures bad { AreBad result bytes.now }
    ensures all { result < most → IsBadAlone (drop result bytes.now) → ⊥ }
{
    let mut count = 0;
    while count < most && is_bad_alone(&bytes[count..]) {
        count += 1;
    }
    count
}

/// Whether the first byte is a bad part by itself, whatever follows: it begins no character, or the next byte can't be the second of one.
#[inline(always)]
fn is_bad_alone(bytes: &[u8]) -> bool
    requires { 0 < length bytes.now }
    ensures { IsTrue result ↔ IsBadAlone bytes.now }
{
    match bytes[0] {
        0x00..=0x7F => false,
        0xC2..=0xF4 => bytes.len() > 1 && !may_follow(bytes[0], bytes[1]),
        _ => true,
    }
}

/// Whether this byte may be the second of a character, after that first one (Unicode, table 3-7).
#[inline(always)]
fn may_follow(first: u8, second: u8) -> bool
    ensures { result ≡ is_in_range (second_byte_min first) (second_byte_max first) second }
{
    matches!(second, 0x80..=0xBF)
        && match first {
            0xE0 => second >= 0xA0,
            0xED => second < 0xA0,
            0xF0 => second >= 0x90,
            0xF4 => second < 0x90,
            _ => true,
        }
}

/// Counts the bytes at the front that may be in a run, a vector at a time.
#[inline(always)]
pub(crate) fn run(kind: RunBytes, bytes: &[u8]) -> usize
    ensures counted { result ≡ prefix_len (is_run_byte kind) bytes.now }
    ensures few { result ≤ length bytes.now }
{
    let mut count = 0;
    while bytes.len() - count >= 16 {
        let found = stops(kind, u8x16::from_slice(&bytes[count..]));
        if found != 0 {
            return count + found.trailing_zeros() as usize;
        }
        count += 16;
    }
    count + run_by_one(kind, &bytes[count..])
}

/// The same, quicker where there are 8 to 15 bytes, as at a value before the end of its tag: eight at once, and the others one by one.
#[inline(always)]
fn short_run(kind: RunBytes, bytes: &[u8]) -> usize
    ensures counted { result ≡ prefix_len (is_run_byte kind) bytes.now }
    ensures few { result ≤ length bytes.now }
{
    if bytes.len() < 8 || bytes.len() >= 16 {
        return run(kind, bytes);
    }
    let eight = u8x8::from_slice(bytes);
    let twice = eight.shuffle(
        eight,
        [0, 1, 2, 3, 4, 5, 6, 7, 8, 9, 10, 11, 12, 13, 14, 15],
    );
    let found = stops(kind, twice);
    if found != 0 {
        return found.trailing_zeros() as usize;
    }
    8 + run_by_one(kind, &bytes[8..])
}

#[inline(always)]
fn run_by_one(kind: RunBytes, bytes: &[u8]) -> usize
    ensures counted { result ≡ prefix_len (is_run_byte kind) bytes.now }
    ensures few { result ≤ length bytes.now }
{
    for (index, byte) in bytes.iter().enumerate() {
        if !is_in_run(kind, *byte) {
            return index;
        }
    }
    bytes.len()
}

/// Which of these bytes end a run: a bit for each, the lowest for the first.
#[inline(always)]
fn stops(kind: RunBytes, bytes: u8x16) -> u64
    ensures { result ≡ mask_l (map (is_not_of kind) bytes) }
{
    match kind {
        RunBytes::Clean => outside(CLEAN, bytes),
        RunBytes::Alphanumeric => outside(ALPHANUMERIC, bytes),
        RunBytes::Word => outside(WORD, bytes),
        RunBytes::Unquoted => outside(UNQUOTED, bytes),
        RunBytes::Quoted(mark) => {
            (bytes.simd_eq(u8x16::splat(mark)) | bytes.simd_eq(u8x16::splat(b'&'))).to_bitmask()
        }
    }
}

#[inline(always)]
fn outside(set: Halves, bytes: u8x16) -> u64
    ensures { result ≡ mask_l (map (shares_no_bit set) bytes) }
{
    let low = u8x16::from_array(set.low).swizzle_dyn(bytes & u8x16::splat(15));
    let high = u8x16::from_array(set.high).swizzle_dyn(bytes >> u8x16::splat(4));
    (low & high).simd_eq(u8x16::splat(0)).to_bitmask()
}

#[inline(always)]
fn is_in_run(kind: RunBytes, byte: u8) -> bool
    ensures { result ≡ is_run_byte kind byte }
{
    match kind {
        RunBytes::Clean => matches!(
            byte,
            b'\t' | b'\n' | 0x0C | b' '..=b'~' | 0x80..=0xBF | 0xC3..=0xEE
        ),
        RunBytes::Alphanumeric => byte.is_ascii_alphanumeric(),
        RunBytes::Word => {
            byte.is_ascii_lowercase() || matches!(byte, b'-' | b'.' | b'0'..=b':' | b'_')
        }
        RunBytes::Unquoted => {
            !matches!(byte, b'"' | b'&' | b'\'' | b'<' | b'=' | b'>' | b'`')
                && !byte.is_ascii_whitespace()
        }
        RunBytes::Quoted(mark) => byte != mark && byte != b'&',
    }
}
