//! What stands whole in one run of the input: a tag without attributes, or an attribute.

ghost use Rattle.std.specs.Prelude.{◌≡◌, ◌<◌, ◌≤◌, ◌==◌, ◌+◌, IfSome, length, not, slice_index, true};
ghost use Rattle.std.specs.List.{prefix_len};
ghost use Rattle.htag.specs.Vocabulary.{is_quote, is_quoted_byte, IsBareName, IsTagName, IsPlainValue};

use crate::push::ends_name;
use htext::{quoted_run, unquoted_run, word_run};

/// The length of a tag's name at the front of a run, where it begins with a small letter and its characters stand for themselves; 0 where
/// something else is there.
#[inline(always)]
pub fn tag_name(run: &[u8]) -> usize
    ensures { 0 < result → IsTagName run.now result }
{
    let length = word_run(run);
    if length > 0 && run[0].is_ascii_lowercase() {
        return length;
    }
    0
}

/// The same where the `>` of the tag comes right after it.
#[inline(always)]
pub fn bare_name(run: &[u8]) -> usize
    ensures { 0 < result → IsBareName run.now result }
{
    let length = tag_name(run);
    if is_bare(run, length) && length > 0 {
        return length;
    }
    0
}

/// Whether the `>` of a tag comes after a name of this length.
#[inline(always)]
pub fn is_bare(run: &[u8], length: usize) -> bool
    ensures { result ≡ true → IsTagName run.now length → IsBareName run.now length }
{
    length < run.len() && run[length] == b'>'
}

/// What follows an attribute's name: the lengths of what is before its value (`=` and a quote, `=` alone, or nothing), of the value, and of
/// what is after it (the quote, or white space after a missing value); and whether no `&` is in the value.
#[derive(Clone, Copy)]
pub(crate) struct PlainValue {
    pub before: usize,
    pub value: usize,
    pub after: usize,
    pub plain: bool,
}

#[inline(always)]
fn value_of(before: usize, value: usize, after: usize, plain: bool) -> PlainValue
    ensures { result ≡ record { before = before; value = value; after = after; plain = plain } }
{
    PlainValue {
        before,
        value,
        after,
        plain,
    }
}

#[inline(never)]
fn before_quote(mark: u8, run: &[u8]) -> usize
    ensures counted { result ≡ prefix_len (λ byte. not (byte == mark)) run.now }
    ensures few { result ≤ length run.now }
{
    for (index, byte) in run.iter().enumerate() {
        if *byte == mark {
            return index;
        }
    }
    run.len()
}

#[inline(always)]
fn value_end(plain: usize, mark: u8, run: &[u8]) -> usize
    requires counted { plain ≡ prefix_len (is_quoted_byte mark) run.now }
    ensures counted { result ≡ prefix_len (λ byte. not (byte == mark)) run.now }
    ensures few { result ≤ length run.now }
{
    if plain < run.len() && run[plain] == mark {
        return plain;
    }
    before_quote(mark, run)
}

/// Attribute value (double-quoted) and (single-quoted) state (`#attribute-value-(double-quoted)-state`): a value after `=` and a quote,
/// where a character after the second quote ends the attribute.
#[inline(always)]
fn quoted_value(run: &[u8]) -> Option<PlainValue>
    requires long { 1 < length run.now }
    requires equals { slice_index run.now 0 ≡ 61 }
    requires quote { is_quote (slice_index run.now 1) ≡ true }
    ensures { IfSome result (IsPlainValue run.now) }
{
    let mark = run[1];
    let rest = &run[2..];
    let plain = quoted_run(mark, rest);
    let value = value_end(plain, mark, rest);
    if value + 1 < rest.len() && ends_name(char::from(rest[value + 1])) {
        return Some(value_of(2, value, 1, plain == value));
    }
    None
}

/// Attribute value (unquoted) state (`#attribute-value-(unquoted)-state`): the same of a value after `=` alone.
#[inline(always)]
fn unquoted_value(run: &[u8]) -> Option<PlainValue>
    requires long { 0 < length run.now }
    requires equals { slice_index run.now 0 ≡ 61 }
    ensures { IfSome result (IsPlainValue run.now) }
{
    let rest = &run[1..];
    let value = unquoted_run(rest);
    if value > 0
        && value < rest.len()
        && (rest[value] == b'>' || rest[value].is_ascii_whitespace())
    {
        return Some(value_of(1, value, 0, true));
    }
    None
}

/// A missing value: `/` or `>` comes in its place, or white space, after which another attribute may begin, but no value.
#[inline(always)]
fn missing_value(run: &[u8]) -> Option<PlainValue>
    requires { 0 < length run.now }
    ensures { IfSome result (IsPlainValue run.now) }
{
    let first = run[0];
    if first == b'/' || first == b'>' {
        return Some(value_of(0, 0, 0, true));
    }
    if first.is_ascii_whitespace() && run.len() > 1 {
        let next = run[1];
        if b'/' <= next && next <= b'z' && next != b'=' {
            return Some(value_of(0, 0, 1, true));
        }
    }
    None
}

/// After attribute name state (`#after-attribute-name-state`): what follows an attribute's name, where the value is plain or missing.
#[inline(always)]
pub(crate) fn plain_value(run: &[u8]) -> Option<PlainValue>
    ensures { IfSome result (IsPlainValue run.now) }
{
    if run.is_empty() {
        return None;
    }
    match run[0] {
        b'=' if run.len() > 1 && matches!(run[1], b'"' | b'\'') => quoted_value(run),
        b'=' => unquoted_value(run),
        _ => missing_value(run),
    }
}
