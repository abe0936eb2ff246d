//! What the bytes after an `&` settle of it, outside an attribute value.

ghost use Rattle.std.specs.Prelude.{◌≡◌, ◌<◌, ◌≤◌, ℕ, List, true, false, length, take, IfSome, IsNone, MatchOption};
ghost use Rattle.charref.specs.Vocabulary.{is_ascii, list_all, Entities, Placed, placed, IsTable, IsRead, number_reference, HasSign, HasWhole, Settles, SettlesNothing};

use crate::last::Last;
use crate::number::{Base, is_alphanumeric};
use crate::reference::Reference;
use crate::slots::is_whole;
use crate::starts::starting;
use crate::table::Table;
use crate::walk::Walk;
use crate::walking::{decided, number, unknown};

impl<'t> Walk<'t> {
    /// What is at an `&` outside an attribute value after which these bytes come, and how many of them settle it, whatever comes
    /// after them; `None` where they settle nothing, as also where a character that is not ASCII comes before they do. At once
    /// where it is a key that ends in a `;`, or an `&` before a letter or digit with which no key begins.
    #[inline(always)]
    pub fn settled(table: &Table, bytes: &[u8]) -> Option<(Reference, usize)>
        ensures table { IsTable table.now }
        ensures few { IfSome result (λ it. (0 < it.1) × (it.1 ≤ length bytes.now)) }
        ensures ascii { IfSome result (λ it. list_all is_ascii (take it.1 bytes.now) ≡ true) }
        ensures read { IfSome result (λ it. (at : ℕ) (after : List Placed)
            → IsRead table.now false (placed at (take it.1 bytes.now)) after it.0) }
        ensures none { IsNone result → SettlesNothing table.now bytes.now }
    {
        let starts = &table.starts;
        if let [b'#', ..] = bytes {
            let (value, count) = whole_number(bytes);
            if count > 0 {
                return Some((number(value, 0, false), count));
            }
        }
        if let Some(first) = bytes.first()
            && first.is_ascii()
        {
            let (low, high) = starting(starts, *first);
            if low < high {
                if let Some(index) = whole_index(table, low, high, bytes) {
                    return Some(whole_key(table, index));
                }
            } else if is_alphanumeric(*first) {
                return Some((unknown(1, Last::Alphanumeric), 1));
            }
        }
        // (taken apart and put together again: so the result comes back in registers, and not through memory)
        match settled_otherwise(table, bytes) {
            Some((found, count)) => Some((found, count)),
            None => None,
        }
    }
}

/// The index of a key that ends in a `;` and with all of which, after its `&`, these bytes begin, if one is found at once: the
/// only one of this range, or by its hash. No longer key begins with it, so nothing that comes after it matters.
#[inline(never)]
fn whole_index(table: &Table, low: usize, high: usize, bytes: &[u8]) -> Option<usize>
    requires { (low < high) × (high ≤ length table.now) }
    ensures { IfSome result (HasWhole table.now bytes.now) }
{
    if high - low != 1 {
        return table.slots.index_of(&table.flat, bytes);
    }
    if is_whole(&table.flat, low, bytes) {
        Some(low)
    } else {
        None
    }
}

/// What is at an `&` before these bytes, and how many of them settle it: a key without a `;`, or what the steps of a walk give.
#[inline(never)]
fn settled_otherwise(table: &Table, bytes: &[u8]) -> Option<(Reference, usize)>
    ensures { MatchOption result (SettlesNothing table.now bytes.now) (λ it. Settles table.now bytes.now it.1 it.0) }
{
    match settled_by_key(table, bytes) {
        Some(it) => Some(it),
        None => settled_by_steps(table, bytes),
    }
}

/// What is at an `&` before these bytes, and how many of them settle it, if they begin with a key without a `;` and the next of them with no longer one.
#[inline(always)]
fn settled_by_key(table: &Table, bytes: &[u8]) -> Option<(Reference, usize)>
    ensures { IfSome result (λ it. Settles table.now bytes.now it.1 it.0) }
{
    let key = table.open_keys.find(&table.flat, bytes)?;
    let search = key.search;
    let count = search.depth - 1;
    let byte = *bytes.get(count)?;
    if !byte.is_ascii() || key.goes_on[usize::from(byte) + 1] {
        return None;
    }
    let last = Last::of(char::from(byte));
    Some((
        decided(table, false, search.best, search.depth, last),
        count + 1,
    ))
}

/// The reference that the key at this index is, which ends in a `;`, and how many bytes of it come after the `&`.
#[inline(always)]
fn whole_key(table: &Table, index: usize) -> (Reference, usize)
    requires { index < length table.now }
    ensures { (bytes : List ℕ) → HasWhole table.now bytes index → Settles table.now bytes result.1 result.0 }
{
    let found = Reference {
        characters: table.flat.characters(index),
        left: 0,
        missing_semicolon: false,
        fault: None,
        is_ambiguous: false,
    };
    (found, table.flat.key(index).len() - 1)
}

/// What is at the `&` before these bytes, and how many of them settle it, by the steps of a walk.
fn settled_by_steps(table: &Table, bytes: &[u8]) -> Option<(Reference, usize)>
    ensures table { IsTable table.now }
    ensures settles { MatchOption result (SettlesNothing table.now bytes.now) (λ it. Settles table.now bytes.now it.1 it.0) }
{
    let mut walk = Walk::new(table, false);
    let mut count = 0;
    while count < bytes.len() && bytes[count].is_ascii() {
        if let Some(found) = walk.take(char::from(bytes[count])) {
            return Some((found, count + 1));
        }
        count += 1;
    }
    None
}

/// The number after the `#` at the front of these bytes, where a `;` ends it, and how many of them are its own; else 0 of them.
#[inline(never)]
fn whole_number(bytes: &[u8]) -> (u32, usize)
    requires { HasSign Base.Decimal bytes.now 1 }
    ensures { 0 < result.1 → (table : Entities) → Settles table bytes.now result.1 (number_reference result.0 0 false) }
{
    let (base, start) = match bytes {
        [_, b'x' | b'X', ..] => (Base::Hexadecimal, 2),
        _ => (Base::Decimal, 1),
    };
    let mut value = 0;
    let mut count = start;
    while count < bytes.len() {
        let ch = char::from(bytes[count]);
        let Some(digit) = base.digit(ch) else {
            break;
        };
        value = base.more(value, digit);
        count += 1;
    }
    if count == start || count == bytes.len() || bytes[count] != b';' {
        return (0, 0);
    }
    (value, count + 1)
}
