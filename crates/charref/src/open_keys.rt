//! Open keys: the keys of the table of named character references without a `;`, with which longer keys begin, such as `&not` of
//! `&notin;`. Stored are the look-ups that have read them, by the first two letters of their names.

ghost use Rattle.std.specs.Prelude.{◌≡◌, ◌+◌, ◌<◌, length, get_or, slice_get, Some, IfOk, IfSome};
ghost use Rattle.charref.specs.Vocabulary.{All, AreEnds, Entry, IsOpenKey, IsOpenKeyOf, IsRange, IsSortedTable};

use crate::flat::Flat;
use crate::search::{Search, code_at};
use crate::walking::ends_in_semicolon;
use std::alloc::{AllocError, Global};

/// How many pairs of letters are told apart.
const PAIRS: usize = 64 * 64;

/// How many keys are tried for a name: in HTML's table no more than three keys without a `;` have the same first two letters.
const KEYS_TRIED: usize = 3;

/// How many codes there are (`code_at`): 0 for the end of a key, and for each byte one more than the byte.
const CODES: usize = 257;

/// An open key: the look-up that has read it, and for each code whether a key goes on with it.
#[derive(Clone, Copy)]
pub(crate) struct OpenKey {
    pub(crate) search: Search,
    pub(crate) goes_on: [bool; CODES],
}

/// The open keys, in the order of the table; and by the first two letters of a name, how many there are up to the last one of these letters.
#[derive(Drop)]
pub(crate) struct OpenKeys {
    pub(crate) read: Vec<OpenKey>,
    counts: Vec<u16>,
}

/// The number of a pair of letters or digits. Of letters, each pair has its own.
#[inline(always)]
fn pair_number(first: u8, second: u8) -> usize {
    usize::from(first % 64) * 64 + usize::from(second % 64)
}

/// Where the keys that begin with the key at this index end, by where those that begin with each later key do: with one that ends in a `;`
/// no other does. Over a table this compares no more bytes than all its keys have, twice: each key is found to begin with one other, the
/// longest that it begins with.
fn end_of(flat: &Flat, index: usize, ends: &[usize]) -> usize
    requires sorted { IsSortedTable flat.now }
    requires within { index < length flat.now }
    requires later { AreEnds flat.now (index + 1) ends.now }
    ensures { (e : Entry) → slice_get flat.now index ≡ Some e → IsRange flat.now e.key index result }
{
    let key = flat.key(index);
    let mut end = index + 1;
    if ends_in_semicolon(key) {
        return end;
    }
    while end < flat.len() && flat.key(end).starts_with(key) {
        end = ends[end];
    }
    end
}

/// The key at this index as an open key: a longer key begins with it. Keys that begin with a longer one go on with its code.
fn open_key(flat: &Flat, index: usize, ends: &[usize]) -> OpenKey
    requires sorted { IsSortedTable flat.now }
    requires within { index < length flat.now }
    requires ends { AreEnds flat.now 0 ends.now }
    requires longer { index + 1 < get_or ends.now index 0 }
    ensures { IsOpenKey flat.now result }
{
    let search = Search {
        depth: flat.key(index).len(),
        low: index,
        high: ends[index],
        best: Some(index),
    };
    let mut goes_on = [false; CODES];
    goes_on[0] = true;
    let mut next = index + 1;
    while next < search.high {
        goes_on[usize::from(code_at(flat.key(next), search.depth))] = true;
        next = ends[next];
    }
    OpenKey { search, goes_on }
}

impl OpenKeys {
    /// The keys of a table, or none, among which none is found.
    pub(crate) fn new(alloc: Global, flat: &Flat, indexed: bool) -> Result<OpenKeys, AllocError>
        requires { IsSortedTable flat.now }
        ensures { IfOk result (λ keys. All (IsOpenKey flat.now) keys.read.items) }
    {
        let mut keys = OpenKeys {
            read: Vec::new(alloc),
            counts: Vec::new(alloc),
        };
        if !indexed {
            return Ok(keys);
        }
        let mut ends = vec![in alloc; 0usize; flat.len()]?;
        let mut first = flat.len();
        while first > 0 {
            first -= 1;
            ends[first] = end_of(flat, first, &ends);
        }
        for index in 0..flat.len() {
            if ends[index] > index + 1 {
                keys.read.push(open_key(flat, index, &ends))?;
                keys.count(flat.key(index))?;
            }
        }
        Ok(keys)
    }

    /// Counts the last key, which is this one.
    fn count(&mut self, key: &[u8]) -> Result<(), AllocError>
        ensures { self.new.read ≡ self.old.read }
    {
        if self.counts.is_empty() {
            self.counts.resize(PAIRS, 0)?;
        }
        if let [_, first, second, ..] = key
            && let Some(slot) = self.counts.get_mut(pair_number(*first, *second))
            && let Ok(count) = u16::try_from(self.read.len())
        {
            *slot = count;
        }
        Ok(())
    }

    /// A key with which the text of an `&` and these bytes begins, if one is found: the longest where few keys have its first two letters.
    #[inline(always)]
    pub(crate) fn find(&self, flat: &Flat, bytes: &[u8]) -> Option<&OpenKey>
        requires { All (IsOpenKey flat.now) self.now.read.items }
        ensures { IfSome result (λ key. IsOpenKeyOf flat.now bytes.now key.now) }
    {
        let [first, second, ..] = bytes else {
            return None;
        };
        let count = usize::from(*self.counts.get(pair_number(*first, *second))?);
        for tried in 1..=KEYS_TRIED {
            let key = self.read.get(count.wrapping_sub(tried))?;
            if flat.opens(key.search.low, bytes) {
                return Some(key);
            }
        }
        None
    }
}
