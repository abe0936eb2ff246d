//! Looking up a key, byte by byte.

ghost use Rattle.std.specs.Prelude.{◌≡◌, ℕ, ◌+◌, ◌≤◌, ◌<◌, [], ◌∷◌, ◌++◌, ◌||◌, ◌==◌, List, true, false, length, IsNone, IfSome};
ghost use Rattle.charref.specs.Vocabulary.{is_alphanumeric, longest, code_at, best_entry, IsTable, IsRange, IsRising, IsParted, IsOver, EntryGoesOn, HasNone, SearchHasRead, has_read_key, is_search_within};

use crate::flat::Flat;
use crate::starts::starting;
use crate::table::Table;

/// The state of a look-up that has read `depth` bytes. The keys of the entries from `low` up to `high` begin with these
/// bytes, and the entry at `best` has the longest key that the bytes begin with.
#[derive(Clone, Copy)]
pub(crate) struct Search {
    pub(crate) depth: usize,
    pub(crate) low: usize,
    pub(crate) high: usize,
    pub(crate) best: Option<usize>,
}

/// The byte of a key at `depth`, plus 1; 0 past its end.
#[inline(always)]
pub(crate) fn code_at(key: &[u8], depth: usize) -> u16
    ensures few { result < 257 }
    ensures code { result ≡ code_at key.now depth }
{
    match key.get(depth) {
        Some(byte) => u16::from(*byte) + 1,
        None => 0,
    }
}

/// Of the entries from `low` up to `high`, the first whose key has at least this code at `depth`, or `high`.
#[tactic(auto, using(crate::proofs::Searching::parted_up, crate::proofs::Searching::parted_down))]
pub(crate) fn first_from(flat: &Flat, low: usize, high: usize, depth: usize, code: u16) -> usize
    requires ordered { low ≤ high }
    requires within { high ≤ length flat.now }
    ensures after { low ≤ result }
    ensures before { result ≤ high }
    ensures parted { IsRising flat.now low high depth
        → IsParted flat.now low result high depth code }
{
    let mut from = low;
    let mut to = high;
    while from < to {
        let middle = from + (to - from) / 2;
        if code_at(flat.key(middle), depth) < code {
            from = middle + 1;
        } else {
            to = middle;
        }
    }
    from
}

#[inline(always)]
fn is_in_names(ch: char) -> bool
    ensures { result ≡ (is_alphanumeric ch || ch == 59) }
{
    ch.is_ascii_alphanumeric() || ch == ';'
}

impl Search {
    /// A look-up that has read an `&`: every key begins with it, and no key is it alone.
    #[tactic(auto, using(crate::proofs::Searching::read_ampersand))]
    pub(crate) fn after_ampersand(table: &Table) -> Search
        ensures table { IsTable table.now }
        ensures read { SearchHasRead result table.now (38 ∷ []) }
        ensures within { is_search_within result (length table.now) ≡ true }
    {
        Search {
            depth: 1,
            low: 0,
            high: table.flat.len(),
            best: None,
        }
    }

    /// The range of the keys that go on with this byte: right after the `&`, by the index.
    #[inline(always)]
    fn range_with(&self, table: &Table, byte: u8) -> (usize, usize)
        requires within { is_search_within self.now (length table.now) ≡ true }
        requires ascii { byte < 128 }
        ensures within { (result.0 ≤ result.1) × (result.1 ≤ length table.now) }
        ensures range { (bytes : List ℕ) → SearchHasRead self.now table.now (38 ∷ bytes)
            → IsRange table.now (38 ∷ bytes ++ byte ∷ []) result.0 result.1 }
    {
        if self.depth == 1 {
            return starting(&table.starts, byte);
        }
        let code = u16::from(byte) + 1;
        let low = first_from(&table.flat, self.low, self.high, self.depth, code);
        let high = first_from(&table.flat, low, self.high, self.depth, code + 1);
        (low, high)
    }

    /// Whether some key begins with the bytes read and is longer: if any is, the last of the range is.
    #[inline(always)]
    pub(crate) fn goes_on(&self, table: &Table) -> bool
        requires { is_search_within self.now (length table.now) ≡ true }
        ensures table { IsTable table.now }
        ensures open { (bytes : List ℕ) → SearchHasRead self.now table.now bytes → result ≡ true
            → EntryGoesOn table.now bytes }
        ensures over { (bytes : List ℕ) → SearchHasRead self.now table.now bytes → result ≡ false
            → IsOver table.now bytes }
        ensures room { result ≡ true → self.now.depth < usize.MAX }
    {
        let flat = &table.flat;
        self.low < self.high && flat.key(self.high - 1).len() > self.depth
    }

    /// The look-up after one more character, if some key may begin with it.
    pub(crate) fn extended(&self, table: &Table, ch: char) -> Option<Search>
        requires { is_search_within self.now (length table.now) ≡ true }
        ensures within { IfSome result (λ next. is_search_within next (length table.now) ≡ true) }
        ensures read { IfSome result (λ next. (bytes : List ℕ) → SearchHasRead self.now table.now (38 ∷ bytes)
            → SearchHasRead next table.now (38 ∷ bytes ++ ch ∷ [])) }
        ensures none { IsNone result → (bytes : List ℕ) → SearchHasRead self.now table.now (38 ∷ bytes)
            → HasNone table.now (38 ∷ bytes ++ ch ∷ []) }
    {
        let flat = &table.flat;
        if !is_in_names(ch) || !self.goes_on(table) {
            return None;
        }
        let (low, high) = self.range_with(table, ch as u8);
        let depth = self.depth + 1;
        let best = if low < high && flat.key(low).len() == depth {
            Some(low)
        } else {
            self.best
        };
        Some(Search {
            depth,
            low,
            high,
            best,
        })
    }

    pub(crate) fn has_read_key(&self, table: &Table) -> bool
        requires within { IfSome self.now.best (λ k. k < length table.now) }
        ensures { result ≡ has_read_key table.now self.now }
    {
        match self.best {
            Some(best) => table.flat.key(best).len() == self.depth,
            None => false,
        }
    }
}

/// The index of the longest key that a text begins with.
#[tactic(auto, using(crate::proofs::Searching::none_elsewhere))]
pub(crate) fn search_for(table: &Table, text: &[u8]) -> Option<usize>
    ensures table { IsTable table.now }
    ensures within { IfSome result (λ k. k < length table.now) }
    ensures best { best_entry table.now result ≡ longest table.now text.now }
{
    let mut search = Search::after_ampersand(table);
    let [b'&', name @ ..] = text else {
        return None;
    };
    for byte in name {
        match search.extended(table, char::from(*byte)) {
            Some(next) => search = next,
            None => return search.best,
        }
    }
    search.best
}
