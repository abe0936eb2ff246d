//! Lists of numbers.

ghost use Rattle.std.specs.Prelude.{◌≡◌, ◌≢◌, ◌==◌, ℕ, ◌<◌, ◌≤◌, ◌+◌, ◌-◌, ◌*◌, ◌^◌, max, ◌++◌, OnOk, OnErr, [], ◌∷◌, drop, filter, if◌then◌else◌, length};
ghost use Rattle.std.specs.Prelude.{ltb, not, slice_get, slice_index, take, true};
ghost use Rattle.hnodes.specs.IndexedList.{last_up, none};
ghost use Rattle.hnodes.specs.IndexLinks.{IndexedTo, IsIndexed, Keep, befores_of, group_of, in_group_of, numbers_of};

use std::alloc::{AllocError, Global};
use std::marker::Model;

/// The number that stands where nothing is: no question finds it.
pub const NONE: usize = 1;

/// A number, and the nearest ordinal before it where a number of its group is. Ordinals count from 1; 0 is none.
#[derive(Clone, Copy, Debug)]
pub(crate) struct Link {
    pub(crate) number: u64,
    pub(crate) before: u32,
    /// Where the next number of its group is looked for first; it may be out of date.
    pub(crate) hint: u32,
}

/// A list of numbers.
///
/// Numbers that end in the same bits are a group, and there are more groups than numbers. A question walks the group of a
/// number; an edit of one number updates what keeps its ordinal. A number takes 16 bytes, and a group 4.
#[derive(Debug, Drop)]
pub struct IndexedList {
    pub(crate) links: Vec<Link>,
    /// For each group its last ordinal; 0 if none of it is in the list.
    pub(crate) last: Vec<u32>,
    alloc: Global,
}

impl Model for IndexedList {
    ghost use Rattle.std.specs.Prelude.{ℕ, List};
    ghost use Rattle.hnodes.specs.IndexLinks.{AreIndexed, numbers_of};

    ghost Value = { List ℕ };

    ghost view = { λ c. numbers_of c.links.items };

    ghost invariant = { λ c. AreIndexed c.last.items c.links.items };
}

/// The group of a number, of so many: they are a power of two, or some would stay empty.
#[inline(always)]
pub(crate) fn group_of(number: usize, width: usize) -> usize
    requires { 0 < width }
    ensures group { result ≡ group_of number width }
    ensures within { result < width }
{
    number & (width - 1)
}

/// Walks down a group from one of its ordinals to where a number of the group is; 0 if it is nowhere on the way.
fn find_down(links: &[Link], from: usize, number: usize) -> usize
    requires within { from ≤ length links.now }
    requires group { (width : ℕ) × Keep width (numbers_of links.now) (befores_of links.now)
        × (0 < from → in_group_of width number (slice_index (numbers_of links.now) (from - 1)) ≡ true) }
    requires number { number ≢ none }
    ensures { result ≡ last_up (λ k. k == number) (numbers_of links.now) from }
{
    let mut ordinal = from;
    while ordinal > 0 {
        let link = links[ordinal - 1];
        if link.number as usize == number {
            return ordinal;
        }
        ordinal = link.before as usize;
    }
    0
}

/// Takes the links from an index on out of the table, the last one first.
fn unwind(last: &mut [u32], links: &[Link], from: usize)
    requires indexed { IsIndexed last.old links.now }
    requires within { from ≤ length links.now }
    ensures { IndexedTo last.new links.now from }
{
    let mut end = links.len();
    while end > from {
        end -= 1;
        let link = links[end];
        if link.number as usize != NONE {
            last[group_of(link.number as usize, last.len())] = link.before;
        }
    }
}

/// Notes where the next number of a group is, in the link at an ordinal, if there is one.
pub(crate) fn hint_at(links: &mut [Link], ordinal: u32, next: u32)
    requires { ordinal ≤ length links.old }
    ensures numbers { numbers_of links.new ≡ numbers_of links.old }
    ensures befores { befores_of links.new ≡ befores_of links.old }
{
    if ordinal > 0 {
        links[ordinal as usize - 1].hint = next;
    }
}

/// Puts the links from an index on into the table again, with the ordinals that they have now.
fn rewind(last: &mut [u32], links: &mut [Link], from: usize)
    requires indexed { IndexedTo last.old links.old from }
    requires within { from ≤ length links.old }
    requires ordinals { length links.old < 2 ^ 32 }
    requires wide { 0 < length links.old → 0 < length last.old }
    ensures indexed { IsIndexed last.new links.new }
    ensures same { numbers_of links.new ≡ numbers_of links.old }
{
    for index in from..links.len() {
        let number = links[index].number as usize;
        if number != NONE {
            let ordinal = index as u32 + 1;
            let group = group_of(number, last.len());
            let before = last[group];
            links[index].before = before;
            hint_at(links, before, ordinal);
            last[group] = ordinal;
        }
    }
}

/// Makes a larger table where there are as many numbers as groups.
#[inline(always)]
fn make_room(alloc: Global, last: &mut Vec<u32>, links: &mut [Link]) -> Result<(), AllocError>
    requires indexed { IsIndexed last.old.items links.old }
    requires ordinals { length links.old < 2 ^ 32 }
    ensures indexed { IsIndexed last.new.items links.new }
    ensures same { numbers_of links.new ≡ numbers_of links.old }
    ensures room { OnOk result (0 < length last.new.items) }
    ensures width { OnOk result (length last.new.items ≡
        (if ltb (length links.old) (length last.old.items) then length last.old.items else max 64 (2 * length last.old.items))) }
{
    if links.len() < last.len() {
        return Ok(());
    }
    let mut table = Vec::new(alloc);
    table.resize((2 * last.len()).max(64), 0)?;
    rewind(&mut table, links, 0);
    *last = table;
    Ok(())
}

/// Brings each link that isn't `NONE` to the front, in their order, and counts them.
fn squeeze(links: &mut [Link]) -> usize
    ensures within { result ≤ length links.new }
    ensures front { take result links.new ≡ filter (λ x. not (x.number == none)) links.old }
{
    let mut kept = 0;
    for index in 0..links.len() {
        let link = links[index];
        if link.number as usize != NONE {
            links[kept] = link;
            kept += 1;
        }
    }
    kept
}

impl IndexedList {
    /// An empty list.
    pub fn new(alloc: Global) -> Self
        ensures { result ≡ [] }
    {
        IndexedList {
            links: Vec::new(alloc),
            last: Vec::new(alloc),
            alloc,
        }
    }

    /// How many numbers there are, each `NONE` among them.
    pub fn len(&self) -> usize
        ensures { result ≡ length self.now }
    {
        self.links.len()
    }

    /// The number at an index; `None` past the end.
    pub fn get(&self, index: usize) -> Option<usize>
        ensures { result ≡ slice_get self.now index }
    {
        let link = self.links.get(index)?;
        Some(link.number as usize)
    }

    /// The last ordinal of a number.
    pub fn last(&self, number: usize) -> usize
        requires { number ≢ none }
        ensures { result ≡ last_up (λ k. k == number) self.now (length self.now) }
    {
        if self.last.is_empty() {
            return 0;
        }
        let ordinal = self.last[group_of(number, self.last.len())];
        find_down(&self.links, ordinal as usize, number)
    }

    /// The nearest ordinal before another ordinal where the same number is.
    pub fn before(&self, ordinal: usize) -> usize
        requires some { 0 < ordinal }
        requires within { ordinal ≤ length self.now }
        requires number { slice_index self.now (ordinal - 1) ≢ none }
        ensures { result ≡ last_up (λ k. k == slice_index self.now (ordinal - 1)) self.now (ordinal - 1) }
    {
        let link = self.links[ordinal - 1];
        find_down(&self.links, link.before as usize, link.number as usize)
    }

    /// Adds a number at the end. There is room for fewer than 2³² numbers. On an error nothing changes.
    #[inline(always)]
    pub fn push(&mut self, number: usize) -> Result<(), AllocError>
        requires { number ≢ none }
        ensures ok { OnOk result (self.new ≡ self.old ++ number ∷ []) }
        ensures err { OnErr result (self.new ≡ self.old) }
    {
        let Ok(ordinal) = u32::try_from(self.links.len() + 1) else {
            return Err(AllocError);
        };
        make_room(self.alloc, &mut self.last, &mut self.links)?;
        let group = group_of(number, self.last.len());
        let before = self.last[group];
        self.links.push(Link {
            number: number as u64,
            before,
            hint: 0,
        })?;
        hint_at(&mut self.links, before, ordinal);
        self.last[group] = ordinal;
        Ok(())
    }

    /// Keeps the first `len` numbers.
    pub fn truncate(&mut self, len: usize)
        requires { len ≤ length self.old }
        ensures { self.new ≡ take len self.old }
    {
        unwind(&mut self.last, &self.links, len);
        self.links.truncate(len);
    }

    /// Takes out each `NONE` from an index on.
    pub fn compact(&mut self, from: usize)
        requires { from ≤ length self.old }
        ensures { self.new ≡ take from self.old ++ filter (λ n. not (n == none)) (drop from self.old) }
    {
        unwind(&mut self.last, &self.links, from);
        let kept = squeeze(&mut self.links[from..]);
        self.links.truncate(from + kept);
        rewind(&mut self.last, &mut self.links, from);
    }
}
