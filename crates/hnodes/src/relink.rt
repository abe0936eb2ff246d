//! Edits of one number of a list, or of two neighbours.

ghost use Rattle.std.specs.Prelude.{◌≡◌, ◌≢◌, ℕ, ◌<◌, ◌≤◌, ◌+◌, ◌==◌, if◌then◌else◌, length, slice_index, slice_set};
ghost use Rattle.hnodes.specs.IndexedList.{none};
ghost use Rattle.hnodes.specs.IndexLinks.{AreIndexed, FitsAt, IsNext, befores_of, in_group_of, numbers_of};

use crate::indexed_list::{IndexedList, Link, NONE, group_of, hint_at};

/// What a number at an index keeps: the nearest ordinal before it where its group is, and the next one as a hint; 0 is none.
/// It walks down the group from its last ordinal.
fn link_at(last: &[u32], links: &[Link], index: usize, number: u64) -> Link
    requires are_indexed { AreIndexed last.now links.now }
    requires within { index < length links.now }
    ensures number { result.number ≡ number }
    ensures fit { FitsAt (length last.now) (numbers_of links.now) index result }
{
    let mut before = last[group_of(number as usize, last.len())];
    let mut hint = 0;
    while before as usize > index + 1 {
        hint = before;
        before = links[before as usize - 1].before;
    }
    Link {
        number,
        before,
        hint,
    }
}

/// The next ordinal of the group of a number after its index; 0 is none. It takes constant time where the hint is right.
fn above(last: &[u32], links: &[Link], index: usize) -> u32
    requires are_indexed { AreIndexed last.now links.now }
    requires within { index < length links.now }
    requires number { slice_index (numbers_of links.now) index ≢ none }
    ensures { IsNext (in_group_of (length last.now) (slice_index (numbers_of links.now) index)) (numbers_of links.now) index result }
{
    let Link { number, hint, .. } = links[index];
    if hint > 0 && hint as usize <= links.len() {
        let next = links[hint as usize - 1];
        if next.number != NONE as u64 && next.before as usize == index + 1 {
            return hint;
        }
    }
    link_at(last, links, index, number).hint
}

/// Changes the ordinal that the next number of a group keeps, or that the table says, where there is no next one.
fn keep(last: &mut [u32], links: &mut [Link], group: usize, next: u32, ordinal: u32)
    requires group { group < length last.old }
    requires next { next ≤ length links.old }
    ensures numbers { numbers_of links.new ≡ numbers_of links.old }
    ensures table { last.new ≡ (if next == 0 then slice_set last.old group ordinal else last.old) }
    ensures befores { (j : ℕ) → slice_index (befores_of links.new) j ≡ (if j + 1 == next then ordinal else slice_index (befores_of links.old) j) }
{
    if next > 0 {
        links[next as usize - 1].before = ordinal;
    } else {
        last[group] = ordinal;
    }
}

/// Takes out the number at an index, if one is there. The hint of the link that it gives is right.
fn take_out(last: &mut [u32], links: &mut [Link], index: usize) -> Link
    requires are_indexed { AreIndexed last.old links.old }
    requires within { index < length links.old }
    ensures are_indexed { AreIndexed last.new links.new }
    ensures numbers { numbers_of links.new ≡ slice_set (numbers_of links.old) index none }
    ensures number { result.number ≡ slice_index (numbers_of links.old) index }
    ensures fit { result.number ≢ none → FitsAt (length last.new) (numbers_of links.new) index result }
{
    let mut link = links[index];
    if link.number == NONE as u64 {
        return link;
    }
    link.hint = above(last, links, index);
    links[index].number = NONE as u64;
    let group = group_of(link.number as usize, last.len());
    keep(last, links, group, link.hint, link.before);
    hint_at(links, link.before, link.hint);
    link
}

/// Puts a link at an index where nothing is, where it keeps the ordinal before it, and its hint is right.
fn put_in(last: &mut [u32], links: &mut [Link], index: usize, link: Link)
    requires are_indexed { AreIndexed last.old links.old }
    requires within { index < length links.old }
    requires free { slice_index (numbers_of links.old) index ≡ none }
    requires fit { link.number ≢ none → FitsAt (length last.old) (numbers_of links.old) index link }
    ensures are_indexed { AreIndexed last.new links.new }
    ensures numbers { numbers_of links.new ≡ slice_set (numbers_of links.old) index link.number }
{
    if link.number == NONE as u64 {
        return;
    }
    let ordinal = index as u32 + 1;
    links[index] = link;
    let group = group_of(link.number as usize, last.len());
    keep(last, links, group, link.hint, ordinal);
    hint_at(links, link.before, ordinal);
}

fn is_grouped(number: u64, other: u64, width: usize) -> bool
    requires { 0 < width }
    ensures { result ≡ in_group_of width number other }
{
    other != NONE as u64 && group_of(other as usize, width) == group_of(number as usize, width)
}

/// Exchanges what is at an index and at the next one. If both are of one group, the one that moves up keeps the ordinal of the other one.
fn swap_at(last: &mut [u32], links: &mut [Link], index: usize)
    requires are_indexed { AreIndexed last.old links.old }
    requires within { index + 1 < length links.old }
    ensures are_indexed { AreIndexed last.new links.new }
    ensures numbers { let old = numbers_of links.old in
        numbers_of links.new ≡ slice_set (slice_set old index (slice_index old (index + 1))) (index + 1) (slice_index old index) }
{
    let low = links[index].number;
    let high = links[index + 1].number;
    if low == high {
        return;
    }
    let mut link = take_out(last, links, index);
    let second = take_out(last, links, index + 1);
    put_in(last, links, index, second);
    let width = last.len();
    let same = is_grouped(link.number, second.number, width);
    if same {
        link.before = index as u32 + 1;
        link.hint = second.hint;
    }
    put_in(last, links, index + 1, link);
}

impl IndexedList {
    /// Puts `NONE` at an index.
    pub fn clear(&mut self, index: usize)
        requires { index < length self.old }
        ensures { self.new ≡ slice_set self.old index none }
    {
        take_out(&mut self.last, &mut self.links, index);
    }

    /// Puts a number at an index where nothing is. Allocates nothing.
    pub fn set(&mut self, index: usize, number: usize)
        requires within { index < length self.old }
        requires free { slice_index self.old index ≡ none }
        requires number { number ≢ none }
        ensures { self.new ≡ slice_set self.old index number }
    {
        let link = link_at(&self.last, &self.links, index, number as u64);
        put_in(&mut self.last, &mut self.links, index, link);
    }

    /// Exchanges the numbers at an index and at the next one.
    pub fn swap(&mut self, index: usize)
        requires { index + 1 < length self.old }
        ensures { self.new ≡ slice_set (slice_set self.old index (slice_index self.old (index + 1))) (index + 1) (slice_index self.old index) }
    {
        swap_at(&mut self.last, &mut self.links, index);
    }
}
