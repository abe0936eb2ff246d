//! Nodes that leave the stack: the current one, and those that leave from above others, which leave holes.

ghost use Rattle.std.specs.Prelude.{◌≡◌, ◌≢◌, ◌-◌, ◌<◌, ◌^◌, true, false, IfSome, None, drop, length, map, reverse, slice_index_or, slice_set, vec_len};
ghost use Rattle.std.specs.List.{sum_by};
ghost use Rattle.std.specs.Option.{option_map};
ghost use Rattle.hopen.specs.Vocabulary.{current, gap, open_of, opened_by, somes, stack_of, AreAsLong, KeepRoom, EndsOpen, HasRoom, Rests, LevelsStand};

use crate::exchange::{keep, next_of_name};
use crate::kept::{KeptNode, LastLevels, append, hint, is_alone, rewrite};
use crate::stack::Open;

#[inline(always)]
fn ends_in_hole(items: &[KeptNode]) -> bool
    ensures hole { (result ≡ true) → (0 < length items.now) × (slice_index_or (map opened_by items.now) (length items.now - 1) None ≡ None) }
    ensures live { (result ≡ false) → EndsOpen (map opened_by items.now) }
{
    let len = items.len();
    len > 0 && items[len - 1].kind.is_hole()
}

/// Takes away the holes at the end, one at a time.
fn trim(last: &mut LastLevels, items: &mut Vec<KeptNode>)
    requires stands { LevelsStand last.old items.old.items }
    requires holes { last.old.holes ≡ sum_by gap (map opened_by items.old.items) }
    requires levels { length items.old.items < 2 ^ 32 }
    ensures rests { Rests last.new items.new.items }
    ensures same { stack_of items.new.items ≡ stack_of items.old.items }
    ensures room { KeepRoom last.new last.old items.new items.old }
{
    while ends_in_hole(items) {
        items.truncate(items.len() - 1);
        last.holes -= 1;
    }
}

#[inline(always)]
fn take_last(last: &mut LastLevels, items: &mut Vec<KeptNode>) -> Option<Open>
    requires { Rests last.old items.old.items }
    ensures stands { LevelsStand last.new items.new.items }
    ensures holes { last.new.holes ≡ sum_by gap (map opened_by items.new.items) }
    ensures popped { option_map open_of result ≡ current (stack_of items.old.items) }
    ensures rest { stack_of items.new.items ≡ drop 1 (stack_of items.old.items) }
    ensures none { (result ≡ None) → Rests last.new items.new.items }
    ensures some { IfSome result (λ x. HasRoom last.new x × (vec_len items.new < vec_len items.old)) }
    ensures room { KeepRoom last.new last.old items.new items.old }
{
    let item = items.pop()?;
    last.take_back(&item);
    Some(item.opened)
}

/// Takes away the holes at the end, and where there are two or more right above the current node, those. So what is right above it is found
/// at once, however many have left from there.
#[inline(never)]
fn tidy(last: &mut LastLevels, items: &mut Vec<KeptNode>)
    requires stands { LevelsStand last.old items.old.items }
    requires holes { last.old.holes ≡ sum_by gap (map opened_by items.old.items) }
    requires levels { length items.old.items < 2 ^ 32 }
    ensures rests { Rests last.new items.new.items }
    ensures same { stack_of items.new.items ≡ stack_of items.old.items }
    ensures room { KeepRoom last.new last.old items.new items.old }
{
    trim(last, items);
    let len = items.len();
    if len < 3 || !items[len - 2].kind.is_hole() || !items[len - 3].kind.is_hole() {
        return;
    }
    let Some(current) = take_last(last, items) else {
        return;
    };
    trim(last, items);
    if append(last, items, current).is_err() {
        unreachable!()
    }
}

pub(crate) fn pop(last: &mut LastLevels, items: &mut Vec<KeptNode>) -> Option<Open>
    requires { Rests last.old items.old.items }
    ensures rests { Rests last.new items.new.items }
    ensures popped { option_map open_of result ≡ current (stack_of items.old.items) }
    ensures rest { stack_of items.new.items ≡ drop 1 (stack_of items.old.items) }
{
    let closed = take_last(last, items)?;
    if last.holes == 0 {
        return Some(closed);
    }
    tidy(last, items);
    Some(closed)
}

/// Makes a hole of a slot. It takes constant time where its node is not special and open nowhere else.
fn make_hole(last: &mut LastLevels, items: &mut [KeptNode], index: usize)
    requires stands { LevelsStand last.old items.old }
    requires within { index < length items.old }
    requires live { slice_index_or (map opened_by items.old) index None ≢ None }
    requires levels { length items.old < 2 ^ 32 }
    ensures stands { LevelsStand last.new items.new }
    ensures opened { map opened_by items.new ≡ slice_set (map opened_by items.old) index None }
    ensures tables { AreAsLong last.new last.old }
{
    let item = items[index];
    if !is_alone(last, &items[index], index as u32 + 1) {
        rewrite(last, items, index, item.hole());
        return;
    }
    let Open { node, name } = item.opened;
    let next = next_of_name(&last.names, items, index);
    keep(&mut last.names, items, name, next, item.same_name);
    hint(items, item.same_name, next);
    last.nodes[node.index()] = 0;
    last.must_close -= item.kind.closing();
    let left = items[index];
    items[index] = left.hole();
}

pub(crate) fn remove(last: &mut LastLevels, items: &mut Vec<KeptNode>, index: usize)
    requires rests { Rests last.old items.old.items }
    requires within { index < length items.old.items }
    requires live { slice_index_or (map opened_by items.old.items) index None ≢ None }
    ensures rests { Rests last.new items.new.items }
    ensures items { stack_of items.new.items ≡ somes (reverse (slice_set (map opened_by items.old.items) index None)) }
    ensures room { KeepRoom last.new last.old items.new items.old }
{
    make_hole(last, items, index);
    last.holes += 1;
    tidy(last, items);
}
