//! A node leaves the stack, and a new one comes right below another: the end of the adoption agency (`#adoption-agency-algorithm`). The node that
//! leaves passes those from it down to that other one, one at a time, and then the new one takes its place: so nothing below is looked at.

ghost use Rattle.std.specs.Prelude.{◌≡◌, ◌≢◌, ℕ, ◌+◌, ◌<◌, ◌≤◌, ◌^◌, ◌==◌, ◌&&◌, None, false, true, suc, drop, length, map, reverse};
ghost use Rattle.std.specs.Prelude.{slice_index, slice_index_or, slice_set, vec_capacity, vec_len, if◌then◌else◌};
ghost use Rattle.hnodes.specs.Nearest.{item_put_before, without};
ghost use Rattle.hopen.specs.Vocabulary.{exchanged, is_hole, is_node, is_open, is_special, slot_names, open_of, opened_by, same_name_of};
ghost use Rattle.hopen.specs.Vocabulary.{somes, stack_of, AreAlikeButNames, AreAsLong, AreHoles, CanPass, EndsOpen, HasRoom, IsHeldLevel, IsLinked};
ghost use Rattle.hopen.specs.Vocabulary.{Rests, LevelsStand};

use crate::kept::{KeptNode, LastLevels, hint, replace, rewind, unwind};
use crate::leaving::remove;
use crate::stack::Open;
use hnodes::NodeId;
use names::NameId;

/// The level of the next node below an index that has the same name; 0 if there is none. It takes constant time where the item knows it.
pub(crate) fn next_of_name(names: &[u32], items: &[KeptNode], index: usize) -> u32
    requires linked { IsLinked names.now (slot_names (map opened_by items.now)) (map same_name_of items.now) }
    requires levels { length items.now < 2 ^ 32 }
    requires within { index < length items.now }
    requires live { (x : KeptNode) → x ≡ slice_index_or items.now index x → is_hole x.kind ≡ false }
    ensures { (x : KeptNode) → x ≡ slice_index_or items.now index x → IsHeldLevel names.now (map same_name_of items.now) x.opened.name (index + 1) result }
{
    let item = items[index];
    let level = index as u32 + 1;
    if item.next_name > 0
        && item.next_name as usize <= items.len()
        && items[item.next_name as usize - 1].same_name == level
    {
        return item.next_name;
    }
    let mut next = 0;
    let mut before = names[item.opened.name.index()];
    while before > level {
        next = before;
        before = items[before as usize - 1].same_name;
    }
    next
}

fn link(items: &mut [KeptNode], index: usize, same_name: u32, next_name: u32)
    requires { index < length items.old }
    ensures same_names { map same_name_of items.new ≡ slice_set (map same_name_of items.old) index same_name }
    ensures rest { AreAlikeButNames items.new items.old }
{
    let item = items[index];
    items[index] = KeptNode {
        same_name,
        next_name,
        ..item
    };
}

/// Changes the level that the item at a level keeps for its name, or where that is 0, the table.
pub(crate) fn keep(names: &mut [u32], items: &mut [KeptNode], name: NameId, next: u32, level: u32)
    requires name_in { name < length names.old }
    requires within { next ≤ length items.old }
    ensures table { (k : ℕ) → slice_index names.new k ≡ (if next == 0 && k == name then level else slice_index names.old k) }
    ensures befores { (j : ℕ) → slice_index (map same_name_of items.new) j ≡ (if next == suc j then level else slice_index (map same_name_of items.old) j) }
    ensures rest { AreAlikeButNames items.new items.old }
{
    if next > 0 {
        let item = items[next as usize - 1];
        link(items, next as usize - 1, level, item.next_name);
    } else {
        names[name.index()] = level;
    }
}

/// Makes what is kept of the names of a node and the next one below it right for when the two have changed places.
fn swap_names(names: &mut [u32], items: &mut [KeptNode], index: usize, below: usize)
    requires linked { IsLinked names.old (slot_names (map opened_by items.old)) (map same_name_of items.old) }
    requires levels { length items.old < 2 ^ 32 }
    requires order { index < below }
    requires within { below < length items.old }
    requires upper { (x : KeptNode) → x ≡ slice_index_or items.old index x → is_hole x.kind ≡ false }
    requires lower { (x : KeptNode) → x ≡ slice_index_or items.old below x → is_hole x.kind ≡ false }
    requires holes { AreHoles index below (slot_names (map opened_by items.old)) }
    ensures linked { IsLinked names.new (exchanged index below 0 (slot_names (map opened_by items.old))) (map same_name_of items.new) }
    ensures rest { AreAlikeButNames items.new items.old }
{
    let upper = items[index];
    let lower = items[below];
    if upper.opened.name == lower.opened.name {
        return;
    }
    let upper_next = next_of_name(names, items, index);
    let lower_next = next_of_name(names, items, below);
    let upper_level = index as u32 + 1;
    let lower_level = below as u32 + 1;
    keep(names, items, upper.opened.name, upper_next, lower_level);
    keep(names, items, lower.opened.name, lower_next, upper_level);
    link(items, index, lower.same_name, lower_next);
    link(items, below, upper.same_name, upper_next);
    hint(items, lower.same_name, upper_level);
    hint(items, upper.same_name, lower_level);
}

/// Exchanges a node that is not special and the next one below it, neither of which is open further below. So the nearest nodes of sets are
/// the same from either on upwards.
fn swap(last: &mut LastLevels, items: &mut [KeptNode], index: usize, below: usize)
    requires stands { LevelsStand last.old items.old }
    requires levels { length items.old < 2 ^ 32 }
    requires can_pass { CanPass last.old items.old index below }
    ensures stands { LevelsStand last.new items.new }
    ensures opened { map opened_by items.new ≡ exchanged index below None (map opened_by items.old) }
    ensures tables { AreAsLong last.new last.old }
{
    let upper_node = items[index].opened.node;
    let lower_node = items[below].opened.node;
    last.nodes[upper_node.index()] = below as u32 + 1;
    last.nodes[lower_node.index()] = index as u32 + 1;
    let upper = items[index];
    let lower = items[below];
    swap_names(&mut last.names, items, index, below);
    let risen = items[index];
    let sunk = items[below];
    items[index] = KeptNode {
        opened: lower.opened,
        same_node: lower.same_node,
        sets: lower.sets,
        kind: lower.kind,
        ..risen
    };
    items[below] = KeptNode {
        opened: upper.opened,
        same_node: upper.same_node,
        kind: upper.kind,
        ..sunk
    };
}

fn next_open(items: &[KeptNode], index: usize) -> usize
    requires ends { EndsOpen (map opened_by items.now) }
    requires within { index + 1 < length items.now }
    ensures order { index < result }
    ensures within { result < length items.now }
    ensures live { (x : KeptNode) → x ≡ slice_index_or items.now result x → is_hole x.kind ≡ false }
    ensures holes { AreHoles index result (slot_names (map opened_by items.now)) }
{
    let mut next = index + 1;
    while items[next].kind.is_hole() {
        next += 1;
    }
    next
}

/// Moves a node down to another index, or up to the first node that it cannot pass, and returns where it then is.
fn sink(last: &mut LastLevels, items: &mut [KeptNode], from: usize, to: usize) -> usize
    requires rests { Rests last.old items.old }
    requires from { from < length items.old }
    requires live { slice_index_or (map opened_by items.old) from None ≢ None }
    requires to { to < length items.old }
    ensures rests { Rests last.new items.new }
    ensures within { result < length items.new }
    ensures same { slice_index_or (map opened_by items.new) result None ≡ slice_index_or (map opened_by items.old) from None }
    ensures rest { somes (reverse (slice_set (map opened_by items.new) result None)) ≡ somes (reverse (slice_set (map opened_by items.old) from None)) }
    ensures below { drop (result + 1) (map opened_by items.new) ≡ drop (result + 1) (map opened_by items.old) }
    ensures tables { AreAsLong last.new last.old }
{
    let mut index = from;
    while index < to {
        let below = next_open(items, index);
        let upper = items[index].opened;
        let lower = items[below].opened;
        if upper.name.tag().is_special()
            || last.of_node(upper.node) as usize != index + 1
            || last.of_node(lower.node) as usize != below + 1
        {
            break;
        }
        swap(last, items, index, below);
        index = below;
    }
    index
}

/// Takes the node of a slot out and puts a new one right below another, if that is open: what is kept below it is made anew.
#[inline(never)]
fn move_below(
    last: &mut LastLevels,
    items: &mut Vec<KeptNode>,
    index: usize,
    above: NodeId,
    new: Open,
)
    requires rests { Rests last.old items.old.items }
    requires within { index < length items.old.items }
    requires live { slice_index_or (map opened_by items.old.items) index None ≢ None }
    requires room { vec_len items.old < vec_capacity items.old }
    requires levels { length items.old.items + 1 < 2 ^ 32 }
    requires new_in { HasRoom last.old new }
    ensures rests { Rests last.new items.new.items }
    ensures items { stack_of items.new.items
        ≡ item_put_before (is_node above) (open_of new) (somes (reverse (slice_set (map opened_by items.old.items) index None))) }
{
    remove(last, items, index);
    let level = last.of_node(above) as usize;
    if level == 0 {
        return;
    }
    unwind(last, items, level);
    if items.insert(level, KeptNode::new(new)).is_err() {
        unreachable!()
    }
    rewind(last, items, level);
}

/// Takes a node out and puts a new one right below another, by a pass over those from the one down to the other, where the one can pass them.
pub(crate) fn exchange(
    last: &mut LastLevels,
    items: &mut Vec<KeptNode>,
    leaving: NodeId,
    above: NodeId,
    new: Open,
)
    requires rests { Rests last.old items.old.items }
    requires live { is_open leaving (stack_of items.old.items) ≡ true }
    requires room { vec_len items.old < vec_capacity items.old }
    requires levels { length items.old.items + 1 < 2 ^ 32 }
    requires new_in { HasRoom last.old new }
    ensures rests { Rests last.new items.new.items }
    ensures items { stack_of items.new.items ≡ item_put_before (is_node above) (open_of new) (without (is_node leaving) (stack_of items.old.items)) }
{
    let from = last.of_node(leaving) as usize - 1;
    let to = (last.of_node(above) as usize).saturating_sub(1);
    let index = sink(last, items, from, to);
    if from < to && index == to {
        replace(last, items, index, new);
        return;
    }
    move_below(last, items, index, above, new);
}
