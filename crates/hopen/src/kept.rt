//! The levels that open nodes keep, so that no question has to search the stack.

ghost use Rattle.std.specs.Prelude.{◌≡◌, ◌≢◌, List, true, false, ℕ, ◌+◌, ◌-◌, ◌<◌, ◌≤◌, ◌^◌, OnOk, OnErr, ◌∷◌, Some, None, length, map};
ghost use Rattle.std.specs.Prelude.{slice_index, slice_index_or, slice_set, vec_capacity, vec_len};
ghost use Rattle.hopen.specs.Vocabulary.{closing, is_hole, kept_kind, nearest_up, open_of, opened_by, set_node, sets_at, stack_of, tag_of};
ghost use Rattle.hopen.specs.Vocabulary.{AreAlike, AreAsLong, AreIn, EndsOpen, HasRoom, IsAlone, IsBelow, IsIn, KeepSets, KeepSetsTo, Rests, LevelsStand, LevelsTo};
ghost use Rattle.hopen.specs.declared.kept.Kind.TheVariants as Kind;

use crate::name_sets::{NameSet, SetNodes};
use crate::stack::Open;
use hnodes::NodeId;
use names::sets::MAY_STAY_OPEN;
use names::{NameId, Tag};
use std::alloc::AllocError;

/// What a slot of the stack is.
#[derive(Clone, Copy)]
pub(crate) enum Kind {
    /// The hole that a node left.
    Hole,
    /// An open node that may be open at the end of the body.
    MayStay,
    /// One that may not.
    MustClose,
}

/// An open node, and the levels that are known of it; or a hole. Levels count slots from 1, the topmost; 0 is none.
#[derive(Clone, Copy)]
pub(crate) struct KeptNode {
    pub(crate) opened: Open,
    /// The nearest node of the same name above it.
    pub(crate) same_name: u32,
    /// Where the next node of the same name below it was last seen: it is there if the node there keeps this one as `same_name`.
    pub(crate) next_name: u32,
    /// The nearest level above it where the same node is open.
    pub(crate) same_node: u32,
    /// The nearest nodes of sets of names, from it on upwards.
    pub(crate) sets: SetNodes,
    pub(crate) kind: Kind,
}

const _: () = prove!(std::mem::size_of::<KeptNode>() == 64);

/// For each name, and each node, by its number: the nearest level where it is open, 0 if it is not. And how many open nodes may not be
/// open at the end of the body, and how many holes there are.
#[derive(Drop)]
pub(crate) struct LastLevels {
    pub(crate) names: Vec<u32>,
    pub(crate) nodes: Vec<u32>,
    pub(crate) must_close: u32,
    pub(crate) holes: u32,
}

/// How many numbers a table grows by at least: numbers mostly come in order, so the next ones have room then.
const GROWTH: usize = 64;

/// Grows a table so that a number is in it. It stays shorter than 2³² entries.
#[inline(always)]
fn make_room(levels: &mut Vec<u32>, number: usize) -> Result<(), AllocError>
    ensures same { (k : ℕ) → slice_index levels.new.items k ≡ slice_index levels.old.items k }
    ensures room { OnOk result (number < length levels.new.items) }
    ensures fits { length levels.old.items < 2 ^ 32 → length levels.new.items < 2 ^ 32 }
{
    if number < levels.len() {
        return Ok(());
    }
    if number > u32::MAX as usize - GROWTH {
        return Err(AllocError);
    }
    levels.resize(number + GROWTH, 0)
}

impl Kind {
    #[inline(always)]
    fn of(tag: Tag) -> Kind
        ensures live { is_hole result ≡ false }
        ensures kind { (name : ℕ) → tag ≡ tag_of name → (node : ℕ) → result ≡ kept_kind (Some (record { node = node; name = name })) }
    {
        if tag.sets() & MAY_STAY_OPEN == 0 {
            Kind::MustClose
        } else {
            Kind::MayStay
        }
    }

    #[inline(always)]
    pub(crate) fn is_hole(self) -> bool
        ensures { result ≡ is_hole self }
    {
        matches!(self, Kind::Hole)
    }

    /// 1 for a node that may not be open at the end of the body, else 0.
    #[inline(always)]
    pub(crate) fn closing(self) -> u32
        ensures { result ≡ closing self }
    {
        u32::from(matches!(self, Kind::MustClose))
    }
}

impl KeptNode {
    /// A slot for a node, whose levels are not known yet.
    pub(crate) fn new(opened: Open) -> Self
        ensures { opened_by result ≡ Some (open_of opened) }
    {
        KeptNode {
            opened,
            same_name: 0,
            next_name: 0,
            same_node: 0,
            sets: SetNodes::none(),
            kind: Kind::MayStay,
        }
    }

    pub(crate) fn hole(self) -> Self
        ensures hole { result.kind ≡ Kind.Hole }
        ensures levels { (result.same_name ≡ 0) × (result.same_node ≡ 0) }
    {
        KeptNode {
            same_name: 0,
            next_name: 0,
            same_node: 0,
            kind: Kind::Hole,
            ..self
        }
    }
}

impl LastLevels {
    /// The nearest level of a name; 0 if the table does not reach it.
    pub(crate) fn of_name(&self, name: NameId) -> u32
        ensures { result ≡ slice_index self.now.names.items name }
    {
        self.names.get(name.index()).copied().unwrap_or(0)
    }

    /// The nearest level of a node; 0 if the table does not reach it.
    pub(crate) fn of_node(&self, node: NodeId) -> u32
        ensures { result ≡ slice_index self.now.nodes.items node }
    {
        self.nodes.get(node.index()).copied().unwrap_or(0)
    }

    #[inline(always)]
    pub(crate) fn make_room(&mut self, name: NameId, node: NodeId) -> Result<(), AllocError>
        ensures same_names { (k : ℕ) → slice_index self.new.names.items k ≡ slice_index self.old.names.items k }
        ensures same_nodes { (k : ℕ) → slice_index self.new.nodes.items k ≡ slice_index self.old.nodes.items k }
        ensures fits { length self.old.nodes.items < 2 ^ 32 → length self.new.nodes.items < 2 ^ 32 }
        ensures counts { (self.new.must_close ≡ self.old.must_close) × (self.new.holes ≡ self.old.holes) }
        ensures room { OnOk result (HasRoom self.new (record { node = node; name = name })) }
    {
        make_room(&mut self.names, name.index())?;
        make_room(&mut self.nodes, node.index())
    }

    /// Notes that the node of the lowest item is closed: what the item kept is the nearest again.
    #[inline(always)]
    pub(crate) fn take_back(&mut self, item: &KeptNode)
        requires room { HasRoom self.old item.now.opened }
        requires counted { closing item.now.kind ≤ self.old.must_close }
        ensures names { self.new.names.items ≡ slice_set self.old.names.items item.now.opened.name item.now.same_name }
        ensures nodes { self.new.nodes.items ≡ slice_set self.old.nodes.items item.now.opened.node item.now.same_node }
        ensures closes { self.new.must_close ≡ self.old.must_close - closing item.now.kind }
        ensures tables { AreAsLong self.new self.old }
    {
        self.names[item.opened.name.index()] = item.same_name;
        self.nodes[item.opened.node.index()] = item.same_node;
        self.must_close -= item.kind.closing();
    }
}

/// The nearest nodes of sets of names among the first slots, as many as are given.
#[inline(always)]
fn sets_of(items: &[KeptNode], from: usize) -> SetNodes
    requires within { from ≤ length items.now }
    requires keep { KeepSetsTo from (map opened_by items.now) (map sets_at items.now) }
    ensures { (set : NameSet) → set_node set result ≡ nearest_up set (map opened_by items.now) from }
{
    let mut index = from;
    while index > 0 {
        index -= 1;
        if !items[index].kind.is_hole() {
            return items[index].sets;
        }
    }
    SetNodes::none()
}

/// The same of all slots, the last of which is no hole.
#[inline(always)]
pub(crate) fn sets_at_end(items: &[KeptNode]) -> SetNodes
    requires keep { KeepSets (map opened_by items.now) (map sets_at items.now) }
    requires ends { EndsOpen (map opened_by items.now) }
    ensures { (set : NameSet) → set_node set result ≡ nearest_up set (map opened_by items.now) (length items.now) }
{
    let len = items.len();
    if len == 0 {
        return SetNodes::none();
    }
    items[len - 1].sets
}

/// Notes where the next node of a name is, in the item at a level, if there is one.
#[inline(always)]
pub(crate) fn hint(items: &mut [KeptNode], level: u32, next: u32)
    ensures { AreAlike items.new items.old }
{
    if level > 0 && level as usize <= items.len() {
        items[level as usize - 1].next_name = next;
    }
}

/// Takes the nodes of the slots from an index on out of the tables, the last one first.
pub(crate) fn unwind(last: &mut LastLevels, items: &[KeptNode], from: usize)
    requires stands { LevelsStand last.old items.now }
    requires within { from ≤ length items.now }
    ensures stands { LevelsTo from last.new items.now }
    ensures tables { AreAsLong last.new last.old }
{
    let mut end = items.len();
    while end > from {
        end -= 1;
        let item = items[end];
        if !item.kind.is_hole() {
            last.take_back(&item);
        }
    }
}

/// The slot of a node right below others, whose nearest nodes of sets these are: what it keeps is what the tables say.
#[inline(always)]
fn slot_below(last: &LastLevels, sets: SetNodes, opened: Open) -> KeptNode
    requires fits { length last.now.nodes.items < 2 ^ 32 }
    requires room { HasRoom last.now opened }
    ensures { (items : List KeptNode) (n : ℕ) → ((set : NameSet) → set_node set sets ≡ nearest_up set (map opened_by items) n)
        → IsBelow last.now (map opened_by items) n opened result }
{
    // Taken apart for the prover alone (CONTRIBUTING.md, "Traps").
    let Open { node, name } = opened;
    let tag = name.tag();
    let same_name = last.names[name.index()];
    let same_node = last.nodes[node.index()];
    KeptNode {
        opened: Open { node, name },
        same_name,
        next_name: 0,
        same_node,
        sets: sets.with(tag, node.index() as u32 + 1),
        kind: Kind::of(tag),
    }
}

/// Writes the level of the node of a new slot, which is this, into the tables.
#[inline(always)]
fn enter(last: &mut LastLevels, items: &mut [KeptNode], index: usize, slot: KeptNode)
    requires stands { LevelsTo index last.old items.old }
    requires within { index < length items.old }
    requires slot { slot ≡ slice_index_or items.old index slot }
    requires below { IsBelow last.old (map opened_by items.old) index slot.opened slot }
    requires room { HasRoom last.old slot.opened }
    requires levels { length items.old < 2 ^ 32 }
    ensures stands { LevelsTo (index + 1) last.new items.new }
    ensures same { map opened_by items.new ≡ map opened_by items.old }
    ensures tables { AreAsLong last.new last.old }
{
    let level = index as u32 + 1;
    last.names[slot.opened.name.index()] = level;
    last.nodes[slot.opened.node.index()] = level;
    last.must_close += slot.kind.closing();
    hint(items, slot.same_name, level);
}

/// Puts the slot at an index right below those above it.
#[inline(always)]
fn settle(last: &mut LastLevels, items: &mut [KeptNode], index: usize)
    requires stands { LevelsTo index last.old items.old }
    requires within { index < length items.old }
    requires numbers { AreIn last.old (map opened_by items.old) }
    requires levels { length items.old < 2 ^ 32 }
    ensures stands { LevelsTo (index + 1) last.new items.new }
    ensures same { map opened_by items.new ≡ map opened_by items.old }
    ensures tables { AreAsLong last.new last.old }
{
    let item = items[index];
    if item.kind.is_hole() {
        items[index] = item.hole();
        return;
    }
    let slot = slot_below(last, sets_of(items, index), item.opened);
    let below = slot;
    items[index] = below;
    enter(last, items, index, slot);
}

/// Puts the slots from an index on below those above them again, with the levels that they have now.
pub(crate) fn rewind(last: &mut LastLevels, items: &mut [KeptNode], from: usize)
    requires stands { LevelsTo from last.old items.old }
    requires within { from ≤ length items.old }
    requires numbers { AreIn last.old (map opened_by items.old) }
    requires levels { length items.old < 2 ^ 32 }
    ensures stands { LevelsStand last.new items.new }
    ensures same { map opened_by items.new ≡ map opened_by items.old }
    ensures tables { AreAsLong last.new last.old }
{
    let mut index = from;
    while index < items.len() {
        settle(last, items, index);
        index += 1;
    }
}

/// Puts a slot for a node right below the others. On an error the items stay.
#[inline(always)]
pub(crate) fn append(
    last: &mut LastLevels,
    items: &mut Vec<KeptNode>,
    opened: Open,
) -> Result<(), AllocError>
    requires rests { Rests last.old items.old.items }
    requires levels { length items.old.items + 1 < 2 ^ 32 }
    requires room { HasRoom last.old opened }
    ensures rests { Rests last.new items.new.items }
    ensures ok { OnOk result (stack_of items.new.items ≡ open_of opened ∷ stack_of items.old.items) }
    ensures err { OnErr result (items.new.items ≡ items.old.items) }
    ensures full { OnErr result (vec_capacity items.old ≤ vec_len items.old) }
    ensures tables { AreAsLong last.new last.old }
    ensures len { OnOk result (length items.new.items ≡ length items.old.items + 1) }
    ensures capacity { vec_capacity items.old ≤ vec_capacity items.new }
{
    let index = items.len();
    let slot = slot_below(last, sets_at_end(items), opened);
    let below = slot;
    items.push(below)?;
    enter(last, items, index, slot);
    Ok(())
}

/// Whether a node can leave or give way with nothing below looked at: it is not special, and open nowhere else.
pub(crate) fn is_alone(last: &LastLevels, item: &KeptNode, level: u32) -> bool
    requires { is_hole item.now.kind ≡ false }
    ensures { (result ≡ true) → IsAlone last.now item.now level }
{
    !item.opened.name.tag().is_special()
        && item.same_node == 0
        && last.of_node(item.opened.node) == level
}

/// Puts any slot in the place of another: what is kept below it is made anew.
#[inline(never)]
pub(crate) fn rewrite(last: &mut LastLevels, items: &mut [KeptNode], index: usize, slot: KeptNode)
    requires stands { LevelsStand last.old items.old }
    requires within { index < length items.old }
    requires levels { length items.old < 2 ^ 32 }
    requires slot_in { IsIn last.old (opened_by slot) }
    ensures stands { LevelsStand last.new items.new }
    ensures items { map opened_by items.new ≡ slice_set (map opened_by items.old) index (opened_by slot) }
    ensures tables { AreAsLong last.new last.old }
{
    unwind(last, items, index);
    items[index] = slot;
    rewind(last, items, index);
}

/// Puts a new node in the place of one. It takes constant time where the new node has the name of the old one, which is not special and
/// open nowhere else; otherwise it updates what is kept below it.
pub(crate) fn replace(last: &mut LastLevels, items: &mut [KeptNode], index: usize, new: Open)
    requires rests { Rests last.old items.old }
    requires within { index < length items.old }
    requires live { slice_index_or (map opened_by items.old) index None ≢ None }
    requires new_in { HasRoom last.old new }
    ensures rests { Rests last.new items.new }
    ensures items { map opened_by items.new ≡ slice_set (map opened_by items.old) index (Some (open_of new)) }
{
    // Taken apart for the prover alone (CONTRIBUTING.md, "Traps").
    let Open { node, name } = new;
    let old = items[index].opened;
    let level = index as u32 + 1;
    if old.name == name && is_alone(last, &items[index], level) && last.of_node(node) == 0 {
        items[index].opened = Open { node, name };
        last.nodes[old.node.index()] = 0;
        last.nodes[node.index()] = level;
    } else {
        rewrite(last, items, index, KeptNode::new(Open { node, name }));
    }
}
