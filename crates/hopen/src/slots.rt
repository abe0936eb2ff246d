//! The items of the list of active formatting elements, with the holes that entries leave: nothing moves where one is removed.

ghost use Rattle.std.specs.Prelude.{◌≡◌, ◌≢◌, suc, ◌+◌, ◌-◌, ◌<◌, ◌≤◌, ◌^◌, ◌++◌, ◌∷◌, [], IfOk, IfSome, OnOk, OnErr, IsTrue, is_some, true, false, insert};
ghost use Rattle.std.specs.Prelude.{◌⊎◌, Some, None, length, nat_eq, not, remove, slice_index, slice_index_or, slice_set, filter, take, drop};
ghost use Rattle.std.proofs.Props.{props};
ghost use Rattle.std.specs.List.{All, list_any};
ghost use Rattle.std.specs.Option.{option_map_or};
ghost use Rattle.hnodes.specs.IndexedList.{none};
ghost use Rattle.hnodes.specs.Nearest.{changed_at, item_put_before};
ghost use Rattle.hopen.specs.Vocabulary.{by_hash, by_name, by_node, entry_hash, entry_is, for_node, is_entry, is_gone, item_of, listed_items, live, number_by, numbers_by};
ghost use Rattle.hopen.specs.Vocabulary.{stored_entry, with_room, AreListed, IsStored, IsStored-prop};
ghost use Rattle.hopen.specs.declared.entry.Slot.TheVariants as stored;

use crate::entry::{Entry, Slot};
use crate::hashes::find_hash;
use hnodes::{IndexedList, NodeId, name_number};
use names::{Keys, NameId};
use std::alloc::{AllocError, Global};

/// How many equal entries there may be after the last marker, by the Noah's Ark clause.
const MOST_EQUAL: usize = 3;

/// So many items are passed one by one, and so many entries of a name are compared one by one, with so many attributes each.
pub(crate) const FEW: usize = 8;

/// The number of markers, in each list of numbers.
pub(crate) const MARKER: usize = 0;

/// The number of the entry of a node.
pub(crate) fn node_number(node: NodeId) -> usize
    ensures { result ≡ suc (suc node) }
{
    node.index() + 2
}

/// Items, and where each of their numbers is last.
#[derive(Drop)]
pub(crate) struct Slots {
    pub(crate) items: Vec<Slot>,
    pub(crate) names: IndexedList,
    /// Kept only where there are keys.
    pub(crate) hashes: IndexedList,
    pub(crate) nodes: IndexedList,
    /// The keys of the hashes; `None` while no name has many entries, and then the name is the hash.
    pub(crate) keys: Option<Keys>,
    /// From this index on there is no hole.
    pub(crate) solid: usize,
    ghost listed: { AreListed names hashes nodes keys items.items solid } by { Prim.hlevel (props, IsStored-prop) },
}

/// Adds the numbers of an item that comes after this many, that of its hash where hashes are kept. On an error nothing changes.
#[inline(always)]
fn push_numbers(
    hashes: &mut IndexedList,
    nodes: &mut IndexedList,
    hashed: bool,
    hash: usize,
    node: usize,
    len: usize,
) -> Result<(), AllocError>
    requires hash { hash ≢ none }
    requires node { node ≢ none }
    requires len { length nodes.old ≡ len }
    ensures hashes { OnOk result (hashed ≡ true → hashes.new ≡ hashes.old ++ hash ∷ []) }
    ensures nodes { OnOk result (nodes.new ≡ nodes.old ++ node ∷ []) }
    ensures same_hashes { OnErr result (hashes.new ≡ hashes.old) }
    ensures same_nodes { OnErr result (nodes.new ≡ nodes.old) }
{
    nodes.push(node)?;
    if !hashed {
        return Ok(());
    }
    if let Err(error) = hashes.push(hash) {
        nodes.truncate(len);
        return Err(error);
    }
    Ok(())
}

/// The index of the last hole after an index and before an ordinal, if there is one.
fn last_hole(items: &[Slot], index: usize, ordinal: usize) -> Option<usize>
    requires index { index < length items.now }
    requires ordinal { ordinal ≤ length items.now }
    ensures { IfSome result (λ k. (index < k) × (k < length items.now) × (is_gone (slice_index_or items.now k stored.Hole) ≡ true)) }
{
    let mut hole = ordinal;
    while hole > index + 1 {
        hole -= 1;
        if items[hole].is_hole() {
            return Some(hole);
        }
    }
    None
}

fn move_number(numbers: &mut IndexedList, index: usize, to: usize)
    requires within { index < length numbers.old }
    requires number { slice_index numbers.old index ≢ none }
    requires to { to < length numbers.old }
    requires free { slice_index numbers.old to ≡ none }
    ensures { numbers.new ≡ slice_set (slice_set numbers.old index (slice_index numbers.old to)) to (slice_index numbers.old index) }
{
    let Some(number) = numbers.get(index) else {
        unreachable!()
    };
    numbers.clear(index);
    numbers.set(to, number);
}

impl Slots {
    pub(crate) fn new(alloc: Global) -> Self
        ensures items { result.items.items ≡ [] }
    {
        Slots {
            items: Vec::new(alloc),
            names: IndexedList::new(alloc),
            hashes: IndexedList::new(alloc),
            nodes: IndexedList::new(alloc),
            keys: None,
            solid: 0,
        }
    }

    /// Whether there are more entries of a name after the last marker than are compared one by one, or such with many attributes.
    fn is_crowded(&self, name: NameId) -> bool {
        let marker = self.names.last(MARKER);
        let mut ordinal = self.names.last(name_number(name));
        for _ in 0..FEW {
            if ordinal <= marker {
                return false;
            }
            match self.items.get(ordinal - 1) {
                Some(Slot::Entry(entry)) if entry.attrs.as_slice().len() <= FEW => {}
                _ => return true,
            }
            ordinal = self.names.before(ordinal);
        }
        ordinal > marker
    }

    /// Before an entry of a name comes: if that name has many, hashes the entries from now on. On an error nothing changes.
    fn hash_if_crowded(&mut self, alloc: Global, keys: Keys, name: NameId) -> Result<(), AllocError>
        ensures items { self.new.items.items ≡ self.old.items.items }
        ensures keys { (self.new.keys ≡ self.old.keys) ⊎ (self.new.keys ≡ Some keys) }
    {
        if self.keys.is_none() && self.is_crowded(name) {
            self.hashes = hash_items(alloc, Some(keys), &self.items)?;
            self.keys = Some(keys);
        }
        Ok(())
    }

    fn by_hash(&self) -> &IndexedList
        ensures { result.now ≡ numbers_by (by_hash self.now.keys) self.now.items.items }
    {
        match self.keys {
            Some(_) => &self.hashes,
            None => &self.names,
        }
    }

    /// The Noah's Ark clause: how many items come after the earliest equal entry, if it gives way to a new one. Equal entries have the same hash.
    fn earliest(&self, alloc: Global, hash: usize, new: &Entry) -> Result<Option<usize>, AllocError>
        requires named { new.now.name < 2 ^ 32 }
        requires hash { hash ≡ suc (suc (entry_hash self.now.keys (entry_is new.now))) }
        ensures within { IfOk result (λ earliest. IfSome earliest (λ back. back < length self.now.items.items)) }
        ensures room { IfOk result (λ earliest. option_map_or (remove (listed_items self.now.items.items)) earliest (listed_items self.now.items.items)
            ≡ with_room nat_eq (entry_is new.now) (listed_items self.now.items.items)) }
    {
        let hashes = self.by_hash();
        let marker = hashes.last(MARKER);
        let mut ordinal = hashes.last(hash);
        let mut equal = 0;
        let mut earliest = None;
        while ordinal > marker {
            if self.items[ordinal - 1].is_equal(alloc, new)? {
                equal += 1;
                earliest = Some(self.items.len() - ordinal);
            }
            ordinal = hashes.before(ordinal);
        }
        Ok(if equal < MOST_EQUAL { None } else { earliest })
    }

    /// Before an entry comes: the number of its hash, and how many items come after the entry that gives way to it. On an error nothing changes.
    #[inline(always)]
    pub(crate) fn prepare(
        &mut self,
        alloc: Global,
        keys: Keys,
        new: &Entry,
    ) -> Result<(usize, Option<usize>), AllocError>
        requires { new.now.name < 2 ^ 32 }
        ensures items { self.new.items.items ≡ self.old.items.items }
        ensures hash { IfOk result (λ p. p.0 ≡ suc (suc (entry_hash self.new.keys (entry_is new.now)))) }
        ensures within { IfOk result (λ p. IfSome p.1 (λ back. back < length self.new.items.items)) }
        ensures room { IfOk result (λ p. option_map_or (remove (listed_items self.new.items.items)) p.1 (listed_items self.new.items.items)
            ≡ with_room nat_eq (entry_is new.now) (listed_items self.new.items.items)) }
    {
        let ordinal = self.names.last(name_number(new.name));
        if ordinal <= self.names.last(MARKER) {
            return Ok((find_hash(alloc, self.keys, new)?, None));
        }
        self.hash_if_crowded(alloc, keys, new.name)?;
        let hash = find_hash(alloc, self.keys, new)?;
        Ok((hash, self.earliest(alloc, hash, new)?))
    }

    /// Adds an item at the end, with the numbers of its name, its hash and its node. On an error no item changes.
    #[inline(always)]
    pub(crate) fn put(
        &mut self,
        item: Slot,
        name: usize,
        hash: usize,
        node: usize,
    ) -> Result<(), AllocError>
        requires stored { IsStored item }
        requires there { is_gone item ≡ false }
        requires name { name ≡ number_by by_name (item_of item) }
        requires hash { hash ≡ number_by (by_hash self.old.keys) (item_of item) }
        requires node { node ≡ number_by by_node (item_of item) }
        ensures ok { OnOk result (self.new.items.items ≡ self.old.items.items ++ item ∷ []) }
        ensures err { OnErr result (self.new.items.items ≡ self.old.items.items) }
    {
        let len = self.items.len();
        let hashed = self.keys.is_some();
        self.items.push(item)?;
        if let Err(error) = self.names.push(name) {
            self.items.truncate(len);
            return Err(error);
        }
        let (hashes, nodes) = (&mut self.hashes, &mut self.nodes);
        if let Err(error) = push_numbers(hashes, nodes, hashed, hash, node, len) {
            self.names.truncate(len);
            self.items.truncate(len);
            return Err(error);
        }
        Ok(())
    }

    #[inline(always)]
    pub(crate) fn truncate(&mut self, len: usize)
        requires within { len ≤ length self.old.items.items }
        ensures items { self.new.items.items ≡ take len self.old.items.items }
    {
        self.names.truncate(len);
        self.nodes.truncate(len);
        self.items.truncate(len);
        self.solid = self.solid.min(len);
        if self.keys.is_some() {
            self.hashes.truncate(len);
        }
    }

    pub(crate) fn hide(&mut self, index: usize)
        requires within { index < length self.old.items.items }
        ensures items { self.new.items.items ≡ slice_set self.old.items.items index stored.Hole }
    {
        self.names.clear(index);
        self.nodes.clear(index);
        self.items[index] = Slot::Hole;
        self.solid = self.solid.max(index + 1);
        if self.keys.is_some() {
            self.hashes.clear(index);
        }
    }

    /// Sets the node of the entry at an index.
    #[inline(always)]
    pub(crate) fn renew(&mut self, index: usize, node: NodeId)
        requires within { index < length self.old.items.items }
        requires entry { is_some (stored_entry (slice_index_or self.old.items.items index stored.Hole)) ≡ true }
        ensures items { listed_items self.new.items.items ≡ changed_at (length self.old.items.items - 1 - index) (for_node node)
            (listed_items self.old.items.items) }
    {
        self.nodes.clear(index);
        self.nodes.set(index, node_number(node));
        self.items[index].set_node(node);
    }

    fn swap(&mut self, index: usize)
        requires within { index + 1 < length self.old.items.items }
        ensures items { self.new.items.items
            ≡ slice_set (slice_set self.old.items.items index (slice_index_or self.old.items.items (index + 1) stored.Hole))
            (index + 1) (slice_index_or self.old.items.items index stored.Hole) }
    {
        self.names.swap(index);
        self.nodes.swap(index);
        self.items.swap(index, index + 1);
        self.solid = self.solid.max(index + 2);
        if self.keys.is_some() {
            self.hashes.swap(index);
        }
    }

    /// Moves an item to another index, past one item at a time.
    fn carry(&mut self, from: usize, to: usize)
        requires from { from < length self.old.items.items }
        requires to { to < length self.old.items.items }
        ensures items { self.new.items.items ≡ insert (remove self.old.items.items from) to (slice_index_or self.old.items.items from stored.Hole) }
    {
        let mut index = from;
        while index != to {
            if index < to {
                self.swap(index);
                index += 1;
            } else {
                index -= 1;
                self.swap(index);
            }
        }
    }

    /// Moves the entry at an index to where a hole is, and leaves one.
    fn jump(&mut self, index: usize, hole: usize)
        requires within { index < length self.old.items.items }
        requires entry { is_some (stored_entry (slice_index_or self.old.items.items index stored.Hole)) ≡ true }
        requires hole_within { hole < length self.old.items.items }
        requires hole { is_gone (slice_index_or self.old.items.items hole stored.Hole) ≡ true }
        ensures items { self.new.items.items
            ≡ slice_set (slice_set self.old.items.items index (slice_index_or self.old.items.items hole stored.Hole))
            hole (slice_index_or self.old.items.items index stored.Hole) }
    {
        move_number(&mut self.names, index, hole);
        move_number(&mut self.nodes, index, hole);
        self.items.swap(index, hole);
        self.solid = self.solid.max(index + 1);
        if self.keys.is_some() {
            move_number(&mut self.hashes, index, hole);
        }
    }

    /// Moves the entry at an index to the last hole before the entry of a node, if that hole comes after it. Returns where it then is.
    fn approach(&mut self, index: usize, mark: NodeId) -> usize
        requires within { index < length self.old.items.items }
        requires entry { is_some (stored_entry (slice_index_or self.old.items.items index stored.Hole)) ≡ true }
        ensures within { result < length self.new.items.items }
        ensures entry { slice_index_or self.new.items.items result stored.Hole ≡ slice_index_or self.old.items.items index stored.Hole }
        ensures rest { live (listed_items (remove self.new.items.items result)) ≡ live (listed_items (remove self.old.items.items index)) }
    {
        if self.solid <= index {
            return index;
        }
        let ordinal = self.nodes.last(node_number(mark));
        let Some(hole) = last_hole(&self.items, index, ordinal) else {
            return index;
        };
        self.jump(index, hole);
        hole
    }

    /// Sets the node of the entry at an index, and moves it right after the entry of another node: where that comes later, past no hole.
    pub(crate) fn move_after(&mut self, index: usize, node: NodeId, mark: NodeId)
        requires within { index < length self.old.items.items }
        requires entry { is_some (stored_entry (slice_index_or self.old.items.items index stored.Hole)) ≡ true }
        requires mark { IsTrue (list_any (is_entry mark) (listed_items (remove self.old.items.items index))) }
        ensures items { live (listed_items self.new.items.items)
            ≡ live (item_put_before (is_entry mark) (for_node node (item_of (slice_index_or self.old.items.items index stored.Hole)))
            (listed_items (remove self.old.items.items index))) }
    {
        let near = self.approach(index, mark);
        self.nodes.clear(near);
        let ordinal = self.nodes.last(node_number(mark));
        let to = if ordinal <= near {
            ordinal
        } else {
            ordinal - 1
        };
        self.nodes.set(near, node_number(node));
        self.items[near].set_node(node);
        self.carry(near, to);
    }

    pub(crate) fn close(&mut self, from: usize)
        requires within { from ≤ length self.old.items.items }
        ensures items { self.new.items.items ≡ take from self.old.items.items ++ filter (λ i. not (is_gone i)) (drop from self.old.items.items) }
    {
        self.names.compact(from);
        self.nodes.compact(from);
        take_holes(&mut self.items, from);
        self.solid = from;
        if self.keys.is_some() {
            self.hashes.compact(from);
        }
    }
}

#[inline(never)]
fn hash_items(alloc: Global, keys: Option<Keys>, items: &[Slot]) -> Result<IndexedList, AllocError>
    requires { All IsStored items.now }
    ensures { IfOk result (λ hashes. hashes ≡ numbers_by (by_hash keys) items.now) }
{
    let mut hashes = IndexedList::new(alloc);
    for index in 0..items.len() {
        match &items[index] {
            Slot::Entry(entry) => hashes.push(find_hash(alloc, keys, entry)?)?,
            Slot::Marker => hashes.push(MARKER)?,
            Slot::Hole => {
                hashes.push(MARKER)?;
                hashes.clear(index);
            }
        }
    }
    Ok(hashes)
}

/// Takes the holes from an index on out.
fn take_holes(items: &mut Vec<Slot>, from: usize)
    requires { from ≤ length items.old.items }
    ensures { items.new.items ≡ take from items.old.items ++ filter (λ i. not (is_gone i)) (drop from items.old.items) }
{
    let mut end = from;
    for index in from..items.len() {
        if !items[index].is_hole() {
            items.swap(end, index);
            end += 1;
        }
    }
    items.truncate(end);
}
