//! The list of active formatting elements (HTML Standard, `#the-list-of-active-formatting-elements`).

ghost use Rattle.std.specs.Prelude.{◌≡◌, ℕ, List, ◌-◌, ◌<◌, ◌≤◌, ◌∷◌, [], IsTrue, OnOk, OnErr, length, nat_eq};
ghost use Rattle.std.specs.List.{list_any};
ghost use Rattle.std.specs.Option.{is_some, option_map};
ghost use Rattle.hnodes.specs.Nearest.{changed_at, without};
ghost use Rattle.hopen.specs.Vocabulary.{booked, cleared, entry_at, entry_is, entry_of, find_entry, for_node, has_bookmark, is_entry, listed_items, live, marker};
ghost use Rattle.hopen.specs.Vocabulary.{coded_items, nth_live, pushed, with_node, without_entry, Listed};

use crate::bookmark::Bookmark;
use crate::entry::{Entry, Slot};
use crate::slots::{FEW, MARKER, Slots, node_number};
use hnodes::{Attributes, NodeId, name_number};
use names::{Keys, NameId};
use std::alloc::{AllocError, Global};
use std::marker::Model;

/// The list of active formatting elements.
///
/// Each call takes the same time at any length, amortized, where few entries have the same hash; but `len` counts, `get` and `renew` pass
/// the holes that removed entries left, unless `reach` closed them, and `move_to_bookmark` takes a step for each entry that it passes, and
/// for each later one of its name; towards the front for each hole too.
#[derive(Drop)]
pub struct Formatting {
    slots: Slots,
    /// The keys of the hashes.
    keys: Keys,
    alloc: Global,
}

impl Model for Formatting {
    ghost Value = { List (Listed ℕ) };

    ghost coded = { coded_items };

    ghost view = { λ f. live (listed_items f.slots.items.items) };
}

/// The index of the item with `back` items after it, holes not counted.
fn slot(slots: &Slots, back: usize) -> Option<usize>
    ensures { result ≡ option_map (λ up. length slots.now.items.items - 1 - up) (nth_live back (listed_items slots.now.items.items)) }
{
    let len = slots.items.len();
    if back < len - slots.solid {
        return Some(len - 1 - back);
    }
    let mut left = back;
    let mut index = len;
    while index > 0 {
        index -= 1;
        if !slots.items[index].is_hole() {
            if left == 0 {
                return Some(index);
            }
            left -= 1;
        }
    }
    None
}

/// Removes the holes at the end.
fn trim(slots: &mut Slots)
    ensures { live (listed_items slots.new.items.items) ≡ live (listed_items slots.old.items.items) }
{
    while matches!(slots.items.last(), Some(Slot::Hole)) {
        let len = slots.items.len();
        slots.truncate(len - 1);
    }
}

/// Where the items have no room for one more, closes the holes and makes room for as many as there are.
fn make_room(slots: &mut Slots) -> Result<(), AllocError>
    ensures { live (listed_items slots.new.items.items) ≡ live (listed_items slots.old.items.items) }
{
    if slots.items.len() < slots.items.capacity() {
        return Ok(());
    }
    if slots.solid > 0 {
        slots.close(0);
    }
    slots.items.reserve(slots.items.len())
}

impl Formatting {
    /// An empty list. No result depends on the keys.
    pub fn new(alloc: Global, keys: Keys) -> Self
        ensures { result ≡ [] }
    {
        Formatting {
            slots: Slots::new(alloc),
            keys,
            alloc,
        }
    }

    /// Pushes an entry (`#push-onto-the-list-of-active-formatting-elements`). If three entries after the last marker are equal to it, the
    /// earliest of them is removed (the Noah's Ark clause). On an error nothing changes.
    pub fn push(&mut self, node: NodeId, name: NameId, attrs: Attributes) -> Result<(), AllocError>
        ensures ok { OnOk result (self.new ≡ pushed nat_eq (record { node = node; name = name; attrs = attrs }) self.old) }
        ensures err { OnErr result (self.new ≡ self.old) }
    {
        make_room(&mut self.slots)?;
        let entry = Entry { node, name, attrs };
        let (hash, earliest) = self.slots.prepare(self.alloc, self.keys, &entry)?;
        let entry = Slot::Entry(entry);
        self.slots
            .put(entry, name_number(name), hash, node_number(node))?;
        if let Some(back) = earliest {
            let index = self.slots.items.len() - 2 - back;
            self.slots.hide(index);
        }
        Ok(())
    }

    /// Pushes a marker. On an error nothing changes.
    pub fn marker(&mut self) -> Result<(), AllocError>
        ensures ok { OnOk result (self.new ≡ marker ∷ self.old) }
        ensures err { OnErr result (self.new ≡ self.old) }
    {
        make_room(&mut self.slots)?;
        self.slots.put(Slot::Marker, MARKER, MARKER, MARKER)
    }

    /// Removes the last marker and everything after it, or everything if there is no marker
    /// (`#clear-the-list-of-active-formatting-elements-up-to-the-last-marker`).
    pub fn clear(&mut self)
        ensures { self.new ≡ cleared self.old }
    {
        let len = self.slots.names.last(MARKER).saturating_sub(1);
        self.slots.truncate(len);
        trim(&mut self.slots);
    }

    /// How many items there are.
    pub fn len(&self) -> usize
        ensures { result ≡ length self.now }
    {
        let entries = self.slots.items.iter().filter(|item| !item.is_hole());
        entries.count()
    }

    /// At least as many as there are items: also the holes that removed entries left count. Takes the same time at any length.
    pub fn max_len(&self) -> usize
        ensures { length self.now ≤ result }
    {
        self.slots.items.len()
    }

    /// The last entry with a name after the last marker; `None` if there is none.
    pub fn find(&self, name: NameId) -> Option<&Entry>
        ensures { option_map (λ e. entry_is e.now) result ≡ find_entry nat_eq name self.now }
    {
        let ordinal = self.slots.names.last(name_number(name));
        if ordinal <= self.slots.names.last(MARKER) {
            return None;
        }
        self.slots.items[ordinal - 1].entry()
    }

    /// The entry of a node; `None` if it has no entry.
    pub fn entry_of(&self, node: NodeId) -> Option<&Entry>
        ensures { option_map (λ e. entry_is e.now) result ≡ entry_of node self.now }
    {
        let ordinal = self.slots.nodes.last(node_number(node));
        if ordinal == 0 {
            return None;
        }
        self.slots.items[ordinal - 1].entry()
    }

    /// The entry with `back` items after it: 0 is the last one. `None` for a marker, and past the first item; so a loop that goes back,
    /// such as the one that reconstructs the formatting elements, ends at the last marker.
    pub fn get(&self, back: usize) -> Option<&Entry>
        ensures { option_map (λ e. entry_is e.now) result ≡ entry_at back self.now }
    {
        let index = slot(&self.slots, back)?;
        self.slots.items[index].entry()
    }

    /// Makes `get` and `renew` take the same time at any length, for as many items after the one that they are called for. A loop that
    /// goes back calls it before them.
    pub fn reach(&mut self, back: usize)
        ensures { self.new ≡ self.old }
    {
        let len = self.slots.items.len();
        if len <= FEW || back < len - self.slots.solid {
            return;
        }
        // twice as far, so that a loop that goes back closes few times
        let index = slot(&self.slots, back.saturating_mul(2)).unwrap_or(0);
        self.slots.close(index);
    }

    /// Removes the entry of a node; does nothing if it has no entry.
    pub fn remove(&mut self, node: NodeId)
        ensures { self.new ≡ without_entry node self.old }
    {
        while self.hide(node) {}
    }

    /// Sets the node of a node's entry, which was made for the same token; does nothing if there is no such entry.
    pub fn replace(&mut self, from: NodeId, to: NodeId)
        ensures { self.new ≡ with_node from to self.old }
    {
        let ordinal = self.slots.nodes.last(node_number(from));
        if ordinal > 0 {
            self.slots.renew(ordinal - 1, to);
        }
    }

    /// Sets the node of the entry that `get(back)` returns; does nothing if that is None.
    pub fn renew(&mut self, back: usize, node: NodeId)
        ensures { self.new ≡ changed_at back (for_node node) self.old }
    {
        if let Some(index) = slot(&self.slots, back) {
            if self.slots.items[index].entry().is_some() {
                self.slots.renew(index, node);
            }
        }
    }

    /// Sets the node of a node's entry, and moves the entry to the bookmark (`#adoption-agency-algorithm`). Allocates nothing.
    pub fn move_to_bookmark(&mut self, from: NodeId, to: NodeId, bookmark: Bookmark)
        requires entry { IsTrue (list_any (is_entry from) self.old) }
        requires bookmark { IsTrue (has_bookmark from bookmark self.old) }
        ensures { self.new ≡ booked from to bookmark self.old }
    {
        match bookmark {
            Bookmark::InPlace => self.replace(from, to),
            Bookmark::After(mark) => {
                let index = self.slots.nodes.last(node_number(from)) - 1;
                self.slots.move_after(index, to, mark);
            }
        }
    }

    /// Removes the last entry of a node. Returns whether it has another one.
    fn hide(&mut self, node: NodeId) -> bool
        ensures entry { self.new ≡ without (is_entry node) self.old }
        ensures more { result ≡ list_any (is_entry node) self.new }
    {
        let ordinal = self.slots.nodes.last(node_number(node));
        if ordinal == 0 {
            return false;
        }
        let more = self.slots.nodes.before(ordinal) > 0;
        if ordinal < self.slots.items.len() {
            self.slots.hide(ordinal - 1);
        } else {
            self.slots.truncate(ordinal - 1);
        }
        trim(&mut self.slots);
        more
    }
}
