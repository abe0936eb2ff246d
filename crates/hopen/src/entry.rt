//! Entries of the list of active formatting elements, and markers (HTML Standard, `#the-list-of-active-formatting-elements`).

ghost use Rattle.std.specs.Prelude.{◌≡◌, IfOk, nat_eq, false};
ghost use Rattle.std.specs.Option.{option_map, option_map_or};
ghost use Rattle.hopen.specs.Vocabulary.{entry_is, is_equal, is_gone, moved_entry, stored_entry};

use crate::attributes::are_same;
use hnodes::{Attributes, NodeId};
use names::NameId;
use std::alloc::{AllocError, Global};

/// An entry: its node, and the name and the attributes of the token that the node was made for.
#[derive(Debug, Drop)]
pub struct Entry {
    pub node: NodeId,
    pub name: NameId,
    pub attrs: Attributes,
}

/// A marker or an entry, or the hole that an entry left.
#[derive(Drop)]
pub(crate) enum Slot {
    Hole,
    Marker,
    Entry(Entry),
}

impl Entry {
    /// A copy, which shares the attributes.
    pub fn copy(&self) -> Result<Self, AllocError>
        ensures { IfOk result (λ copy. entry_is copy ≡ entry_is self.now) }
    {
        Ok(Entry {
            node: self.node,
            name: self.name,
            attrs: self.attrs.share()?,
        })
    }
}

impl Slot {
    pub(crate) fn entry(&self) -> Option<&Entry>
        ensures { option_map (λ e. entry_is e.now) result ≡ stored_entry self.now }
    {
        match self {
            Slot::Hole | Slot::Marker => None,
            Slot::Entry(entry) => Some(entry),
        }
    }

    pub(crate) fn is_hole(&self) -> bool
        ensures { result ≡ is_gone self.now }
    {
        matches!(self, Slot::Hole)
    }

    /// Whether it is an entry that was made for an equal token: with the same name, and the same attributes in whatever order.
    pub(crate) fn is_equal(&self, alloc: Global, new: &Entry) -> Result<bool, AllocError>
        ensures { IfOk result (λ equal. equal ≡ option_map_or (is_equal nat_eq (entry_is new.now)) (stored_entry self.now) false) }
    {
        let Slot::Entry(entry) = self else {
            return Ok(false);
        };
        Ok(new.name == entry.name && are_same(alloc, new.attrs.as_slice(), entry.attrs.as_slice())?)
    }

    pub(crate) fn set_node(&mut self, node: NodeId)
        ensures { self.new ≡ moved_entry node self.old }
    {
        if let Slot::Entry(entry) = self {
            entry.node = node;
        }
    }
}
