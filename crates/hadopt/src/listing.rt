//! The list of active formatting elements (HTML Standard, `#the-list-of-active-formatting-elements`), as the rules edit it.

ghost use Rattle.std.specs.Prelude.{◌≡◌, IfOk, ◌∷◌, IsTrue};
ghost use Rattle.std.specs.List.{list_any};
ghost use Rattle.std.specs.Option.{option_map};
ghost use Rattle.hadopt.specs.Vocabulary.{Gives, IsSound, numbers, Goes, entry_is, with_items, marker, cleared, is_entry, without_entry, booked, has_bookmark};

use crate::site::Site;
use hnodes::NodeId;
use hopen::{Bookmark, Entry};
use names::Refusal;
use std::alloc::AllocError;

pub(crate) fn copy(entry: Option<&Entry>) -> Result<Option<Entry>, AllocError>
    ensures { IfOk result (λ copy. option_map entry_is copy ≡ option_map (λ e. entry_is e.now) entry.entry) }
{
    match entry {
        Some(entry) => Ok(Some(entry.copy()?)),
        None => Ok(None),
    }
}

impl Site {
    /// Pushes a marker.
    pub fn marker(&mut self) -> Result<(), Refusal>
        ensures done { Gives result self.new (Goes (with_items (marker ∷ self.old.items) self.old)) }
        ensures kept { IsSound numbers self.old → IfOk result (λ _. IsSound numbers self.new) }
    {
        self.list.marker()?;
        Ok(())
    }

    /// Removes the last marker and what comes after it, or everything if there is no marker
    /// (`#clear-the-list-of-active-formatting-elements-up-to-the-last-marker`).
    pub fn clear_to_marker(&mut self)
        ensures site { self.new ≡ with_items (cleared self.old.items) self.old }
        ensures kept { IsSound numbers self.old → IsSound numbers self.new }
    {
        self.list.clear();
    }

    /// Removes the entry of a node, if it has one.
    #[inline(always)]
    pub fn remove_entry(&mut self, node: NodeId)
        ensures site { self.new ≡ with_items (without_entry node self.old.items) self.old }
        ensures kept { IsSound numbers self.old → IsSound numbers self.new }
    {
        self.list.remove(node);
    }

    pub(crate) fn move_to_bookmark(&mut self, from: NodeId, to: NodeId, bookmark: Bookmark)
        requires entry { IsTrue (list_any (is_entry from) self.old.items) }
        requires bookmark { IsTrue (has_bookmark from bookmark self.old.items) }
        ensures { self.new ≡ with_items (booked from to bookmark self.old.items) self.old }
    {
        self.list.move_to_bookmark(from, to, bookmark);
    }
}
