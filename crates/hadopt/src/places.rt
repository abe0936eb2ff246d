//! The appropriate place for inserting a node, with foster parenting (HTML Standard, `#appropriate-place-for-inserting-a-node`).

ghost use Rattle.std.specs.Prelude.{◌≡◌, ◌<◌, IfSome, false, ◌&&◌};
ghost use Rattle.std.specs.Option.{option_map, option_map_or};
ghost use Rattle.hadopt.specs.Vocabulary.{IsPlace, LastIn, open_of, tag_of, IsSound, PlaceStands, numbers, is_fostering, stack, trees, from_top, current, beside, foster_place, place_in, place, open_node};

use crate::site::Site;
use hnodes::Place;
use hopen::Open;
use names::Tag;

pub(crate) fn fosters(tag: Tag) -> bool
    ensures { result ≡ is_fostering tag }
{
    matches!(
        tag,
        Tag::Table | Tag::Tbody | Tag::Tfoot | Tag::Thead | Tag::Tr
    )
}

impl Site {
    /// The appropriate place for inserting a node.
    #[inline(always)]
    pub fn place(&self) -> Place
        ensures place { result ≡ place numbers self.now }
        ensures within { IsPlace result self.now.nodes }
        ensures stands { IsSound numbers self.now → PlaceStands result (trees self.now) }
    {
        self.place_in(self.stack.current())
    }

    /// The place at the end of the current node, or of the document if no node is open.
    #[inline(always)]
    pub fn place_in_current(&self) -> Place
        ensures place { result ≡ LastIn (open_node (current (stack self.now))) }
        ensures within { IsPlace result self.now.nodes }
        ensures stands { IsSound numbers self.now → PlaceStands result (trees self.now) }
    {
        self.last_in(self.stack.current())
    }

    /// The place at the end of the first open node, or of the document if no node is open.
    pub fn place_in_first(&self) -> Place
        ensures place { result ≡ LastIn (open_node (from_top 0 self.now)) }
        ensures within { IsPlace result self.now.nodes }
        ensures stands { IsSound numbers self.now → PlaceStands result (trees self.now) }
    {
        self.last_in(self.stack.from_top(0))
    }

    /// The place at the end of the document.
    pub fn place_in_document(&self) -> Place
        ensures place { result ≡ LastIn 0 }
        ensures within { IsPlace result self.now.nodes }
        ensures stands { IsSound numbers self.now → PlaceStands result (trees self.now) }
    {
        Place::LastIn(self.tree.document())
    }

    /// The appropriate place with an open node as the target; at the end of the document if there is none.
    #[inline(always)]
    pub(crate) fn place_in(&self, target: Option<Open>) -> Place
        requires { IfSome target (λ x. x.node < self.now.nodes.made) }
        ensures place { result ≡ place_in numbers (option_map open_of target) self.now }
        ensures within { IsPlace result self.now.nodes }
    {
        if self.is_fostered(&target) {
            return self.foster_place();
        }
        self.last_in(target)
    }

    fn is_fostered(&self, target: &Option<Open>) -> bool
        ensures { result ≡ (self.now.foster && option_map_or (λ x. is_fostering (tag_of x.name)) (option_map open_of target.now) false) }
    {
        matches!(target, Some(top) if self.foster && fosters(top.name.tag()))
    }

    /// The place of a node that is foster parented (`#foster-parent`).
    fn foster_place(&self) -> Place
        ensures place { result ≡ foster_place numbers self.now }
        ensures within { IsPlace result self.now.nodes }
    {
        match self.stack.nearest(Tag::Table.number()) {
            Some(table) => self.beside(table),
            None => self.last_in(self.stack.from_top(0)),
        }
    }

    fn beside(&self, table: Open) -> Place
        requires { table.node < self.now.nodes.made }
        ensures place { result ≡ beside self.now (open_of table) }
        ensures within { IsPlace result self.now.nodes }
    {
        if self.tree.parent(table.node).is_some() {
            return Place::Before(table.node);
        }
        self.last_in(self.stack.above(table.node))
    }

    fn last_in(&self, target: Option<Open>) -> Place
        requires { IfSome target (λ x. x.node < self.now.nodes.made) }
        ensures place { result ≡ LastIn (open_node (option_map open_of target)) }
        ensures within { IsPlace result self.now.nodes }
    {
        match target {
            Some(top) => Place::LastIn(top.node),
            None => Place::LastIn(self.tree.document()),
        }
    }
}
