//! Walks over the nodes inside a node, without recursion and without memory.

ghost use Rattle.std.specs.Prelude.{◌≡◌, ◌<◌, ◌∷◌, ◌^◌, ℕ, length, true, false, Some, IfSome, IsTrue};
ghost use Rattle.std.specs.List.{All};
ghost use Rattle.hserialize.specs.Vocabulary.{AreNodes, What, children_of, ancestors_of, is_among, goes_in, inserts_marker, visits, visits_from, visited_node, what_of, Enter, Leave};

use hnodes::{NodeId, Tree};
use names::Tag;
use std::marker::Model;

/// A step of a walk: a node is entered, and left after those inside it.
#[derive(Clone, Copy)]
pub enum Visit {
    Enter(NodeId),
    Leave(NodeId),
}

/// Which nodes a walk goes into.
#[derive(Clone, Copy)]
pub enum Reach {
    /// All.
    Whole,
    /// Elements that are not void: what is in a void element, or in a node that is no element, is not written.
    Written,
    /// All but elements that insert a marker into the list of active formatting elements.
    Region,
}

/// What is left of a walk over the nodes inside one, in tree order.
#[derive(Drop)]
pub struct TreeWalk<'a> {
    tree: &'a Tree,
    root: NodeId,
    reach: Reach,
    next: Option<Visit>,
}

impl<'a> Model for TreeWalk<'a> {
    ghost use Rattle.std.specs.Prelude.{List, ◌<◌, IfSome, IsTrue};
    ghost use Rattle.hnodes.specs.Passed.{ancestors_of, is_among};
    ghost use Rattle.hserialize.specs.Walk.{visits_from, visited_node};
    ghost use Rattle.hserialize.specs.declared.walk.Visit.{Visit};

    ghost Value = { List Visit };

    ghost view = { λ s. visits_from s.reach s.root s.next s.tree.now.trees };

    ghost invariant = { λ s. IfSome s.next (λ v. (visited_node v < s.tree.now.made)
        × IsTrue (is_among s.root (ancestors_of (visited_node v) s.tree.now.trees))) };
}

impl<'a> TreeWalk<'a> {
    /// A walk over nodes inside `root`.
    pub fn new(tree: &'a Tree, root: NodeId, reach: Reach) -> TreeWalk<'a>
        requires { root < tree.now.made }
        ensures visits { result ≡ visits reach (children_of root tree.now.trees) }
        ensures within { All (λ v. visited_node v < tree.now.made) result }
        ensures few { length result < 2 ^ 33 }
        ensures nodes { AreNodes tree.now }
    {
        // A walk visits each node twice.
        prove!(tree.made() > 0);
        TreeWalk {
            tree,
            root,
            reach,
            next: first_visit(tree, root),
        }
    }
}

impl<'a> Iterator for TreeWalk<'a> {
    ghost use Rattle.std.specs.Prelude.{length};
    ghost use Rattle.std.specs.Iterator.{YieldsFirst, at_most};

    type Item = Visit;

    ghost next_gives = { YieldsFirst (λ s. s) };

    ghost remaining = { λ s. at_most (length s) };

    fn next(&mut self) -> Option<Visit> {
        let visit = self.next?;
        self.next = match visit {
            Visit::Enter(node) => Some(visit_inside(self.tree, self.root, self.reach, node)),
            Visit::Leave(node) => visit_after(self.tree, self.root, node),
        };
        Some(visit)
    }
}

fn first_visit(tree: &Tree, root: NodeId) -> Option<Visit>
    requires { root < tree.now.made }
    ensures visits { (reach : Reach) → visits_from reach root result tree.now.trees ≡ visits reach (children_of root tree.now.trees) }
    ensures inside { IfSome result (λ v. (visited_node v < tree.now.made) × IsTrue (is_among root (ancestors_of (visited_node v) tree.now.trees))) }
    ensures nodes { AreNodes tree.now }
{
    let child = tree.first_child(root)?;
    Some(Visit::Enter(child))
}

/// The visit after a node was entered.
fn visit_inside(tree: &Tree, root: NodeId, reach: Reach, node: NodeId) -> Visit
    requires made { node < tree.now.made }
    requires inside { IsTrue (is_among root (ancestors_of node tree.now.trees)) }
    ensures visits { visits_from reach root (Some (Enter node)) tree.now.trees ≡ Enter node ∷ visits_from reach root (Some result) tree.now.trees }
    ensures inside { (visited_node result < tree.now.made) × IsTrue (is_among root (ancestors_of (visited_node result) tree.now.trees)) }
{
    match tree.first_child(node) {
        Some(child) if goes_in(tree, reach, node) => Visit::Enter(child),
        _ => Visit::Leave(node),
    }
}

/// Whether an element of this name inserts a marker into the list of active formatting elements.
#[inline(always)]
pub fn inserts_marker(tag: Tag) -> bool
    ensures { result ≡ inserts_marker tag }
{
    matches!(
        tag,
        Tag::Caption | Tag::Td | Tag::Th | Tag::Object | Tag::Marquee
    )
}

pub(crate) fn goes_in(tree: &Tree, reach: Reach, node: NodeId) -> bool
    requires { node < tree.now.made }
    ensures { (w : What ℕ) → what_of node tree.now.trees ≡ Some w → goes_in reach w ≡ result }
{
    match (reach, tree.name(node)) {
        (Reach::Whole, _) | (Reach::Region, None) => true,
        (Reach::Written, None) => false,
        (Reach::Written, Some(name)) => !name.tag().is_void(),
        (Reach::Region, Some(name)) => !inserts_marker(name.tag()),
    }
}

/// The visit after a node was left; None at the end of the walk.
fn visit_after(tree: &Tree, root: NodeId, node: NodeId) -> Option<Visit>
    requires made { node < tree.now.made }
    requires inside { IsTrue (is_among root (ancestors_of node tree.now.trees)) }
    ensures visits { (reach : Reach) → visits_from reach root (Some (Leave node)) tree.now.trees ≡ Leave node ∷ visits_from reach root result tree.now.trees }
    ensures inside { IfSome result (λ v. (visited_node v < tree.now.made) × IsTrue (is_among root (ancestors_of (visited_node v) tree.now.trees))) }
{
    if let Some(next) = tree.next(node) {
        return Some(Visit::Enter(next));
    }
    let parent = tree.parent(node)?;
    if parent == root {
        return None;
    }
    Some(Visit::Leave(parent))
}
