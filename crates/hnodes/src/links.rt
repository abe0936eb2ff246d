//! The links between nodes of a vector.

ghost use Rattle.std.specs.Prelude.{◌<◌, ◌≤◌, length};
ghost use Rattle.std.specs.List.{HoldsAt};
ghost use Rattle.hnodes.specs.Vocabulary.{after_link, before_link, detached, hooked, with_place, IsAmong, IsChanged, IsSeenAs, IsWithin};

use crate::node::{Node, NodeId, NodeLink};

fn set_place(
    nodes: &mut Vec<Node>,
    at: NodeId,
    parent: NodeLink,
    previous: NodeLink,
    next: NodeLink,
)
    requires { at < length nodes.old.items }
    ensures { IsChanged at (with_place parent previous next) nodes.old.items nodes.new.items }
{
    let node = &mut nodes[at.number as usize];
    node.parent = parent;
    node.previous = previous;
    node.next = next;
}

fn link_after(nodes: &mut Vec<Node>, parent: NodeId, before: NodeLink, to: NodeLink)
    requires parent_in { parent < length nodes.old.items }
    requires before_in { IsWithin (length nodes.old.items) before }
    ensures { IsSeenAs (after_link parent before to) nodes.old.items nodes.new.items }
{
    match before.get() {
        Some(before) => nodes[before.number as usize].next = to,
        None => nodes[parent.number as usize].first = to,
    }
}

fn link_before(nodes: &mut Vec<Node>, parent: NodeId, after: NodeLink, to: NodeLink)
    requires parent_in { parent < length nodes.old.items }
    requires after_in { IsWithin (length nodes.old.items) after }
    ensures { IsSeenAs (before_link parent after to) nodes.old.items nodes.new.items }
{
    match after.get() {
        Some(after) => nodes[after.number as usize].previous = to,
        None => nodes[parent.number as usize].last = to,
    }
}

/// Takes a node from its parent and its siblings.
pub(crate) fn detach(nodes: &mut Vec<Node>, child: NodeId)
    requires child_in { child < length nodes.old.items }
    requires neighbours { HoldsAt (IsAmong (length nodes.old.items)) nodes.old.items child }
    ensures { IsSeenAs (detached child) nodes.old.items nodes.new.items }
{
    let node = &nodes[child.number as usize];
    let (parent, previous, next) = (node.parent, node.previous, node.next);
    if let Some(parent) = parent.get() {
        link_after(nodes, parent, previous, next);
        link_before(nodes, parent, next, previous);
        let none = NodeLink::none();
        set_place(nodes, child, none, none, none);
    }
}

/// Puts a loose node below a parent, between two siblings.
pub(crate) fn hook(
    nodes: &mut Vec<Node>,
    child: NodeId,
    parent: NodeId,
    previous: NodeLink,
    next: NodeLink,
)
    requires child_in { child < length nodes.old.items }
    requires parent_in { parent < length nodes.old.items }
    requires previous_in { IsWithin (length nodes.old.items) previous }
    requires next_in { IsWithin (length nodes.old.items) next }
    requires few { length nodes.old.items ≤ u32.MAX }
    ensures { IsSeenAs (hooked child parent previous next) nodes.old.items nodes.new.items }
{
    link_after(nodes, parent, previous, NodeLink::to(child));
    link_before(nodes, parent, next, NodeLink::to(child));
    set_place(nodes, child, NodeLink::to(parent), previous, next);
}
