//! Questions on elements by the numbers of names and by known names, and walks that pass over all other nodes.

ghost use Rattle.std.specs.Prelude.{◌≡◌, ◌<◌, ◌↔◌, ℕ, List, Some, length, nat_eq, slice_get, IfSome, IsTrue};
ghost use Rattle.std.specs.Iterator.{YieldsFirst, at_most};
ghost use Rattle.std.specs.List.{All};
ghost use Rattle.std.specs.Option.{option_map};
ghost use Rattle.hnodes.specs.Vocabulary.{children_of, elements_among, is_element, node_kind, node_name, roots, siblings_from, value_of, AreNodes};
ghost use Rattle.names.specs.Tags.{tag_of};

use crate::node::{NodeId, NodeKind};
use crate::tree::Tree;
use names::{NameId, Tag};
use std::marker::Model;

impl Tree {
    /// The value of an element's attribute of this name.
    pub fn attr(&self, node: NodeId, name: NameId) -> Option<&str>
        requires { node < self.now.made }
        ensures { option_map (λ value. value.now) result ≡ value_of (nat_eq name) node self.now.trees }
    {
        for (own, value) in self.attrs(node)? {
            if own == name {
                return Some(value);
            }
        }
        None
    }

    /// Whether a node is an element of this known name; for `Tag::Other`, of any name that is not known.
    pub fn is(&self, node: NodeId, tag: Tag) -> bool
        requires { node < self.now.made }
        ensures { IsTrue result ↔ (option_map tag_of (node_name node self.now.trees) ≡ Some tag) }
    {
        match self.name(node) {
            Some(name) => name.tag() == tag,
            None => false,
        }
    }

    /// Whether a node is a text.
    pub fn is_text(&self, node: NodeId) -> bool
        requires { node < self.now.made }
        ensures { IsTrue result ↔ (node_kind node self.now.trees ≡ Some NodeKind.Text) }
    {
        self.kind(node) == NodeKind::Text
    }

    /// The children of a node that are elements, in their order.
    pub fn child_elements(&self, node: NodeId) -> ChildElements
        requires { node < self.now.made }
        ensures order { result ≡ elements_among (roots (children_of node self.now.trees)) self.now.trees }
        ensures within { All (λ n. n < self.now.made) result }
        ensures nodes { AreNodes self.now }
    {
        let next = self.element_from(self.first_child(node));
        ChildElements { tree: self, next }
    }

    /// The first child of a node that is an element.
    pub fn first_element_child(&self, node: NodeId) -> Option<NodeId>
        requires { node < self.now.made }
        ensures child { result ≡ slice_get (elements_among (roots (children_of node self.now.trees)) self.now.trees) 0 }
        ensures within { IfSome result (λ n. n < self.now.made) }
        ensures nodes { AreNodes self.now }
    {
        let first = self.first_child(node);
        self.element_from(first)
    }

    /// The first element among a node and the siblings after it.
    fn element_from(&self, first: Option<NodeId>) -> Option<NodeId>
        requires { IfSome first (λ n. n < self.now.made) }
        ensures same { elements_among (siblings_from first self.now.trees) self.now.trees
            ≡ elements_among (siblings_from result self.now.trees) self.now.trees }
        ensures element { IfSome result (λ n. (n < self.now.made) × IsTrue (is_element self.now.trees n)) }
    {
        let mut next = first;
        while let Some(node) = next {
            if self.name(node).is_some() {
                return Some(node);
            }
            next = self.next(node);
        }
        None
    }
}

/// The children of a node that are elements, in their order. From [`Tree::child_elements`].
#[derive(Drop)]
pub struct ChildElements<'a> {
    tree: &'a Tree,
    next: Option<NodeId>,
}

impl<'a> Model for ChildElements<'a> {
    ghost Value = { List ℕ };

    ghost view = { λ s. elements_among (siblings_from s.next s.tree.now.trees) s.tree.now.trees };

    ghost invariant = { λ s. IfSome s.next (λ n. (n < s.tree.now.made) × IsTrue (is_element s.tree.now.trees n)) };
}

impl<'a> Iterator for ChildElements<'a> {
    type Item = NodeId;

    ghost next_gives = { YieldsFirst (λ s. s) };

    ghost remaining = { λ s. at_most (length s) };

    fn next(&mut self) -> Option<NodeId> {
        let node = self.next?;
        self.next = self.tree.element_from(self.tree.next(node));
        Some(node)
    }
}
