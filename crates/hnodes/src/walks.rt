//! Walks over the nodes of a tree.

ghost use Rattle.std.specs.Prelude.{◌≡◌, ◌<◌, ◌≤◌, ◌∷◌, ℕ, List, Some, IfOk, IfSome, IsTrue, length, string_bytes};
ghost use Rattle.std.specs.Iterator.{YieldsFirst, at_most};
ghost use Rattle.std.specs.List.{All};
ghost use Rattle.hnodes.specs.Vocabulary.{after_each, ancestors_of, children_of, inside_from, is_among, order, roots, siblings_from, forest_texts, way_up, AreNodes};

use crate::node::NodeId;
use crate::tree::Tree;
use std::alloc::{AllocError, Global};
use std::marker::Model;

/// The children of a node, in their order. From [`Tree::children`].
#[derive(Drop)]
pub struct Children<'a> {
    tree: &'a Tree,
    next: Option<NodeId>,
}

impl<'a> Model for Children<'a> {
    ghost Value = { List ℕ };

    ghost view = { λ s. siblings_from s.next s.tree.now.trees };

    ghost invariant = { λ s. IfSome s.next (λ n. n < s.tree.now.made) };
}

impl Tree {
    /// The children of a node, in their order.
    pub fn children(&self, node: NodeId) -> Children
        requires { node < self.now.made }
        ensures order { result ≡ roots (children_of node self.now.trees) }
        ensures within { All (λ n. n < self.now.made) result }
        ensures nodes { AreNodes self.now }
    {
        let next = self.first_child(node);
        Children { tree: self, next }
    }

    /// The ancestors of a node: its parent, the parent of that, and so on to the root.
    pub fn ancestors(&self, node: NodeId) -> Ancestors
        requires { node < self.now.made }
        ensures { result ≡ ancestors_of node self.now.trees }
    {
        Ancestors {
            tree: self,
            next: self.parent(node),
        }
    }

    /// The descendants of a node in tree order: its first child, what is inside that, then the next child, and so on. The whole
    /// walk takes as many steps as there are descendants, up to a constant factor.
    pub fn descendants(&self, node: NodeId) -> Descendants
        requires { node < self.now.made }
        ensures order { result ≡ order (children_of node self.now.trees) }
        ensures few { length result ≤ self.now.made }
        ensures within { All (λ n. n < self.now.made) result }
        ensures nodes { AreNodes self.now }
    {
        let next = self.first_child(node);
        Descendants {
            tree: self,
            top: node,
            next,
        }
    }

    /// The characters of all texts inside a node in tree order, one after another. Takes as many steps as there are nodes inside it
    /// and bytes in their texts.
    pub fn text_content(&self, alloc: Global, at: NodeId) -> Result<String, AllocError>
        requires { at < self.now.made }
        ensures { IfOk result (λ t. string_bytes t ≡ forest_texts (children_of at self.now.trees)) }
    {
        let mut all = String::new(alloc);
        for node in self.descendants(at) {
            all.push_str(self.own_text(node))?;
        }
        Ok(all)
    }

    /// The node after another in tree order, of those inside `top`.
    fn next_inside(&self, node: NodeId, top: NodeId) -> Option<NodeId>
        requires made { node < self.now.made }
        requires inside { IsTrue (is_among top (ancestors_of node self.now.trees)) }
        ensures next { inside_from top (Some node) self.now.trees ≡ node ∷ inside_from top result self.now.trees }
        ensures inside { IfSome result (λ n. (n < self.now.made) × IsTrue (is_among top (ancestors_of n self.now.trees))) }
    {
        match self.first_child(node) {
            Some(child) => Some(child),
            None => self.next_outside(node, top),
        }
    }

    /// The first node in tree order after another and all those inside it, of those inside `top`.
    fn next_outside(&self, node: NodeId, top: NodeId) -> Option<NodeId>
        requires made { node < self.now.made }
        requires inside { IsTrue (is_among top (way_up (Some node) self.now.trees)) }
        ensures next { after_each top (way_up (Some node) self.now.trees) self.now.trees ≡ inside_from top result self.now.trees }
        ensures inside { IfSome result (λ n. (n < self.now.made) × IsTrue (is_among top (ancestors_of n self.now.trees))) }
    {
        let mut above = node;
        while above != top {
            if let Some(next) = self.next(above) {
                return Some(next);
            }
            match self.parent(above) {
                Some(parent) => above = parent,
                None => return None,
            }
        }
        None
    }
}

impl<'a> Iterator for Children<'a> {
    type Item = NodeId;

    ghost next_gives = { YieldsFirst (λ s. s) };

    ghost remaining = { λ s. at_most (length s) };

    fn next(&mut self) -> Option<NodeId> {
        let node = self.next?;
        self.next = self.tree.next(node);
        Some(node)
    }
}

/// The nodes that a node is inside of, from its parent up. From [`Tree::ancestors`].
#[derive(Drop)]
pub struct Ancestors<'a> {
    tree: &'a Tree,
    next: Option<NodeId>,
}

impl<'a> Model for Ancestors<'a> {
    ghost Value = { List ℕ };

    ghost view = { λ s. way_up s.next s.tree.now.trees };

    ghost invariant = { λ s. IfSome s.next (λ n. n < s.tree.now.made) };
}

impl<'a> Iterator for Ancestors<'a> {
    type Item = NodeId;

    ghost next_gives = { YieldsFirst (λ s. s) };

    ghost remaining = { λ s. at_most (length s) };

    fn next(&mut self) -> Option<NodeId> {
        let node = self.next?;
        self.next = self.tree.parent(node);
        Some(node)
    }
}

/// The nodes inside a node, in tree order. From [`Tree::descendants`].
#[derive(Drop)]
pub struct Descendants<'a> {
    tree: &'a Tree,
    top: NodeId,
    next: Option<NodeId>,
}

impl<'a> Model for Descendants<'a> {
    ghost Value = { List ℕ };

    ghost view = { λ s. inside_from s.top s.next s.tree.now.trees };

    ghost invariant = { λ s. IfSome s.next (λ n. (n < s.tree.now.made) × IsTrue (is_among s.top (ancestors_of n s.tree.now.trees))) };
}

impl<'a> Iterator for Descendants<'a> {
    type Item = NodeId;

    ghost next_gives = { YieldsFirst (λ s. s) };

    ghost remaining = { λ s. at_most (length s) };

    fn next(&mut self) -> Option<NodeId> {
        let node = self.next?;
        self.next = self.tree.next_inside(node, self.top);
        Some(node)
    }
}
