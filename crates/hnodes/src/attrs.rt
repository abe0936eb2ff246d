//! What is asked of the attributes of an element.

ghost use Rattle.std.specs.Prelude.{◌≡◌, ◌<◌, IfSome, nat_eq, true};
ghost use Rattle.std.specs.Option.{option_map_or};
ghost use Rattle.hnodes.specs.Vocabulary.{are_clean, attributes_of, is_present, names_differ, names_end};
ghost use Rattle.hnodes.specs.Shared.{IsFound};

use crate::attributes::{are_clean, few_differ, has_name, names_end};
use crate::attrs_view::Attrs;
use crate::node::{NodeData, NodeId};
use crate::shared::Found;
use crate::tree::Tree;
use names::NameId;

impl Tree {
    /// The attributes of an element.
    pub fn attrs(&self, node: NodeId) -> Option<Attrs>
        requires { node < self.now.made }
        ensures { result ≡ attributes_of node self.now.trees }
    {
        let (content, store) = self.content(node);
        match content {
            NodeData::Element(_, run) => Some(store.attrs(*run)),
            NodeData::Wide(_, indexed) => Some(indexed.attrs()),
            NodeData::Shared(_, list) => Some(Attrs::listed(list.as_slice())),
            _ => None,
        }
    }

    /// Whether no two attributes of an element have one name; true for another node. Takes constant time.
    pub fn attrs_differ(&self, node: NodeId) -> bool
        requires { node < self.now.made }
        ensures { result ≡ option_map_or (names_differ nat_eq) (attributes_of node self.now.trees) true }
    {
        if let NodeData::Wide(_, indexed) = self.content(node).0 {
            return indexed.differ();
        }
        match self.found(node) {
            Some(found) => found.differ,
            None => self.attrs(node).map_or(true, |attrs| few_differ(attrs)),
        }
    }

    /// Whether no value of an element's attributes has NUL or CR; true for another node. Takes constant time where they are shared.
    pub fn attrs_clean(&self, node: NodeId) -> bool
        requires { node < self.now.made }
        ensures { result ≡ option_map_or are_clean (attributes_of node self.now.trees) true }
    {
        match self.found(node) {
            Some(found) => found.clean,
            None => self.attrs(node).map_or(true, |attrs| are_clean(attrs)),
        }
    }

    /// One more than the greatest number among the names of an element's attributes; 0 without any. Takes constant time where they are shared.
    pub fn attr_names_end(&self, node: NodeId) -> usize
        requires { node < self.now.made }
        ensures { result ≡ option_map_or names_end (attributes_of node self.now.trees) 0 }
    {
        match self.found(node) {
            Some(found) => found.names_end,
            None => self.attrs(node).map_or(0, |attrs| names_end(attrs)),
        }
    }

    pub(crate) fn has_attr(&self, node: NodeId, name: NameId) -> bool
        requires { node < self.now.made }
        ensures { result ≡ is_present nat_eq name (attributes_of node self.now.trees) }
    {
        match self.content(node).0 {
            NodeData::Wide(_, indexed) => indexed.has(name),
            _ => self.attrs(node).is_some_and(|attrs| has_name(attrs, name)),
        }
    }

    /// What was found of an element's attributes, if they are shared and were looked at.
    fn found(&self, node: NodeId) -> Option<&Found>
        requires { node < self.now.made }
        ensures { IfSome result (λ found. IsFound found.now (attributes_of node self.now.trees)) }
    {
        match self.content(node).0 {
            NodeData::Shared(_, list) => list.found(),
            _ => None,
        }
    }
}
