//! A page as text: the elements by the texts of their names, their attributes as texts, and what is written of it.

ghost use Rattle.std.specs.Prelude.{◌≡◌, ◌<◌, ℕ, List, [], false, map, unwrap_or, Some, OnOk};
ghost use Rattle.std.specs.Iterator.{YieldsFirstBy, item_count};
ghost use Rattle.std.specs.Option.{option_map, option_map_or};
ghost use Rattle.hnodes.specs.Vocabulary.{attributes_of, node_name, mapped_attribute, value_of, Attribute};
ghost use Rattle.hserialize.specs.Vocabulary.{HoldsBytes, IsFlushed, WritesText, is_plain, is_plain_document, written};
ghost use Rattle.names.specs.Names.{text_of};
ghost use Rattle.hparse.specs.ByText.{stands_for};
ghost use Rattle.hparse.specs.PageText.{page_name, page_trees};

use crate::parsed::Parsed;
use hnodes::{Attrs, NodeId};
use hserialize::{
    Escaping, Target, is_plain, is_plain_document, serialize, serialize_in, serialize_to_vec,
};
use names::{Names, Refusal};
use std::alloc::Global;
use std::marker::Model;

impl Parsed {
    /// The value of an element's attribute of this name: of the first, where there are more. Where many nodes are asked, look the
    /// name up once by [`Names::find`] and call `Tree::attr`.
    pub fn attribute(&self, node: NodeId, name: &str) -> Option<&str>
        requires { node < self.now.tree.made }
        ensures { option_map (λ value. value.now) result ≡ value_of (stands_for self.now.names name.now) node self.now.tree.trees }
    {
        self.tree.attr(node, self.names.find(name)?)
    }

    /// The attributes of an element, each as the texts of its name and its value, in their order; none for another node.
    pub fn attributes(&self, node: NodeId) -> AttributeTexts
        requires { node < self.now.tree.made }
        ensures { result ≡ map (mapped_attribute (text_of self.now.names)) (unwrap_or (attributes_of node self.now.tree.trees) []) }
    {
        let attrs = self.tree.attrs(node).unwrap_or(Attrs::empty());
        AttributeTexts {
            names: &self.names,
            attrs,
        }
    }

    /// Whether a node is an element of this name. `Tree::is` asks for a known name, in less time.
    pub fn is_element(&self, node: NodeId, name: &str) -> bool
        requires { node < self.now.tree.made }
        ensures { result ≡ option_map_or (stands_for self.now.names name.now) (node_name node self.now.tree.trees) false }
    {
        match self.tree.name(node) {
            Some(own) => self.names.find(name) == Some(own),
            None => false,
        }
    }

    /// Writes what is in the root as text, as [`serialize`](hserialize::serialize) does: the whole document, or the fragment.
    pub fn serialize<W: Target>(
        &self,
        alloc: Global,
        escaping: Escaping,
        target: &mut W,
    ) -> Result<(), Refusal>
        ensures text { WritesText W.written W.failed (written escaping (page_name self.now) (page_trees self.now)) target.old target.new result }
        ensures flushed { OnOk result (IsFlushed W.flushes target.new) }
    {
        serialize(alloc, &self.tree, &self.names, self.root, escaping, target)
    }

    /// Writes what is in the root as it stands in an element of this name: in style, script, iframe and noembed its texts are written
    /// as they are. What is plain in such an element is read there as the same trees again.
    pub fn serialize_in<W: Target>(
        &self,
        alloc: Global,
        context: &str,
        escaping: Escaping,
        target: &mut W,
    ) -> Result<(), Refusal>
        ensures text { WritesText W.written W.failed (written escaping (Some context.now) (page_trees self.now)) target.old target.new result }
        ensures flushed { OnOk result (IsFlushed W.flushes target.new) }
    {
        serialize_in(
            alloc,
            &self.tree,
            &self.names,
            self.root,
            context,
            escaping,
            target,
        )
    }

    /// The text that [`Parsed::serialize`] writes. An error is `Memory`.
    pub fn serialize_to_vec(&self, alloc: Global, escaping: Escaping) -> Result<Vec<u8>, Refusal>
        ensures { HoldsBytes result (written escaping (page_name self.now) (page_trees self.now)) }
    {
        serialize_to_vec(alloc, &self.tree, &self.names, self.root, escaping)
    }

    /// Whether what is in the root is plain in an element of this name (see [`is_plain`](hserialize::is_plain)): what
    /// [`Parsed::serialize_in`] writes of it is read there as the same trees again.
    pub fn is_plain(&self, context: &str) -> bool
        ensures { result ≡ is_plain context.now (page_trees self.now) }
    {
        is_plain(&self.tree, &self.names, self.root, context)
    }

    /// Whether what is in the root is a plain document (see [`is_plain_document`](hserialize::is_plain_document)): what
    /// [`Parsed::serialize`] writes of it is read as the same document again.
    pub fn is_plain_document(&self) -> bool
        ensures { result ≡ is_plain_document (page_trees self.now) }
    {
        is_plain_document(&self.tree, &self.names, self.root)
    }
}

/// The attributes of an element as texts of names and values, in their order. From [`Parsed::attributes`].
#[derive(Drop)]
pub struct AttributeTexts<'a> {
    names: &'a Names,
    attrs: Attrs<'a>,
}

impl<'a> Model for AttributeTexts<'a> {
    ghost Value = { List (Attribute (List ℕ)) };

    ghost view = { λ s. map (mapped_attribute (text_of s.names.now)) s.attrs };
}

impl<'a> Iterator for AttributeTexts<'a> {
    type Item = (&'a str, &'a str);

    ghost next_gives = { YieldsFirstBy (λ texts. (texts.0.now, texts.1.now)) (λ s. s) };

    ghost remaining = { item_count (λ s. s) };

    fn next(&mut self) -> Option<(&'a str, &'a str)> {
        match self.attrs.next() {
            Some((name, value)) => Some((self.names.text(name), value)),
            None => None,
        }
    }
}
