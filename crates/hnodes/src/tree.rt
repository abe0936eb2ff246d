//! A tree as one value.

ghost use Rattle.std.specs.Prelude.{◌≡◌, ◌<◌, ◌≤◌, ◌↔◌, ◌⊎◌, ℕ, Some, None, OnOk, OnErr, IfOk, IfErr, IfSome, IsSome, IsFalse, IsTrue, map, string_bytes};
ghost use Rattle.std.specs.Prelude.{length, ltb, nat_eq, true, if◌then◌else◌};
ghost use Rattle.std.specs.Option.{option_map};
ghost use Rattle.std.specs.Str.{chars};
ghost use Rattle.hnodes.specs.Vocabulary.{add_attribute, add_char, add_chars, add_missing, graft, graft_before, graft_last, make, move_all};
ghost use Rattle.hnodes.specs.Vocabulary.{attribute_of, comment, content_is, doctype, doctype_of, doctype_texts, document, element, first_child_of, given_is};
ghost use Rattle.hnodes.specs.Vocabulary.{node_kind, last_child_of, node_name, next_of, none, own_text as own_text_of, parent_of, place_node};
ghost use Rattle.hnodes.specs.Vocabulary.{previous_of, text, text_before, text_of_node, tree, what_of, AreNodes, HasNode, IsKept, IsOutside, IsPlace, Makes};
ghost use Rattle.hnodes.specs.Vocabulary.{Memory, Place, TooManyNodes};

use crate::links::{detach, hook};
use crate::node::{self, DocumentType, Given, Node, NodeData, NodeId, NodeKind, NodeLink, Place};
use crate::shared::Attributes;
use crate::store::Store;
use names::{Attr, NameId, Refusal};
use std::alloc::{AllocError, Global};
use std::marker::Model;

/// The tree of a document, and the loose nodes: those that were made and are not in it yet. Each node takes 40 bytes, and what it
/// holds of the store: its text, or its attributes. Making a node and moving one take amortized constant time. No call recurses, nor
/// does the drop, and the moves and the questions allocate nothing.
///
/// A [`Place`] is where a node goes in the tree. `at`, in a call that returns a [`Refusal`], is the byte offset from 0 of the
/// token that the call is made for, which the refusal reports. A [`NodeId`] is a node, wherever it is.
pub struct Tree {
    nodes: Vec<Node>,
    store: Store,
    limit: u32,
}

// Written out: a derived drop is read anew in the proof of each function that may drop a tree.
impl Drop for Tree {
    fn drop(self) {
        let Tree {
            nodes,
            store,
            limit: _,
        } = self;
        drop(nodes);
        drop(store);
    }
}

impl Model for Tree {
    ghost use Rattle.std.specs.Prelude.{ℕ};
    ghost use Rattle.hnodes.specs.Vocabulary.{coded_nodes, Nodes};

    ghost Value = { Nodes ℕ };

    ghost coded = { coded_nodes };

    ghost use Rattle.hnodes.specs.View.{inside_nodes, IsTree};

    ghost view = { inside_nodes };

    ghost invariant = { IsTree };
}

impl Tree {
    /// A tree of the document alone, in which `limit` nodes may be made, the document among them.
    pub fn new(alloc: Global, limit: u32) -> Result<Self, AllocError>
        requires { 0 < limit }
        ensures { IfOk result (λ t. t ≡ record { limit = limit; made = 1; trees = tree 0 document none none }) }
    {
        let mut nodes = Vec::new(alloc);
        nodes.push(Node::loose(NodeData::Document))?;
        Ok(Tree {
            nodes,
            store: Store::new(alloc),
            limit,
        })
    }

    /// The document.
    pub fn document(&self) -> NodeId
        ensures number { result ≡ 0 }
        ensures within { result < self.now.made }
        ensures nodes { AreNodes self.now }
    {
        prove!(self.are_nodes());
        prove!(self.made() > 0);
        NodeId { number: 0 }
    }

    /// Its nodes are numbered in the order in which they were made, and each is in it once: always so, to be said in a `prove!`.
    pub fn are_nodes(&self) -> bool
        ensures holds { result ≡ true }
        ensures nodes { AreNodes self.now }
    {
        !self.nodes.is_empty()
    }

    /// Whether a node was made in this tree, which each call requires of the nodes that it is given.
    pub fn has(&self, node: NodeId) -> bool
        ensures { IsTrue result ↔ (node < self.now.made) }
    {
        node.number < self.made()
    }

    /// The node with this number, if it was made.
    pub fn node(&self, index: usize) -> Option<NodeId>
        ensures number { result ≡ (if ltb index self.now.made then Some index else None) }
        ensures within { IfSome result (λ n. n < self.now.made) }
    {
        if index >= self.made() as usize {
            return None;
        }
        let number = index as u32;
        Some(NodeId { number })
    }

    /// How many nodes were made, the document among them.
    pub fn made(&self) -> u32
        ensures number { result ≡ self.now.made }
        ensures begun { 0 < result }
    {
        let count = self.nodes.len();
        prove!(count <= self.limit as usize);
        count as u32
    }

    /// Makes an element, loose. The error is `TooManyNodes` at the limit, and `Memory` if memory runs out; either leaves the tree
    /// unchanged. The same holds of all calls that make a node.
    #[inline(always)]
    pub fn create_element(
        &mut self,
        name: NameId,
        mut attrs: Vec<Attr>,
        at: u64,
    ) -> Result<NodeId, Refusal>
        ensures { Makes (element name (map attribute_of attrs.items)) at self.old self.new result }
    {
        self.create_element_from(name, &mut attrs, at)
    }

    /// Makes an element, loose, of attributes that leave their list, which keeps its memory for others.
    #[inline(always)]
    pub fn create_element_from(
        &mut self,
        name: NameId,
        attrs: &mut Vec<Attr>,
        at: u64,
    ) -> Result<NodeId, Refusal>
        ensures { Makes (element name (map attribute_of attrs.old.items)) at self.old self.new result }
    {
        self.make(Given::Element(name, attrs), at)
    }

    /// Makes an element that shares its attributes, loose.
    #[inline(always)]
    pub fn create_sharing(
        &mut self,
        name: NameId,
        attrs: Attributes,
        at: u64,
    ) -> Result<NodeId, Refusal>
        ensures { Makes (element name attrs) at self.old self.new result }
    {
        self.make(Given::Sharing(name, attrs), at)
    }

    /// Makes an element of attributes that others share, loose. A few are copied.
    #[inline(always)]
    pub fn create_copying(
        &mut self,
        name: NameId,
        attrs: &Attributes,
        at: u64,
    ) -> Result<NodeId, Refusal>
        ensures { Makes (element name attrs.now) at self.old self.new result }
    {
        self.make(Given::Copied(name, attrs), at)
    }

    /// Makes a comment, loose.
    pub fn create_comment(&mut self, text: String, at: u64) -> Result<NodeId, Refusal>
        ensures { Makes (comment (string_bytes text)) at self.old self.new result }
    {
        self.make(Given::Comment(text), at)
    }

    /// Makes a doctype, loose.
    pub fn create_doctype(&mut self, texts: DocumentType, at: u64) -> Result<NodeId, Refusal>
        ensures { Makes (doctype (string_bytes texts.name) (string_bytes texts.public_id) (string_bytes texts.system_id)) at self.old self.new result }
    {
        self.make(Given::Doctype(texts), at)
    }

    #[inline(always)]
    fn make(&mut self, given: Given, at: u64) -> Result<NodeId, Refusal>
        ensures { Makes (given_is given.entry) at self.old self.new result }
    {
        if self.nodes.len() >= self.limit as usize {
            return Err(Refusal::TooManyNodes { at });
        }
        let number = self.nodes.len() as u32;
        let content = node::content(given, &mut self.store)?;
        self.nodes.push(Node::loose(content))?;
        Ok(NodeId { number })
    }

    /// Moves a node from where it is to the end of another's children.
    pub fn append(&mut self, child: NodeId, parent: NodeId)
        requires child_in { child < self.old.made }
        requires parent_in { parent < self.old.made }
        requires not_document { 0 < child }
        requires not_inside { IsOutside parent child self.old.trees }
        ensures { self.new ≡ record self.old { trees = graft_last child parent self.old.trees } }
    {
        // So the number of each node fits in a link.
        prove!(self.nodes.len() <= self.limit as usize);
        detach(&mut self.nodes, child);
        let last = self.nodes[parent.number as usize].last;
        hook(&mut self.nodes, child, parent, last, NodeLink::none());
    }

    /// Moves a node from where it is to right before another, which has a parent.
    pub fn insert_before(&mut self, child: NodeId, sibling: NodeId)
        requires child_in { child < self.old.made }
        requires sibling_in { sibling < self.old.made }
        requires not_document { 0 < child }
        requires has_parent { IsSome (parent_of sibling self.old.trees) }
        requires not_inside { IsOutside sibling child self.old.trees }
        ensures { self.new ≡ record self.old { trees = graft_before child sibling self.old.trees } }
    {
        // So the number of each node fits in a link.
        prove!(self.nodes.len() <= self.limit as usize);
        detach(&mut self.nodes, child);
        let node = &self.nodes[sibling.number as usize];
        let parent = node.parent.get().unwrap();
        let (previous, next) = (node.previous, NodeLink::to(sibling));
        hook(&mut self.nodes, child, parent, previous, next);
    }

    /// Moves a node from where it is to a place.
    #[inline(always)]
    pub fn insert(&mut self, child: NodeId, place: Place)
        requires child_in { child < self.old.made }
        requires place { IsPlace place self.old }
        requires not_document { 0 < child }
        requires not_inside { IsOutside (place_node place) child self.old.trees }
        ensures { self.new ≡ record self.old { trees = graft child place self.old.trees } }
    {
        match place {
            Place::LastIn(parent) => self.append(child, parent),
            Place::Before(sibling) => self.insert_before(child, sibling),
        }
    }

    /// Moves the children of a node to the end of another's children, in order. Takes as many steps as there are children.
    pub fn move_children(&mut self, from: NodeId, to: NodeId)
        requires from_in { from < self.old.made }
        requires to_in { to < self.old.made }
        requires not_inside { IsOutside to from self.old.trees }
        ensures moved { self.new ≡ record self.old { trees = move_all from to self.old.trees } }
        ensures outside { IsOutside from to self.old.trees → IsOutside from to self.new.trees }
    {
        // So the nodes are counted before the first of them moves.
        prove!(self.are_nodes());
        while let Some(child) = self.first_child(from) {
            self.append(child, to);
        }
    }

    /// Inserts a character at a place (`#creating-and-inserting-nodes`): at the end of the text right before the place, or in a new text there.
    pub fn put_char(&mut self, c: char, place: Place, at: u64) -> Result<(), Refusal>
        requires { IsPlace place self.old }
        ensures ok { OnOk result (self.new ≡ add_char c place self.old) }
        ensures full { (result ≡ Err (TooManyNodes at)) ↔ ((text_before place self.old.trees ≡ None) × (self.old.limit ≤ self.old.made)) }
        ensures refused { IfErr result (λ e. (e ≡ TooManyNodes at) ⊎ (e ≡ Memory)) }
        ensures err { OnErr result (self.new ≡ self.old) }
    {
        let mut buffer = [0; 4];
        self.put_text(c.encode_utf8(&mut buffer), place, at)
    }

    /// Inserts a text at a place, as `put_char` inserts its characters one by one: at the end of the text right before the place,
    /// or in a new text there. An empty text changes nothing.
    #[inline(always)]
    pub fn put_text(&mut self, text: &str, place: Place, at: u64) -> Result<(), Refusal>
        requires { IsPlace place self.old }
        ensures ok { OnOk result (self.new ≡ add_chars (chars text.now) place self.old) }
        ensures full { (result ≡ Err (TooManyNodes at)) ↔
            ((0 < length text.now) × (text_before place self.old.trees ≡ None) × (self.old.limit ≤ self.old.made)) }
        ensures refused { IfErr result (λ e. (e ≡ TooManyNodes at) ⊎ (e ≡ Memory)) }
        ensures err { OnErr result (self.new ≡ self.old) }
    {
        if text.is_empty() {
            return Ok(());
        }
        // A copy for the first of two calls.
        let here = place;
        match self.text_before(here) {
            Some(before) => {
                let content = &mut self.nodes[before.number as usize].content;
                content.add_text(text, &mut self.store)?;
                Ok(())
            }
            None => {
                let node = self.make(Given::Text(text), at)?;
                self.insert(node, place);
                Ok(())
            }
        }
    }

    fn text_before(&self, place: Place) -> Option<NodeId>
        requires { IsPlace place self.now }
        ensures text { result ≡ text_before place self.now.trees }
        ensures within { IfSome result (λ n. n < self.now.made) }
        ensures nodes { AreNodes self.now }
    {
        let before = match place {
            Place::LastIn(parent) => self.last_child(parent),
            Place::Before(sibling) => self.previous(sibling),
        };
        match before {
            Some(node) if self.kind(node) == NodeKind::Text => Some(node),
            _ => None,
        }
    }

    /// Adds an attribute after an element's others; does nothing to another node. The caller sees to it that the element has no
    /// attribute of this name yet. Takes amortized constant time.
    pub fn add_attr(&mut self, node: NodeId, attr: Attr) -> Result<(), Refusal>
        requires { node < self.old.made }
        ensures ok { OnOk result (self.new ≡ record self.old { trees = add_attribute node (attribute_of attr) self.old.trees }) }
        ensures memory { IfErr result (λ e. e ≡ Memory) }
        ensures err { OnErr result (self.new ≡ self.old) }
    {
        let content = &mut self.nodes[node.number as usize].content;
        content.add_attr(attr, &self.store)?;
        Ok(())
    }

    /// Adds an attribute after an element's others, unless it has one of this name; does nothing to another node. Takes amortized
    /// constant time, however many attributes there are.
    pub fn add_missing_attr(&mut self, node: NodeId, attr: Attr) -> Result<(), Refusal>
        requires { node < self.old.made }
        ensures ok { OnOk result (self.new ≡ record self.old { trees = add_missing nat_eq node (attribute_of attr) self.old.trees }) }
        ensures memory { IfErr result (λ e. e ≡ Memory) }
        ensures err { OnErr result (self.new ≡ self.old) }
    {
        self.widen(node)?;
        if self.has_attr(node, attr.name()) {
            return Ok(());
        }
        self.add_attr(node, attr)
    }

    /// Makes an index of the attributes of an element with more than a few.
    fn widen(&mut self, node: NodeId) -> Result<(), AllocError>
        requires { node < self.old.made }
        ensures { self.new ≡ self.old }
    {
        self.nodes[node.number as usize].content.index()
    }

    /// Whether a node is another one or inside it, to be tested before a node moves. Takes as many steps as the node is deep.
    pub fn is_inside(&self, node: NodeId, top: NodeId) -> bool
        requires node_in { node < self.now.made }
        requires top_in { top < self.now.made }
        ensures { IsFalse result ↔ IsOutside node top self.now.trees }
    {
        prove!(self.are_nodes());
        let mut above = node;
        while above != top {
            match self.parent(above) {
                Some(parent) => above = parent,
                None => return false,
            }
        }
        true
    }

    /// The parent of a node.
    pub fn parent(&self, node: NodeId) -> Option<NodeId>
        requires { node < self.now.made }
        ensures parent { result ≡ parent_of node self.now.trees }
        ensures within { IfSome result (λ n. n < self.now.made) }
        ensures nodes { AreNodes self.now }
    {
        self.row(node).0.parent.get()
    }

    /// The first child of a node.
    pub fn first_child(&self, node: NodeId) -> Option<NodeId>
        requires { node < self.now.made }
        ensures child { result ≡ first_child_of node self.now.trees }
        ensures within { IfSome result (λ n. n < self.now.made) }
        ensures nodes { AreNodes self.now }
    {
        self.row(node).0.first.get()
    }

    /// The last child of a node.
    pub fn last_child(&self, node: NodeId) -> Option<NodeId>
        requires { node < self.now.made }
        ensures child { result ≡ last_child_of node self.now.trees }
        ensures within { IfSome result (λ n. n < self.now.made) }
        ensures nodes { AreNodes self.now }
    {
        self.row(node).0.last.get()
    }

    /// The sibling after a node, which is `next_sibling` elsewhere.
    pub fn next(&self, node: NodeId) -> Option<NodeId>
        requires { node < self.now.made }
        ensures sibling { result ≡ next_of node self.now.trees }
        ensures within { IfSome result (λ n. n < self.now.made) }
        ensures nodes { AreNodes self.now }
    {
        self.row(node).0.next.get()
    }

    /// The sibling before a node, which is `previous_sibling` elsewhere.
    pub fn previous(&self, node: NodeId) -> Option<NodeId>
        requires { node < self.now.made }
        ensures sibling { result ≡ previous_of node self.now.trees }
        ensures within { IfSome result (λ n. n < self.now.made) }
        ensures nodes { AreNodes self.now }
    {
        self.row(node).0.previous.get()
    }

    /// A node with its links, and the store of what it holds.
    #[inline(always)]
    fn row(&self, node: NodeId) -> (&Node, &Store)
        requires { node < self.now.made }
        ensures { HasNode node result.1.now result.0.now self.now }
    {
        (&self.nodes[node.number as usize], &self.store)
    }

    /// What a node holds, and the store that has its text or its attributes.
    #[inline(always)]
    pub(crate) fn content(&self, node: NodeId) -> (&NodeData, &Store)
        requires { node < self.now.made }
        ensures kept { IsKept result.1.now result.0.now }
        ensures what { Some (content_is result.1.now result.0.now) ≡ what_of node self.now.trees }
    {
        let (row, store) = self.row(node);
        (&row.content, store)
    }

    /// The kind of a node.
    pub fn kind(&self, node: NodeId) -> NodeKind
        requires { node < self.now.made }
        ensures { Some result ≡ node_kind node self.now.trees }
    {
        match self.content(node).0 {
            NodeData::Document => NodeKind::Document,
            NodeData::Doctype(_) => NodeKind::Doctype,
            NodeData::Element(_, _) => NodeKind::Element,
            NodeData::Wide(_, _) => NodeKind::Element,
            NodeData::Shared(_, _) => NodeKind::Element,
            NodeData::Comment(_) => NodeKind::Comment,
            NodeData::LongComment(_) => NodeKind::Comment,
            NodeData::Text(_) => NodeKind::Text,
            NodeData::Long(_) => NodeKind::Text,
        }
    }

    /// The name of an element.
    pub fn name(&self, node: NodeId) -> Option<NameId>
        requires { node < self.now.made }
        ensures { result ≡ node_name node self.now.trees }
    {
        match self.content(node).0 {
            NodeData::Element(name, _) => Some(*name),
            NodeData::Wide(name, _) => Some(*name),
            NodeData::Shared(name, _) => Some(*name),
            _ => None,
        }
    }

    /// The characters of a text, or the data of a comment.
    pub fn text(&self, node: NodeId) -> Option<&str>
        requires { node < self.now.made }
        ensures { option_map (λ text. text.now) result ≡ text_of_node node self.now.trees }
    {
        let (content, store) = self.content(node);
        match content {
            NodeData::Text(run) => Some(store.texts.get(*run)),
            NodeData::Long(text) => Some(text),
            NodeData::Comment(run) => Some(store.texts.get(*run)),
            NodeData::LongComment(data) => Some(data),
            _ => None,
        }
    }

    /// The characters of a text; nothing of another node.
    pub(crate) fn own_text(&self, node: NodeId) -> &str
        requires { node < self.now.made }
        ensures { Some result.now ≡ option_map own_text_of (what_of node self.now.trees) }
    {
        let (content, store) = self.content(node);
        match content {
            NodeData::Text(run) => store.texts.get(*run),
            NodeData::Long(text) => text,
            _ => "",
        }
    }

    /// The name and the identifiers of a doctype.
    pub fn doctype(&self, node: NodeId) -> Option<&DocumentType>
        requires { node < self.now.made }
        ensures { option_map (λ texts. doctype_texts texts.now) result ≡ doctype_of node self.now.trees }
    {
        match self.content(node).0 {
            NodeData::Doctype(texts) => Some(texts),
            _ => None,
        }
    }
}
