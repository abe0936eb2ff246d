//! Trees as text (HTML Standard, `#serialising-html-fragments`, "Serializing HTML fragments").

ghost use Rattle.std.specs.Prelude.{◌≡◌, ◌<◌, map, Some, OnOk};
ghost use Rattle.std.specs.Option.{option_map};
ghost use Rattle.hserialize.specs.Vocabulary.{text_of, children_of, tree_at, mapped, mapped_attribute, node_name, HoldsBytes, IsFlushed, PutsTo, WritesText, attribute_text, start_tag_text, written, has_no_references, holds_raw, raw_kind, stands_raw, name_around, opening_in, closing_in, listed, outer_text, Text};

use crate::escaped::put_escaped;
use crate::escaping::{Escaping, Setting};
use crate::gathered::Gathered;
use crate::node_view::NodeView;
use crate::target::Target;
use crate::walk::{Reach, TreeWalk, Visit, goes_in};
use crate::writer::{Answer, ROOM, Writer, put, put_before, put_parts};
use hnodes::{Attrs, NodeId, Tree};
use names::{NameId, Names, RawKind, Refusal, Tag};
use std::alloc::Global;

/// Whether the texts in an element of this name are written as they are.
fn is_raw(tag: Tag) -> bool
    ensures { result ≡ has_no_references (raw_kind tag) }
{
    !matches!(tag.raw_kind(), RawKind::None | RawKind::Rcdata)
}

/// Whether the texts in a node are written as they are, by its name.
fn holds_raw(tree: &Tree, node: NodeId) -> bool
    requires { node < tree.now.made }
    ensures { result ≡ holds_raw (node_name node tree.now.trees) }
{
    let Some(name) = tree.name(node) else {
        return false;
    };
    is_raw(name.tag())
}

/// A list of trees that is written: the children of a node, and whether the texts among them are written as they are.
#[derive(Drop)]
struct Listing<'a> {
    tree: &'a Tree,
    names: &'a Names,
    escaping: Escaping,
    root: NodeId,
    raw: bool,
}

impl<'a> Listing<'a> {
    /// Whether texts next to a node are written as they are: as the list says, and inside its trees by the name of what they are in.
    fn stands_raw(&self, node: NodeId) -> bool
        requires { node < self.now.tree.now.made }
        ensures { result ≡ stands_raw self.now.root self.now.raw node self.now.tree.now.trees }
    {
        match self.tree.parent(node) {
            Some(parent) if parent == self.root => self.raw,
            Some(parent) => holds_raw(self.tree, parent),
            None => false,
        }
    }

    fn put_attribute<W: Target>(&self, out: &mut Writer<W>, name: &str, value: &str) -> Answer
        ensures { PutsTo W.written W.failed out.old out.new (attribute_text self.now.escaping (name.now, value.now)) result }
    {
        put_parts(out, &[b" ", name.as_bytes(), b"=\""])?;
        put_escaped(out, value, self.escaping, Setting::Value)?;
        put(out, b"\"")
    }

    fn put_start_tag<W: Target>(&self, out: &mut Writer<W>, name: NameId, attrs: Attrs) -> Answer
        ensures { PutsTo W.written W.failed out.old out.new
            (start_tag_text self.now.escaping (text_of self.now.names.now name) (map (mapped_attribute (text_of self.now.names.now)) attrs.entry)) result }
    {
        put_before(out, b"<", self.names.text(name))?;
        for (name, value) in attrs {
            self.put_attribute(out, self.names.text(name), value)?;
        }
        put(out, b">")
    }

    fn put_opening<W: Target>(&self, out: &mut Writer<W>, node: NodeId) -> Answer
        requires { node < self.now.tree.now.made }
        ensures { PutsTo W.written W.failed out.old out.new (opening_in self.now node) result }
    {
        match NodeView::of(self.tree, node) {
            NodeView::Document => Ok(()),
            NodeView::Doctype(texts) => put_parts(
                out,
                &[b"<!DOCTYPE ", texts.name.as_bytes(), b">"],
            ),
            NodeView::Element(name, attrs) => self.put_start_tag(out, name, attrs),
            NodeView::Comment(data) => put_parts(out, &[b"<!--", data.as_bytes(), b"-->"]),
            NodeView::Text(data) => {
                if self.stands_raw(node) {
                    put(out, data.as_bytes())
                } else {
                    put_escaped(out, data, self.escaping, Setting::Text)
                }
            }
        }
    }

    fn put_closing<W: Target>(&self, out: &mut Writer<W>, node: NodeId) -> Answer
        requires { node < self.now.tree.now.made }
        ensures { PutsTo W.written W.failed out.old out.new (closing_in self.now node) result }
    {
        match NodeView::of(self.tree, node) {
            NodeView::Element(name, _) if !name.tag().is_void() => {
                put_parts(out, &[b"</", self.names.text(name).as_bytes(), b">"])
            }
            _ => Ok(()),
        }
    }

    /// Writes the list. Nothing is handed on.
    fn put_list<W: Target>(&self, out: &mut Writer<W>) -> Answer
        requires { self.now.root < self.now.tree.now.made }
        ensures { PutsTo W.written W.failed out.old out.new (listed self.now) result }
    {
        prove!(self.names.are_names());
        for visit in TreeWalk::new(self.tree, self.root, Reach::Written) {
            match visit {
                Visit::Enter(node) => self.put_opening(out, node)?,
                Visit::Leave(node) => self.put_closing(out, node)?,
            }
        }
        Ok(())
    }

    /// Writes the node and what is in it, where the list is its own. Nothing is handed on.
    fn put_outer<W: Target>(&self, out: &mut Writer<W>) -> Answer
        requires made { self.now.root < self.now.tree.now.made }
        requires own { self.now.raw ≡ holds_raw (node_name self.now.root self.now.tree.now.trees) }
        ensures { PutsTo W.written W.failed out.old out.new (outer_text self.now) result }
    {
        prove!(self.names.are_names());
        prove!(self.tree.are_nodes());
        self.put_opening(out, self.root)?;
        if goes_in(self.tree, Reach::Written, self.root) {
            self.put_list(out)?;
        }
        self.put_closing(out, self.root)
    }

    /// Writes the list as text, and flushes.
    fn write<W: Target>(&self, alloc: Global, target: &mut W) -> Answer
        requires { self.now.root < self.now.tree.now.made }
        ensures text { WritesText W.written W.failed (listed self.now) target.old target.new result }
        ensures flushed { OnOk result (IsFlushed W.flushes target.new) }
    {
        let mut held = Vec::with_capacity(alloc, ROOM)?;
        let mut out = Writer::new(target, &mut held);
        self.put_list(&mut out)?;
        out.finish()
    }
}

/// Writes the children of a node as text, by the HTML fragment serialization algorithm (`#html-fragment-serialisation-algorithm`), and
/// flushes. Texts in it are written raw if its own name says so. Takes as many steps as there are nodes and bytes that are written.
/// `Memory` comes before the first write, and nothing is written then. Where a write fails, what was taken before is a beginning of the
/// text, and `Write` is returned. No write follows, so none is tried again.
pub fn serialize<W: Target>(
    alloc: Global,
    tree: &Tree,
    names: &Names,
    node: NodeId,
    escaping: Escaping,
    target: &mut W,
) -> Result<(), Refusal>
    requires { node < tree.now.made }
    ensures text { WritesText W.written W.failed
        (written escaping (option_map (text_of names.now) (node_name node tree.now.trees)) (mapped (text_of names.now) (children_of node tree.now.trees)))
        target.old target.new result }
    ensures flushed { OnOk result (IsFlushed W.flushes target.new) }
{
    prove!(names.are_names());
    let list = Listing {
        tree,
        names,
        escaping,
        root: node,
        raw: holds_raw(tree, node),
    };
    list.write(alloc, target)
}

/// The text that [`serialize`] writes. An error is `Memory`.
#[tactic(auto, using(crate::proofs::Held::held))]
pub fn serialize_to_vec(
    alloc: Global,
    tree: &Tree,
    names: &Names,
    node: NodeId,
    escaping: Escaping,
) -> Result<Vec<u8>, Refusal>
    requires { node < tree.now.made }
    ensures { HoldsBytes result
        (written escaping (option_map (text_of names.now) (node_name node tree.now.trees)) (mapped (text_of names.now) (children_of node tree.now.trees))) }
{
    let mut text = Gathered::new(alloc);
    let answer = serialize(alloc, tree, names, node, escaping, &mut text);
    text.into_text(answer)
}

/// Writes the children of a node as [`serialize`] does, but as a list that is in an element of this name
/// (`#html-fragment-serialisation-algorithm`): the name, and not the node's own, says whether the texts among them are written raw. So
/// what was parsed in a context is written to be read in it again, where the root that holds it is named html in each context.
pub fn serialize_in<W: Target>(
    alloc: Global,
    tree: &Tree,
    names: &Names,
    node: NodeId,
    name: &str,
    escaping: Escaping,
    target: &mut W,
) -> Result<(), Refusal>
    requires { node < tree.now.made }
    ensures text { WritesText W.written W.failed
        (written escaping (Some name.now) (mapped (text_of names.now) (children_of node tree.now.trees))) target.old target.new result }
    ensures flushed { OnOk result (IsFlushed W.flushes target.new) }
{
    let list = Listing {
        tree,
        names,
        escaping,
        root: node,
        raw: is_raw(Tag::named(name)),
    };
    list.write(alloc, target)
}

/// The text that [`serialize_in`] writes. An error is `Memory`.
#[tactic(auto, using(crate::proofs::Held::held))]
pub fn serialize_in_to_vec(
    alloc: Global,
    tree: &Tree,
    names: &Names,
    node: NodeId,
    name: &str,
    escaping: Escaping,
) -> Result<Vec<u8>, Refusal>
    requires { node < tree.now.made }
    ensures { HoldsBytes result (written escaping (Some name.now) (mapped (text_of names.now) (children_of node tree.now.trees))) }
{
    let mut text = Gathered::new(alloc);
    let answer = serialize_in(alloc, tree, names, node, name, escaping, &mut text);
    text.into_text(answer)
}

/// Writes a node with its own tags, as [`serialize`] writes it among the children of its parent, and in the same way.
pub fn serialize_outer<W: Target>(
    alloc: Global,
    tree: &Tree,
    names: &Names,
    node: NodeId,
    escaping: Escaping,
    target: &mut W,
) -> Result<(), Refusal>
    requires { node < tree.now.made }
    ensures text { WritesText W.written W.failed
        (written escaping (option_map (text_of names.now) (name_around node tree.now.trees)) (mapped (text_of names.now) (tree_at node tree.now.trees)))
        target.old target.new result }
    ensures flushed { OnOk result (IsFlushed W.flushes target.new) }
{
    let list = Listing {
        tree,
        names,
        escaping,
        root: node,
        raw: holds_raw(tree, node),
    };
    let mut held = Vec::with_capacity(alloc, ROOM)?;
    let mut out = Writer::new(target, &mut held);
    list.put_outer(&mut out)?;
    out.finish()
}

/// The text that [`serialize_outer`] writes. An error is `Memory`.
#[tactic(auto, using(crate::proofs::Held::held))]
pub fn serialize_outer_to_vec(
    alloc: Global,
    tree: &Tree,
    names: &Names,
    node: NodeId,
    escaping: Escaping,
) -> Result<Vec<u8>, Refusal>
    requires { node < tree.now.made }
    ensures { HoldsBytes result
        (written escaping (option_map (text_of names.now) (name_around node tree.now.trees)) (mapped (text_of names.now) (tree_at node tree.now.trees))) }
{
    let mut text = Gathered::new(alloc);
    let answer = serialize_outer(alloc, tree, names, node, escaping, &mut text);
    text.into_text(answer)
}
