//! Nodes as a tree lends them.

ghost use Rattle.std.specs.Prelude.{◌≡◌, ◌<◌, Some};
ghost use Rattle.hserialize.specs.Vocabulary.{what_of, what_is};

use hnodes::{Attrs, DocumentType, NodeId, NodeKind, Tree};
use names::NameId;

/// What a node is, as its tree lends it.
#[derive(Drop)]
pub enum NodeView<'a> {
    Document,
    Doctype(&'a DocumentType),
    Element(NameId, Attrs<'a>),
    Comment(&'a str),
    Text(&'a str),
}

impl<'a> NodeView<'a> {
    /// What a node of a tree is.
    #[inline(always)]
    pub fn of(tree: &'a Tree, node: NodeId) -> NodeView<'a>
        requires { node < tree.now.made }
        ensures { Some (what_is result) ≡ what_of node tree.now.trees }
    {
        if let Some(name) = tree.name(node) {
            return NodeView::Element(name, tree.attrs(node).unwrap_or(Attrs::empty()));
        }
        if let Some(texts) = tree.doctype(node) {
            return NodeView::Doctype(texts);
        }
        let kind = tree.kind(node);
        match tree.text(node) {
            Some(text) if kind == NodeKind::Text => NodeView::Text(text),
            Some(text) => NodeView::Comment(text),
            None => NodeView::Document,
        }
    }
}
