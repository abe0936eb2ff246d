//! Whether a document is plain.

ghost use Rattle.std.specs.Prelude.{◌≡◌, ◌<◌, IfSome, Some};
ghost use Rattle.hserialize.specs.Vocabulary.{are_in_html, children_of, is_leaf_at, is_metadata_at, is_named_what, is_plain_doctype_at, is_plain_document, is_text_alone, mapped, text_of, what_of, ArePassed, IsDoctypePassed, IsHeadAt, IsLastAt};

use crate::NodeView;
use crate::content::Texts;
use crate::content_rows::{is_metadata, row};
use crate::plain::{is_plain_list, is_text};
use crate::plain_names::PlainNames;
use crate::plain_texts::{is_plain_comment, is_plain_text};
use hnodes::{NodeId, Tree};
use names::Names;

/// Whether a node is a plain comment, or a plain text that may be where these may, before its siblings.
fn is_leaf(tree: &Tree, allowed: Texts, node: NodeId) -> bool
    requires { node < tree.now.made }
    ensures { result ≡ is_leaf_at allowed node tree.now.trees }
{
    let childless = tree.first_child(node).is_none();
    match NodeView::of(tree, node) {
        NodeView::Comment(data) => is_plain_comment(data) && childless,
        NodeView::Text(text) => {
            is_plain_text(allowed, text) && childless && !is_text(tree, tree.next(node))
        }
        NodeView::Document | NodeView::Doctype(_) | NodeView::Element(_, _) => false,
    }
}

/// The first node that is no plain comment and no such text, of a node and the siblings after it.
fn past_leaves(tree: &Tree, allowed: Texts, from: Option<NodeId>) -> Option<NodeId>
    requires { IfSome from (λ n. n < tree.now.made) }
    ensures passed { ArePassed allowed from result tree.now.trees }
    ensures within { IfSome result (λ n. n < tree.now.made) }
{
    prove!(tree.are_nodes());
    let mut next = from;
    while let Some(node) = next {
        if !is_leaf(tree, allowed, node) {
            return Some(node);
        }
        next = tree.next(node);
    }
    None
}

/// The sibling after a doctype named html without identifiers; another node itself.
fn past_doctype(tree: &Tree, from: Option<NodeId>) -> Option<NodeId>
    requires { IfSome from (λ n. n < tree.now.made) }
    ensures passed { IsDoctypePassed from result tree.now.trees }
    ensures within { IfSome result (λ n. n < tree.now.made) }
{
    prove!(tree.are_nodes());
    match from {
        Some(node) if is_plain_doctype(tree, node) => tree.next(node),
        _ => from,
    }
}

fn is_plain_doctype(tree: &Tree, node: NodeId) -> bool
    requires { node < tree.now.made }
    ensures { result ≡ is_plain_doctype_at node tree.now.trees }
{
    let childless = tree.first_child(node).is_none();
    match NodeView::of(tree, node) {
        NodeView::Doctype(texts) => {
            texts.name.as_str() == "html"
                && texts.public_id.is_empty()
                && texts.system_id.is_empty()
                && childless
        }
        _ => false,
    }
}

/// Whether a node is an element of this name whose attributes are plain.
fn is_named(tree: &Tree, names: &PlainNames, node: NodeId, expected: &str) -> bool
    requires { node < tree.now.made }
    ensures { result ≡ is_named_what (text_of names.now.table.now) expected.now (what_of node tree.now.trees) }
{
    match NodeView::of(tree, node) {
        NodeView::Element(name, attrs) => {
            names.table.text(name) == expected && names.are_plain_attributes(tree, node, attrs)
        }
        _ => false,
    }
}

/// Whether a node is such an element, and comments alone follow it.
fn is_last(tree: &Tree, names: &PlainNames, node: NodeId, expected: &str) -> bool
    requires { node < tree.now.made }
    ensures { IsLastAt (text_of names.now.table.now) expected.now node tree.now.trees result }
{
    let after = past_leaves(tree, Texts::None, tree.next(node));
    after.is_none() && is_named(tree, names, node, expected)
}

/// Whether there is one such text at most, from a node on.
fn is_text_alone(tree: &Tree, allowed: Texts, node: Option<NodeId>) -> bool
    requires { IfSome node (λ n. n < tree.now.made) }
    ensures { result ≡ is_text_alone allowed node tree.now.trees }
{
    let Some(node) = node else {
        return true;
    };
    let childless = tree.first_child(node).is_none();
    let last = tree.next(node).is_none();
    match NodeView::of(tree, node) {
        NodeView::Text(text) => is_plain_text(allowed, text) && childless && last,
        _ => false,
    }
}

/// Whether a node may be in the head of a plain document.
fn is_metadata_node(tree: &Tree, names: &PlainNames, node: NodeId) -> bool
    requires { node < tree.now.made }
    ensures { result ≡ is_metadata_at (text_of names.now.table.now) node tree.now.trees }
{
    match NodeView::of(tree, node) {
        NodeView::Element(name, attrs) => {
            let tag = name.tag();
            is_metadata(tag)
                && names.are_plain_attributes(tree, node, attrs)
                && is_text_alone(tree, row(tag).1.texts(), tree.first_child(node))
        }
        _ => is_leaf(tree, Texts::WhiteSpace, node),
    }
}

fn is_head(tree: &Tree, names: &PlainNames, head: NodeId) -> bool
    requires { head < tree.now.made }
    ensures { IsHeadAt (text_of names.now.table.now) head tree.now.trees result }
{
    prove!(tree.are_nodes());
    prove!(names.table.are_names());
    if !is_named(tree, names, head, "head") {
        return false;
    }
    for node in tree.children(head) {
        if !is_metadata_node(tree, names, node) {
            return false;
        }
    }
    true
}

fn is_html(tree: &Tree, names: &PlainNames, html: NodeId) -> bool
    requires { html < tree.now.made }
    ensures { result ≡ are_in_html (mapped (text_of names.now.table.now) (children_of html tree.now.trees)) }
{
    let Some(head) = past_leaves(tree, Texts::None, tree.first_child(html)) else {
        return false;
    };
    if !is_head(tree, names, head) {
        return false;
    }
    let Some(body) = past_leaves(tree, Texts::WhiteSpace, tree.next(head)) else {
        return false;
    };
    is_last(tree, names, body, "body") && is_plain_list(tree, names, body, "body")
}

/// Whether the children of a node are those of a plain document: they come back from the parser as they are. Takes no memory, and as
/// many steps as [`is_plain`](crate::is_plain).
pub fn is_plain_document(tree: &Tree, names: &Names, root: NodeId) -> bool
    requires { root < tree.now.made }
    ensures { result ≡ is_plain_document (mapped (text_of names.now) (children_of root tree.now.trees)) }
{
    let names = PlainNames::of(names);
    let first = past_leaves(tree, Texts::None, tree.first_child(root));
    let Some(html) = past_leaves(tree, Texts::None, past_doctype(tree, first)) else {
        return false;
    };
    is_last(tree, &names, html, "html") && is_html(tree, &names, html)
}
