//! Whether a list of trees is plain.

ghost use Rattle.std.specs.Prelude.{◌≡◌, ◌<◌, IfSome, false};
ghost use Rattle.hserialize.specs.Vocabulary.{text_of, children_of, mapped, parent_of, is_form_element, is_plain, drops_line_feed, are_region_content, form_after, in_region, tag_at, standing_of, inside_is, is_phrasing, is_text_at, begins_at, is_plain_at, visited_node};

use crate::around::{Around, Standing};
use crate::content::Content;
use crate::content_rows::row;
use crate::plain_names::PlainNames;
use crate::plain_texts::{is_plain_comment, is_plain_text};
use crate::{NodeView, Reach, TreeWalk, Visit, inserts_marker};
use hnodes::{NodeId, NodeKind, Tree};
use names::{Names, Tag};

/// The known name of an element; `Tag::Other` for another node.
fn tag_at(tree: &Tree, node: NodeId) -> Tag
    requires { node < tree.now.made }
    ensures { result ≡ tag_at node tree.now.trees }
{
    tree.name(node).map_or(Tag::Other, |name| name.tag())
}

/// Where a node is, inside a root whose children are this content.
fn standing_of(tree: &Tree, root: NodeId, top: Content, around: Around, node: NodeId) -> Standing
    requires { node < tree.now.made }
    ensures { result ≡ standing_of root top around (parent_of node tree.now.trees) tree.now.trees }
{
    match tree.parent(node) {
        Some(parent) if parent != root => Standing::inside(tag_at(tree, parent), around),
        _ => Standing::at_top(top, around),
    }
}

pub(crate) fn is_text(tree: &Tree, node: Option<NodeId>) -> bool
    requires { IfSome node (λ n. n < tree.now.made) }
    ensures { result ≡ is_text_at node tree.now.trees }
{
    node.is_some_and(|node| matches!(tree.kind(node), NodeKind::Text))
}

fn begins_with_line_feed(tree: &Tree, node: Option<NodeId>) -> bool
    requires { IfSome node (λ n. n < tree.now.made) }
    ensures { result ≡ begins_at node tree.now.trees }
{
    node.is_some_and(|node| match NodeView::of(tree, node) {
        NodeView::Text(text) => text.as_bytes().starts_with(b"\n"),
        _ => false,
    })
}

/// Whether LF right after the start tag is dropped (HTML Standard, `#parsing-main-inbody`).
fn drops_line_feed(tag: Tag) -> bool
    ensures { result ≡ drops_line_feed tag }
{
    matches!(tag, Tag::Pre | Tag::Listing | Tag::Textarea)
}

/// Whether a node is plain by itself, before its siblings.
fn is_plain_node(tree: &Tree, names: &PlainNames, standing: Standing, node: NodeId) -> bool
    requires { node < tree.now.made }
    ensures { result ≡ is_plain_at (text_of names.now.table.now) (inside_is standing) node tree.now.trees }
{
    match NodeView::of(tree, node) {
        NodeView::Element(name, attrs) => {
            let tag = name.tag();
            standing.content.takes_role(row(tag).0)
                && !standing.is_nested(tag)
                && names.are_plain_attributes(tree, node, attrs)
                && !(drops_line_feed(tag) && begins_with_line_feed(tree, tree.first_child(node)))
        }
        NodeView::Text(text) => {
            is_plain_text(standing.texts, text) && !is_text(tree, tree.next(node))
        }
        NodeView::Comment(data) => standing.content.takes_comments() && is_plain_comment(data),
        NodeView::Document | NodeView::Doctype(_) => false,
    }
}

/// Whether what is in a node is content of it, wherever forms are, down to the elements that insert a marker: what is in those is a region by itself.
#[tactic(auto, using(crate::proofs::Walks::goes_on, crate::proofs::Walks::fails, crate::proofs::Walks::found))]
fn is_plain_region(tree: &Tree, names: &PlainNames, root: NodeId, top: Content) -> bool
    requires made { root < tree.now.made }
    requires not_phrasing { is_phrasing top ≡ false }
    ensures { result ≡ are_region_content (in_region top) (mapped (text_of names.now.table.now) (children_of root tree.now.trees)) }
{
    prove!(names.table.are_names());
    let mut around = Around::ALONE;
    for visit in TreeWalk::new(tree, root, Reach::Region) {
        match visit {
            Visit::Enter(node) => {
                let standing = standing_of(tree, root, top, around, node);
                if !is_plain_node(tree, names, standing, node) {
                    return false;
                }
                around = around.marked(tag_at(tree, node), true);
            }
            Visit::Leave(node) => around = around.marked(tag_at(tree, node), false),
        }
    }
    true
}

fn is_form_element(tag: Tag) -> bool
    ensures { result ≡ is_form_element tag }
{
    matches!(tag, Tag::Form)
}

/// Whether a form is around the nodes that come after a visit. None if a form is in a form, or if what is in an element
/// that inserts a marker is not its content.
fn form_after(tree: &Tree, names: &PlainNames, in_form: bool, visit: Visit) -> Option<bool>
    requires { visited_node visit < tree.now.made }
    ensures { result ≡ form_after (text_of names.now.table.now) tree.now.trees visit in_form }
{
    match visit {
        Visit::Enter(node) => {
            let tag = tag_at(tree, node);
            if in_form && is_form_element(tag) {
                return None;
            }
            if inserts_marker(tag) && !is_plain_region(tree, names, node, Content::Flow) {
                return None;
            }
            Some(in_form || is_form_element(tag))
        }
        Visit::Leave(node) => Some(in_form && !is_form_element(tag_at(tree, node))),
    }
}

#[tactic(auto, using(crate::proofs::Walks::goes_on, crate::proofs::Walks::fails, crate::proofs::Walks::found))]
pub(crate) fn is_plain_list(tree: &Tree, names: &PlainNames, root: NodeId, context: &str) -> bool
    requires { root < tree.now.made }
    ensures { result ≡ is_plain context.now (mapped (text_of names.now.table.now) (children_of root tree.now.trees)) }
{
    let tag = Tag::named(context);
    let Some(top) = row(tag).1.at_top() else {
        return false;
    };
    if !is_plain_region(tree, names, root, top) {
        return false;
    }
    prove!(names.table.are_names());
    let mut in_form = is_form_element(tag);
    for visit in TreeWalk::new(tree, root, Reach::Whole) {
        match form_after(tree, names, in_form, visit) {
            Some(after) => in_form = after,
            None => return false,
        }
    }
    true
}

/// Whether the children of a node are a plain list in an element of this name: they come back from the parser as they are. Takes
/// no memory, and as many steps as there are bytes in the names of the table, nodes, bytes in texts, and attributes with their
/// values. Attributes that many elements share are a step for each of these, unless a name of the table that no attribute may have
/// has a smaller number than one of theirs: then each of their names is looked at.
pub fn is_plain(tree: &Tree, names: &Names, root: NodeId, context: &str) -> bool
    requires { root < tree.now.made }
    ensures { result ≡ is_plain context.now (mapped (text_of names.now) (children_of root tree.now.trees)) }
{
    is_plain_list(tree, &PlainNames::of(names), root, context)
}
