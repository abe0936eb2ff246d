//! Where the nodes of a tree came from.

ghost use Rattle.std.specs.Prelude.{◌≡◌, ◌<◌, replicate, Some, IfOk};
ghost use Rattle.hparse.specs.Vocabulary.{are_same, element_name, implied, making, making_of, noted, numbers, own_name, tag_of, token_of, with_made};

use hnodes::{NodeId, NodeKind, Tree};
use htoken::Token;
use names::{NameId, Tag};
use std::alloc::{AllocError, Global};

/// How a node came to be.
#[derive(Clone, Copy)]
pub struct Origin {
    /// The first byte of the token in whose step it was made (`#tree-construction`); of a text, its first character.
    pub at: u64,

    /// Whether that token is its own: an element's start tag, a comment, a doctype, a text's characters. An element that has none was made
    /// again, or the token implied it, as html, head, body and tbody. The document and a fragment's root are implied at byte 0.
    pub in_source: bool,

    /// The element that it was made again of: reconstructed, or by the adoption agency.
    pub again_of: Option<NodeId>,
}

/// How the nodes were made that there are before any token, which are this many.
pub(crate) fn first_makings(alloc: Global, made: u32) -> Result<Vec<Origin>, AllocError>
    ensures { IfOk result (λ list. list.items ≡ replicate made (implied 0)) }
{
    vec![in alloc; Origin {
        at: 0,
        in_source: false,
        again_of: None,
    }; made as usize]
}

/// A token whose step makes nodes: where it begins, where the first character of a text is that it makes, and the name of its own element
/// if it is a start tag.
#[derive(Drop)]
pub(crate) struct Maker {
    pub(crate) at: u64,
    pub(crate) first: u64,
    pub(crate) own: Option<NameId>,
}

/// The name of the element of a start tag of this name: of image it is img (`#parsing-main-inbody`).
#[tactic(auto, using(crate::proofs::NodesMade::other_element))]
fn element_name(name: NameId) -> NameId
    ensures { result ≡ element_name numbers (tag_of name) name }
{
    match name.tag() {
        Tag::Image => Tag::Img.number(),
        _ => name,
    }
}

/// The name of its element, if it is a start tag.
pub(crate) fn own_name(token: &Token) -> Option<NameId>
    ensures { result ≡ own_name numbers (token_of token.now) }
{
    match token {
        Token::Start { name, .. } => Some(element_name(*name)),
        _ => None,
    }
}

fn are_same(own: Option<NameId>, name: Option<NameId>) -> bool
    ensures { result ≡ are_same numbers own name }
{
    match (own, name) {
        (Some(own), Some(name)) => own == name,
        _ => false,
    }
}

/// How a node of this kind is made by a token that begins here, where the first character of a text is that the token makes.
fn making_of(at: u64, first: u64, kind: NodeKind, own: bool) -> Origin
    ensures { result ≡ making_of at first (Some kind) own }
{
    let (at, in_source) = match kind {
        NodeKind::Text => (first, true),
        NodeKind::Element => (at, own),
        _ => (at, true),
    };
    Origin {
        at,
        in_source,
        again_of: None,
    }
}

impl Maker {
    /// How it made a node: its own element is the last node that its step made, if that has its name.
    fn making(&self, tree: &Tree, node: NodeId) -> Origin
        requires { node < tree.now.made }
        ensures { result ≡ making numbers self.now.at self.now.first self.now.own tree.now node }
    {
        let is_last = node.index() + 1 == tree.made() as usize;
        let own = is_last && are_same(self.own, tree.name(node));
        making_of(self.at, self.first, tree.kind(node), own)
    }

    /// Adds how the nodes of the tree were made that the list does not have.
    #[tactic(auto, using(crate::proofs::NodesMade::one_more, crate::proofs::NodesMade::none_left))]
    pub(crate) fn add(&self, tree: &Tree, list: &mut Vec<Origin>) -> Result<(), AllocError>
        ensures { IfOk result (λ u. list.new.items ≡ with_made numbers self.now.at self.now.first self.now.own tree.now list.old.items) }
    {
        while let Some(node) = tree.node(list.len()) {
            list.push(self.making(tree, node))?;
        }
        Ok(())
    }
}

/// Notes in a list that an element was made again of another.
#[tactic(auto, using(crate::proofs::NodesMade::noted_in, crate::proofs::NodesMade::noted_out))]
pub(crate) fn note_again(list: &mut [Origin], element: NodeId, of: NodeId)
    ensures { list.new ≡ noted (element, of) list.old }
{
    let index = element.index();
    if index < list.len() {
        let at = list[index].at;
        list[index] = Origin {
            at,
            in_source: false,
            again_of: Some(of),
        };
    }
}
