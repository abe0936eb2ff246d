//! Nodes and their numbers.

ghost use Rattle.std.specs.Prelude.{◌≡◌, Some, None, OnOk, OnErr, IfOk, ◌++◌, ◌∷◌, [], ◌<◌, map};
ghost use Rattle.hnodes.specs.Vocabulary.{attribute_of, content_is, element, given_is, text, with_attribute, with_text};
ghost use Rattle.hnodes.specs.Vocabulary.{Holds, IsGrown, IsKept, Store};

use crate::attributes::{Indexed, taken};
use crate::attrs_view::Attrs;
use crate::shared::{Attributes, Listed};
use crate::store::{Run, Store};
use names::{Attr, NameId};
use std::alloc::{AllocError, Global};
use std::marker::Model;
use std::rc::Rc;

/// The number of a node of one tree, in the order in which its nodes were made. The document is the first, 0.
#[derive(Clone, Copy, Debug, PartialEq, Eq, PartialOrd, Ord, Hash)]
pub struct NodeId {
    pub(crate) number: u32,
}

impl Model for NodeId {
    ghost use Rattle.std.specs.Prelude.{ℕ};

    ghost Value = { ℕ };

    ghost view = { λ n. n.number };

    ghost inverse = { λ n. record { number = n } };
}

impl NodeId {
    /// The number itself, as an index into a table of the nodes made.
    pub fn index(self) -> usize
        ensures { result ≡ self }
    {
        self.number as usize
    }
}

/// The kind of a node.
#[derive(Clone, Copy, Debug, PartialEq, Eq)]
pub enum NodeKind {
    Document,
    Doctype,
    Element,
    Comment,
    Text,
}

/// Where a node goes among the children of another (`#creating-and-inserting-nodes`).
#[derive(Clone, Copy, Debug, PartialEq, Eq)]
pub enum Place {
    /// After the last child of a node.
    LastIn(NodeId),
    /// Right before a node.
    Before(NodeId),
}

/// A doctype's name and identifiers; one that is missing is empty.
#[derive(Drop)]
pub struct DocumentType {
    pub name: String,
    pub public_id: String,
    pub system_id: String,
}

/// What a node is.
#[derive(Drop)]
pub(crate) enum NodeData {
    Document,
    Doctype(Box<DocumentType>),
    /// An element, whose attributes are in the store.
    Element(NameId, Run),
    /// An element that had more than `FEW_ATTRIBUTES` when it was made, or that got others.
    Wide(NameId, Box<Indexed>),
    /// An element that was made with attributes that others may have too.
    Shared(NameId, Rc<Listed>),
    /// A comment, whose data are in the store.
    Comment(Run),
    /// A comment whose data do not fit there.
    LongComment(Box<String>),
    /// A text in the store.
    Text(Run),
    /// A text that went on when others were in the store after it.
    Long(Box<String>),
}

/// A link to a node, or none, in four bytes.
#[derive(Clone, Copy)]
pub(crate) struct NodeLink {
    /// 0 for none; one more than the number of the node.
    raw: u32,
}

impl Model for NodeLink {
    ghost use Rattle.std.specs.Prelude.{ℕ, Option};
    ghost use Rattle.hnodes.specs.Raw.{link_of, raw_of, raw_back};

    ghost Value = { Option ℕ };

    ghost view = { λ l. link_of l.raw };

    ghost inverse = { λ o. record { raw = raw_of o } };

    ghost inverse_ok = { λ a h. λ i. record { raw = raw_back a.raw i } };
}

impl NodeLink {
    pub(crate) fn none() -> Self
        ensures { result ≡ None }
    {
        NodeLink { raw: 0 }
    }

    pub(crate) fn to(node: NodeId) -> Self
        requires { node < u32.MAX }
        ensures { result ≡ Some node }
    {
        let raw = node.number + 1;
        NodeLink { raw }
    }

    pub(crate) fn get(self) -> Option<NodeId>
        ensures { result ≡ self }
    {
        let number = self.raw.checked_sub(1)?;
        Some(NodeId { number })
    }
}

/// A node and its neighbours.
#[derive(Drop)]
pub(crate) struct Node {
    pub(crate) content: NodeData,
    pub(crate) parent: NodeLink,
    pub(crate) first: NodeLink,
    pub(crate) last: NodeLink,
    pub(crate) previous: NodeLink,
    pub(crate) next: NodeLink,
}

const _: () = prove!(std::mem::size_of::<Node>() == 40);

impl Node {
    pub(crate) fn loose(content: NodeData) -> Self
        ensures { result ≡ record { content = content; parent = None; first = None; last = None; previous = None; next = None } }
    {
        Node {
            content,
            parent: NodeLink::none(),
            first: NodeLink::none(),
            last: NodeLink::none(),
            previous: NodeLink::none(),
            next: NodeLink::none(),
        }
    }
}

/// What a new node is to hold.
#[derive(Drop)]
pub(crate) enum Given<'a> {
    Doctype(DocumentType),
    Element(NameId, &'a mut Vec<Attr>),
    Sharing(NameId, Attributes),
    /// An element of attributes that others share, of which a few are copied.
    Copied(NameId, &'a Attributes),
    Comment(String),
    Text(&'a str),
}

#[inline(always)]
pub(crate) fn content(given: Given, store: &mut Store) -> Result<NodeData, AllocError>
    ensures content { IfOk result (λ c. Holds store.new c (given_is given.entry)) }
    ensures grown { IsGrown store.old store.new }
{
    match given {
        Given::Doctype(texts) => Ok(NodeData::Doctype(Box::new(store.alloc, texts)?)),
        Given::Element(name, attrs) => element(name, attrs, store),
        Given::Sharing(name, attrs) => Ok(sharing(name, attrs)),
        Given::Copied(name, attrs) => match store.add_attrs(attrs.as_slice())? {
            Some(run) => Ok(NodeData::Element(name, run)),
            None => Ok(sharing(name, attrs.share()?)),
        },
        Given::Comment(text) => match store.texts.add(&text)? {
            Some(run) => Ok(NodeData::Comment(run)),
            None => Ok(NodeData::LongComment(Box::new(store.alloc, text)?)),
        },
        Given::Text(text) => match store.texts.add(text)? {
            Some(run) => Ok(NodeData::Text(run)),
            None => long_text("", text, store.alloc),
        },
    }
}

/// An element with these attributes, which leave the list.
#[inline(always)]
fn element(name: NameId, attrs: &mut Vec<Attr>, store: &mut Store) -> Result<NodeData, AllocError>
    ensures content { IfOk result (λ c. Holds store.new c (element name (map attribute_of attrs.old.items))) }
    ensures grown { IsGrown store.old store.new }
{
    if attrs.is_empty() {
        return Ok(NodeData::Element(name, Run::empty()));
    }
    if let Some(run) = store.add_attrs(attrs)? {
        attrs.clear();
        return Ok(NodeData::Element(name, run));
    }
    wide(name, taken(attrs, store.alloc)?, store.alloc)
}

#[inline(never)]
fn wide(name: NameId, attrs: Vec<Attr>, alloc: Global) -> Result<NodeData, AllocError>
    ensures { IfOk result (λ c. (store : Store) → Holds store c (element name (map attribute_of attrs.items))) }
{
    let indexed = Indexed::of(attrs, alloc)?;
    Ok(NodeData::Wide(name, Box::new(alloc, indexed)?))
}

#[inline(always)]
fn sharing(name: NameId, attrs: Attributes) -> NodeData
    ensures { (store : Store) → Holds store result (element name attrs) }
{
    match attrs.list {
        Some(list) => NodeData::Shared(name, list),
        None => NodeData::Element(name, Run::empty()),
    }
}

#[inline(never)]
fn long_text(start: &str, more: &str, alloc: Global) -> Result<NodeData, AllocError>
    ensures { IfOk result (λ c. (store : Store) → Holds store c (text (start.now ++ more.now))) }
{
    let mut long = String::with_capacity(alloc, start.len().saturating_add(more.len()))?;
    long.push_str(start)?;
    long.push_str(more)?;
    Ok(NodeData::Long(Box::new(alloc, long)?))
}

impl NodeData {
    /// Adds a text at the end of a text. One that is not the last of the store moves into a string of its own.
    #[inline(always)]
    pub(crate) fn add_text(&mut self, more: &str, store: &mut Store) -> Result<(), AllocError>
        requires { IsKept store.old self.old }
        ensures ok { OnOk result (Holds store.new self.new (with_text more.now (content_is store.old self.old))) }
        ensures err { OnErr result (Holds store.new self.new (content_is store.old self.old)) }
        ensures grown { IsGrown store.old store.new }
    {
        match self {
            NodeData::Text(run) => match store.lengthen(*run, more)? {
                Some(longer) => *run = longer,
                None => *self = long_text(store.texts.get(*run), more, store.alloc)?,
            },
            NodeData::Long(text) => text.push_str(more)?,
            _ => {}
        }
        Ok(())
    }

    /// Adds an attribute at the end of an element's, which get a list of their own.
    pub(crate) fn add_attr(&mut self, attr: Attr, store: &Store) -> Result<(), AllocError>
        requires { IsKept store.now self.old }
        ensures ok { OnOk result (Holds store.now self.new (with_attribute (attribute_of attr) (content_is store.now self.old))) }
        ensures err { OnErr result (Holds store.now self.new (content_is store.now self.old)) }
    {
        match self {
            NodeData::Element(name, run) => {
                let name = *name;
                *self = wide(
                    name,
                    with(store.attrs(*run), attr, store.alloc)?,
                    store.alloc,
                )?;
            }
            NodeData::Wide(_, indexed) => indexed.push(attr)?,
            NodeData::Shared(name, list) => {
                let name = *name;
                *self = wide(name, with(list.attrs(), attr, store.alloc)?, store.alloc)?;
            }
            _ => {}
        }
        Ok(())
    }

    /// Takes the names of an element's attributes into its index, if it has one.
    pub(crate) fn index(&mut self) -> Result<(), AllocError>
        ensures { (store : Store) → IsKept store self.old → Holds store self.new (content_is store self.old) }
    {
        if let NodeData::Wide(_, indexed) = self {
            indexed.index()?;
        }
        Ok(())
    }
}

fn with(attrs: Attrs, attr: Attr, alloc: Global) -> Result<Vec<Attr>, AllocError>
    ensures { IfOk result (λ own. map attribute_of own.items ≡ attrs.entry ++ attribute_of attr ∷ []) }
{
    let mut own = Vec::with_capacity(alloc, attrs.len())?;
    for (name, value) in attrs {
        own.push(Attr::new(name, value, alloc)?)?;
    }
    own.push(attr)?;
    Ok(own)
}
