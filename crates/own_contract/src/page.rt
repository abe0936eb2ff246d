//! A page without scripts, that is built a node at a time.

ghost use Rattle.std.specs.Prelude.{◌≡◌, ◌⊎◌, ◌≤◌, None, MatchOption, IfOk, OnOk, OnErr, ltb, if◌then◌else◌};
ghost use Rattle.std.specs.Str.{chars};
ghost use Rattle.hnodes.specs.Vocabulary.{add_chars, document, none, tree};
ghost use Rattle.hnodes.specs.declared.node.Place.TheVariants.{LastIn};
ghost use Rattle.own_contract.specs.Page.{HasNoScript, elements_inside, with_element};

use hnodes::{NodeId, Place, Tree};
use names::{Refusal, Tag};
use std::alloc::{AllocError, Global};
use std::marker::Model;

/// The most nodes of a page.
const MOST: u32 = 1000;

/// A page. Whatever is done with it, no element of it is a `script`.
#[derive(Drop)]
pub struct Page {
    tree: Tree,
}

impl Model for Page {
    ghost use Rattle.std.specs.Prelude.{ℕ};
    ghost use Rattle.hnodes.specs.Vocabulary.{coded_nodes, Nodes};
    ghost use Rattle.own_contract.specs.Page.{HasNoScript};

    ghost Value = { Nodes ℕ };

    ghost coded = { coded_nodes };

    ghost view = { λ page. page.tree };

    ghost invariant = { λ page. HasNoScript page.tree.trees };
}

impl Page {
    /// A page of the document alone.
    pub fn new(alloc: Global) -> Result<Page, AllocError>
        ensures { IfOk result (λ page. page ≡ record { limit = MOST; made = 1; trees = tree 0 document none none }) }
    {
        Ok(Page {
            tree: Tree::new(alloc, MOST)?,
        })
    }

    /// The tree, which has no script.
    pub fn tree(&self) -> &Tree
        ensures same { result.now ≡ self.now }
        ensures without { HasNoScript result.now.trees }
    {
        &self.tree
    }

    /// Puts an element without attributes at the end of a node, and returns it; nothing where it would be a `script` or an unknown name,
    /// or where the page has no such node. On an error nothing changes.
    pub fn put(
        &mut self,
        alloc: Global,
        tag: Tag,
        parent: NodeId,
    ) -> Result<Option<NodeId>, Refusal>
        ensures put { IfOk result (λ it. MatchOption it (self.new ≡ self.old)
            (λ node. (node ≡ self.old.made) × (self.new ≡ with_element tag parent self.old))) }
        ensures left_out { IfOk result (λ it. it ≡ None → (tag ≡ Tag.Script) ⊎ (tag ≡ Tag.Other) ⊎ (self.old.made ≤ parent)) }
        ensures err { OnErr result (self.new ≡ self.old) }
    {
        if tag == Tag::Script || tag == Tag::Other || !self.tree.has(parent) {
            return Ok(None);
        }
        let node = self.tree.create_element(tag.number(), Vec::new(alloc), 0)?;
        self.tree.append(node, parent);
        Ok(Some(node))
    }

    /// Puts a text at the end of a node, if it is one of the page. On an error nothing changes.
    pub fn put_text(&mut self, text: &str, parent: NodeId) -> Result<(), Refusal>
        ensures page { OnOk result
            (self.new ≡ (if ltb parent self.old.made then add_chars (chars text.now) (LastIn parent) self.old else self.old)) }
        ensures err { OnErr result (self.new ≡ self.old) }
    {
        if !self.tree.has(parent) {
            return Ok(());
        }
        self.tree.put_text(text, Place::LastIn(parent), 0)
    }
    /// How many elements are inside the document.
    pub fn elements(&self) -> usize
        ensures { result ≡ elements_inside 0 self.now.trees }
    {
        // So the count fits.
        prove!(self.tree.made() <= u32::MAX);
        let mut count = 0;
        for node in self.tree.descendants(self.tree.document()) {
            if self.tree.name(node).is_some() {
                count += 1;
            }
        }
        count
    }
}
