//! What each call has at hand: a tree and names.

ghost use Rattle.std.specs.Prelude.{◌≡◌, ◌<◌};

use hnodes::{NodeId, Tree};
use hopen::Open;
use names::{Attr, Keys, NameId, Names};
use std::alloc::{AllocError, Global};

/// The place of the token that each call is made for, if a refusal names it.
pub const PLACE: u64 = 7;

/// A tree, whose nodes calls name by their numbers, and the names.
#[derive(Drop)]
pub struct Hand {
    pub alloc: Global,
    pub tree: Tree,
    pub names: Names,
}

impl Hand {
    /// The document alone.
    pub fn new(alloc: Global) -> Result<Self, AllocError> {
        Ok(Hand {
            alloc,
            tree: Tree::new(alloc, 1)?,
            names: Names::new(alloc, Keys::for_tests()),
        })
    }

    /// The node of a number; the document if there is none.
    pub fn node(&self, number: usize) -> NodeId
        ensures { result < self.now.tree.made }
    {
        self.tree.node(number).unwrap_or(self.tree.document())
    }

    /// The node and the name of two numbers.
    pub fn open(&mut self, node: usize, number: usize) -> Result<Open, AllocError> {
        let node = self.node(node);
        let name = self.name(number)?;
        Ok(Open { node, name })
    }

    /// The name of a number: html, or one that no rule knows.
    pub fn name(&mut self, number: usize) -> Result<NameId, AllocError>
        ensures { self.new.tree ≡ self.old.tree }
    {
        if number == 0 {
            return self.names.intern(self.alloc, "html");
        }
        let text = format!(in self.alloc; "name{number}")?;
        self.names.intern(self.alloc, &text)
    }

    /// The attribute with the name of a number, and a number for its value.
    pub fn attr(&mut self, number: usize, value: usize) -> Result<Attr, AllocError>
        ensures { self.new.tree ≡ self.old.tree }
    {
        let name = self.name(number)?;
        let value = format!(in self.alloc; "{value}")?;
        Attr::new(name, &value, self.alloc)
    }

    /// So many attributes, in one order or, every other time, in the other.
    pub fn attrs(&mut self, width: usize, turn: usize) -> Result<Vec<Attr>, AllocError> {
        let mut attrs = Vec::new(self.alloc);
        for number in 0..width {
            let back = width - 1 - number;
            let number = if turn % 2 == 0 { number } else { back };
            attrs.push(self.attr(number, 0)?)?;
        }
        Ok(attrs)
    }
}
