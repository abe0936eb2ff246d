//! The site that the tree rules edit: nodes, open elements, formatting elements, foster parenting, parse errors.

ghost use Rattle.std.specs.Prelude.{◌≡◌, ◌<◌, IfOk, OnOk, false, []};
ghost use Rattle.hadopt.specs.Vocabulary.{document, none, tree, Gives, IsSound, numbers, Goes, with_error, with_again, error_unless, TreeInBody};

use hnodes::{NodeId, Tree};
use hopen::{Formatting, OpenStack};
use names::{ErrorCode, Keys, ParseError, Refusal};
use std::alloc::{AllocError, Global};
use std::marker::Model;

/// The nodes, the stack of open elements, the list of active formatting elements, whether foster parenting is on, the parse
/// errors so far, in the order in which they were raised, and which elements were made again. No call recurses over the depth of
/// the document. After a refusal the nodes are a tree and the open nodes are among them; of the state then only a few clauses say more.
#[derive(Drop)]
pub struct Site {
    pub(crate) tree: Tree,
    pub(crate) stack: OpenStack,
    pub(crate) list: Formatting,
    pub(crate) foster: bool,
    errors: Vec<ParseError>,
    again: Vec<(NodeId, NodeId)>,
    pub(crate) alloc: Global,
}

impl Model for Site {
    ghost use Rattle.std.specs.Prelude.{ℕ};
    ghost use Rattle.hadopt.specs.Site.{SiteOf};
    ghost use Rattle.hadopt.specs.Made.{AreMade};
    ghost use Rattle.std.specs.Coded.{codes};
    ghost use Rattle.hnodes.specs.Coding.{coded_forest};

    ghost Value = { SiteOf ℕ };

    ghost coded = { Prim.hlevel (codes, coded_forest) };

    ghost view = { λ s. record { nodes = s.tree; open_nodes = s.stack; items = s.list; foster = s.foster; errors = s.errors.items; again = s.again.items } };

    ghost invariant = { λ s. AreMade s.tree.made s.stack.stack };
}

impl Site {
    /// The document alone: no open nodes, no entries, no errors. At most `most_nodes` may be made, the document among them, and at
    /// most `most_open` may be open at a time. The keys are those of the list of active formatting elements.
    pub fn new(
        alloc: Global,
        keys: Keys,
        most_nodes: u32,
        most_open: u32,
    ) -> Result<Self, AllocError>
        requires { 0 < most_nodes }
        ensures site { IfOk result (λ s. s ≡ record {
          nodes = record { limit = most_nodes; made = 1; trees = tree 0 document none none };
          open_nodes =
              record { limit = most_open; stack = [] };
          items = [];
          foster = false;
          errors = [];
          again = [];
        }) }
        ensures kept { IfOk result (λ s. IsSound numbers s) }
    {
        Ok(Site {
            tree: Tree::new(alloc, most_nodes)?,
            stack: OpenStack::new(alloc, most_open),
            list: Formatting::new(alloc, keys),
            foster: false,
            errors: Vec::new(alloc),
            again: Vec::new(alloc),
            alloc,
        })
    }

    /// Switches foster parenting on or off.
    pub fn set_foster(&mut self, on: bool)
        ensures site { self.new ≡ record self.old { foster = on } }
        ensures kept { IsSound numbers self.old → IsSound numbers self.new }
    {
        self.foster = on;
    }

    /// Whether foster parenting is on.
    pub fn fosters(&self) -> bool
        ensures { result ≡ self.now.foster }
    {
        self.foster
    }

    /// Adds a parse error. `at` is the byte offset of the token.
    pub fn error(&mut self, code: ErrorCode, at: u64) -> Result<(), Refusal>
        ensures done { Gives result self.new (Goes (with_error code at self.old)) }
        ensures kept { IsSound numbers self.old → IfOk result (λ _. IsSound numbers self.new) }
        ensures nodes { self.new.nodes ≡ self.old.nodes }
    {
        self.errors.push(ParseError { code, at })?;
        Ok(())
    }

    /// Adds the error of a tag that is not expected, unless a test passes.
    pub(crate) fn error_unless(&mut self, passes: bool, at: u64) -> Result<(), Refusal>
        ensures done { Gives result self.new (Goes (error_unless passes TreeInBody at self.old)) }
        ensures nodes { self.new.nodes ≡ self.old.nodes }
    {
        if passes {
            return Ok(());
        }
        self.error(ErrorCode::TreeInBody, at)
    }

    /// Notes that an element is another one made again: it was made for the entry of that in the list of active formatting elements.
    pub(crate) fn note_again(&mut self, new: NodeId, old: NodeId) -> Result<(), AllocError>
        ensures done { OnOk result (self.new ≡ with_again new old self.old) }
        ensures nodes { self.new.nodes ≡ self.old.nodes }
    {
        self.again.push((new, old))?;
        Ok(())
    }

    /// The tree.
    pub fn tree(&self) -> &Tree
        ensures { result.now ≡ self.now.nodes }
    {
        &self.tree
    }

    /// The list of active formatting elements.
    pub fn formatting(&self) -> &Formatting
        ensures { result.now ≡ self.now.items }
    {
        &self.list
    }

    /// The parse errors so far.
    pub fn errors(&self) -> &[ParseError]
        ensures { result.now ≡ self.now.errors }
    {
        &self.errors
    }

    /// The tree, the parse errors, and the elements that were made again, in order, each with the element whose entry in the list of
    /// active formatting elements it was made for.
    pub fn into_parts(self) -> (Tree, Vec<ParseError>, Vec<(NodeId, NodeId)>)
        ensures tree { result.0 ≡ self.nodes }
        ensures errors { result.1.items ≡ self.errors }
        ensures again { result.2.items ≡ self.again }
    {
        (self.tree, self.errors, self.again)
    }
}
