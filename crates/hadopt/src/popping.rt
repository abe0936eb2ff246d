//! What is popped and closed (HTML Standard, `#closing-elements-that-have-implied-end-tags` and `#parsing-main-inbody`, and the contexts of
//! `#parsing-main-intable`, `#parsing-main-intbody` and `#parsing-main-intr`).

ghost use Rattle.std.specs.Prelude.{◌≡◌, IfOk, nat_eq, drop};
ghost use Rattle.hadopt.specs.Vocabulary.{closed, closed_p, other_end, popped_past, popped_to, passes, is_named, Gives, IsSound, numbers, Goes, without, open_of, is_of, is_node, tag_of, stack, with_stack};

use crate::site::Site;
use hnodes::NodeId;
use hopen::{Group, Open, OpenStack};
use names::{ErrorCode, NameId, Refusal, Tag};

/// Which open nodes are popped, up to the first that is not one of them.
#[derive(Clone, Copy)]
pub enum Passing {
    /// Those with implied end tags, except those with a name (`#generate-implied-end-tags`).
    Implied(Option<NameId>),
    /// All but table and html: clear the stack back to a table context (`#clear-the-stack-back-to-a-table-context`).
    Table,
    /// All but tbody, tfoot, thead and html: clear the stack back to a table body context (`#clear-the-stack-back-to-a-table-body-context`).
    Body,
    /// All but tr and html: clear the stack back to a table row context (`#clear-the-stack-back-to-a-table-row-context`).
    Row,
}

impl Passing {
    #[inline(always)]
    fn is(&self, node: Open) -> bool
        ensures { result ≡ passes self.now (open_of node) }
    {
        let tag = node.name.tag();
        match self {
            Passing::Implied(None) => tag.has_implied_end(),
            Passing::Implied(Some(kept)) => tag.has_implied_end() && node.name != *kept,
            Passing::Table => !matches!(tag, Tag::Table | Tag::Html),
            Passing::Body => !matches!(tag, Tag::Tbody | Tag::Tfoot | Tag::Thead | Tag::Html),
            Passing::Row => !matches!(tag, Tag::Tr | Tag::Html),
        }
    }
}

#[inline(always)]
fn pop_past(stack: &mut OpenStack, passing: Passing)
    ensures { stack.new ≡ record stack.old { stack = popped_past (passes passing) stack.old.stack } }
{
    while let Some(top) = stack.current() {
        if !passing.is(top) {
            return;
        }
        stack.pop();
    }
}

impl Site {
    /// Pops nodes up to the first that does not pass.
    #[inline(always)]
    pub fn pop_past(&mut self, passing: Passing)
        ensures site { self.new ≡ with_stack (popped_past (passes passing) (stack self.old)) self.old }
        ensures kept { IsSound numbers self.old → IsSound numbers self.new }
    {
        pop_past(&mut self.stack, passing);
    }

    /// Pops the current node, if there is one.
    pub fn pop(&mut self)
        ensures site { self.new ≡ with_stack (drop 1 (stack self.old)) self.old }
        ensures kept { IsSound numbers self.old → IsSound numbers self.new }
    {
        self.stack.pop();
    }

    /// Pops nodes up to and including the nearest one with a name; all of them if there is none.
    pub fn pop_to(&mut self, name: NameId)
        ensures site { self.new ≡ popped_to (is_named nat_eq name) self.old }
        ensures kept { IsSound numbers self.old → IsSound numbers self.new }
    {
        self.stack.pop_to(name);
    }

    /// Pops nodes up to and including the nearest one of a group; all of them if there is none.
    pub fn pop_to_group(&mut self, group: Group)
        ensures site { self.new ≡ popped_to (is_of tag_of group) self.old }
        ensures kept { IsSound numbers self.old → IsSound numbers self.new }
    {
        self.stack.pop_to_group(group);
    }

    pub(crate) fn pop_to_node(&mut self, node: NodeId)
        ensures { self.new ≡ popped_to (is_node node) self.old }
    {
        self.stack.pop_to_node(node);
    }

    /// Removes a node from the stack, if it is open.
    pub fn leave(&mut self, node: NodeId)
        ensures site { self.new ≡ with_stack (without (is_node node) (stack self.old)) self.old }
        ensures kept { IsSound numbers self.old → IsSound numbers self.new }
    {
        self.stack.remove(node);
    }

    /// Closes the nearest element of a name: nodes with implied end tags are popped, but for its own name, then it is an error unless
    /// it is the current node, and nodes are popped up to and including it.
    pub fn close(&mut self, name: NameId, at: u64) -> Result<(), Refusal>
        ensures done { Gives result self.new (Goes (closed numbers at (is_named nat_eq name) self.old)) }
        ensures kept { IsSound numbers self.old → IfOk result (λ _. IsSound numbers self.new) }
        ensures nodes { self.new.nodes ≡ self.old.nodes }
    {
        self.pop_past(Passing::Implied(Some(name)));
        let found = self.current_is(name);
        self.error_unless(found, at)?;
        self.pop_to(name);
        Ok(())
    }

    /// Closes a p element (`#close-a-p-element`).
    pub fn close_p(&mut self, at: u64) -> Result<(), Refusal>
        ensures done { Gives result self.new (Goes (closed_p numbers at self.old)) }
        ensures kept { IsSound numbers self.old → IfOk result (λ _. IsSound numbers self.new) }
    {
        self.close(Tag::P.number(), at)
    }

    /// Any other end tag: closes the nearest element of the name, or ignores the tag where a special one comes before it.
    pub fn other_end(&mut self, name: NameId, at: u64) -> Result<(), Refusal>
        ensures done { Gives result self.new (Goes (other_end numbers at name self.old)) }
        ensures kept { IsSound numbers self.old → IfOk result (λ _. IsSound numbers self.new) }
        ensures nodes { self.new.nodes ≡ self.old.nodes }
    {
        if !self.stack.before_special(name) {
            return self.error(ErrorCode::TreeInBody, at);
        }
        self.close(name, at)
    }
}
