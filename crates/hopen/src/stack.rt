//! The stack of open elements (HTML Standard, `#the-stack-of-open-elements`).

ghost use Rattle.std.specs.Prelude.{◌≡◌, ◌<◌, ◌≤◌, ◌+◌, ◌-◌, ◌^◌, ◌↔◌, ◌⊎◌, [], ◌∷◌, OnOk, OnErr, IfErr, length, drop, take, reverse, nat_eq, true};
ghost use Rattle.std.specs.List.{find, list_all, slice_get};
ghost use Rattle.std.specs.Option.{option_map};
ghost use Rattle.hnodes.specs.Nearest.{after, without, changed, item_put_before};
ghost use Rattle.hopen.specs.Vocabulary.{above as above_of, current as current_of, furthest_block as furthest_block_of, in_scope as is_in_scope, is_in, is_named};
ghost use Rattle.hopen.specs.Vocabulary.{is_node, is_of, is_open, is_sought, is_special, may_stay_open, open_of, stops_in_scope as stops_node, stops_item};
ghost use Rattle.hopen.specs.Vocabulary.{tag_of, Default, Memory, TooDeep};

use crate::exchange::exchange;
use crate::kept::{KeptNode, LastLevels, append, replace};
use crate::leaving::{pop, remove};
use crate::name_sets::NameSet;
use crate::scope::{Group, Scope};
use crate::sought::{Sought, first_special, last_open, level_of, set_level};
use hnodes::NodeId;
use names::{NameId, Refusal};
use std::alloc::{AllocError, Global};
use std::marker::Model;

/// An open node and its name.
#[derive(Clone, Copy)]
pub struct Open {
    pub node: NodeId,
    pub name: NameId,
}

/// The open nodes with their names, from html down to the current node.
///
/// A node that leaves from above others leaves a hole, so none of these moves, but for the current one where a second hole is right above
/// it. No question searches the stack, but for `furthest_block` and `above`, which pass the slots from a node to the one that is asked for,
/// and for questions of scope or groups that come to a node that is open twice. A push and a pop take the same time at any depth,
/// amortized. So do `remove` and `replace` where the node is not special and open nowhere else, and has the name of the new one; `exchange`
/// then takes a step for each slot from the node that leaves down to the other. Else these three take a step for each slot below. A slot
/// takes 64 bytes; each of the two tables of levels takes 4 bytes for each number up to the greatest one. `push`, `replace` and `exchange`
/// alone allocate, and on an error they change nothing.
#[derive(Drop)]
pub struct OpenStack {
    items: Vec<KeptNode>,
    last: LastLevels,
    limit: u32,
}

impl Model for OpenStack {
    ghost use Rattle.std.specs.Prelude.{ℕ};
    ghost use Rattle.hopen.specs.Stack.{OpenNodes};
    ghost use Rattle.hopen.specs.Coding.{coded_open_nodes};

    ghost Value = { OpenNodes ℕ };

    ghost coded = { coded_open_nodes };

    ghost use Rattle.hopen.specs.StackView.{open_nodes_of, IsStanding};

    ghost view = { open_nodes_of };

    ghost invariant = { IsStanding };
}

impl OpenStack {
    /// A stack with no open node, on which at most `limit` may be open at a time.
    pub fn new(alloc: Global, limit: u32) -> Self
        ensures { result ≡ record { limit = limit; stack = [] } }
    {
        OpenStack {
            items: Vec::new(alloc),
            last: LastLevels {
                names: Vec::new(alloc),
                nodes: Vec::new(alloc),
                must_close: 0,
                holes: 0,
            },
            limit,
        }
    }

    /// How many nodes are open.
    pub fn len(&self) -> usize
        ensures number { result ≡ length self.now.stack }
        ensures fits { length self.now.stack ≤ self.now.limit }
    {
        self.items.len() - self.last.holes as usize
    }

    /// Opens a node, which becomes the current one. `at` is the byte offset of the token.
    #[inline(always)]
    pub fn push(&mut self, opened: Open, at: u64) -> Result<(), Refusal>
        ensures ok { OnOk result (self.new ≡ record self.old { stack = open_of opened ∷ self.old.stack }) }
        ensures full { (result ≡ Err (TooDeep at)) ↔ (self.old.limit ≤ length self.old.stack) }
        ensures refused { IfErr result (λ e. (e ≡ TooDeep at) ⊎ (e ≡ Memory)) }
        ensures err { OnErr result (self.new ≡ self.old) }
    {
        room(self.items.len(), self.last.holes, self.limit, at)?;
        self.last.make_room(opened.name, opened.node)?;
        append(&mut self.last, &mut self.items, opened)?;
        Ok(())
    }

    /// Pops the current node and returns it; `None` if no node is open.
    pub fn pop(&mut self) -> Option<Open>
        ensures popped { option_map open_of result ≡ current_of self.old.stack }
        ensures rest { self.new ≡ record self.old { stack = drop 1 self.old.stack } }
    {
        pop(&mut self.last, &mut self.items)
    }

    /// Pops nodes up to and including the nearest one with this name; all of them if there is none.
    pub fn pop_to(&mut self, name: NameId)
        ensures { self.new ≡ record self.old { stack = after (is_named nat_eq name) self.old.stack } }
    {
        self.close_to(&Sought::Name(name));
    }

    /// Pops nodes up to and including a node; all of them if it is not open.
    pub fn pop_to_node(&mut self, node: NodeId)
        ensures { self.new ≡ record self.old { stack = above_of node self.old.stack } }
    {
        self.close_to(&Sought::Node(node));
    }

    /// Pops nodes up to and including the nearest one of a group; all of them if there is none.
    pub fn pop_to_group(&mut self, group: Group)
        ensures { self.new ≡ record self.old { stack = after (is_of tag_of group) self.old.stack } }
    {
        self.close_to(&Sought::Group(group));
    }

    /// Removes a node; does nothing if it is not open.
    pub fn remove(&mut self, node: NodeId)
        ensures { self.new ≡ record self.old { stack = without (is_node node) self.old.stack } }
    {
        let level = self.last.of_node(node) as usize;
        if level > 0 {
            remove(&mut self.last, &mut self.items, level - 1);
        }
    }

    /// Puts another node in the place of an open one; does nothing if that is not open. It takes the same time at any depth where the
    /// names are the same and not special.
    pub fn replace(&mut self, node: NodeId, by: Open) -> Result<(), AllocError>
        ensures ok { OnOk result (self.new ≡ record self.old { stack = changed (is_node node) (λ _. open_of by) self.old.stack }) }
        ensures err { OnErr result (self.new ≡ self.old) }
    {
        let level = self.last.of_node(node) as usize;
        if level > 0 {
            self.last.make_room(by.name, by.node)?;
            replace(&mut self.last, &mut self.items, level - 1, by);
        }
        Ok(())
    }

    /// Takes a node out and puts a new one right below another, in place of it (the end of the adoption agency,
    /// `#adoption-agency-algorithm`). Where the new node has the name of the one that leaves, which is not special, this takes a step for
    /// each slot from the one that leaves down to the other.
    pub fn exchange(&mut self, leaving: NodeId, above: NodeId, new: Open) -> Result<(), AllocError>
        requires { is_open leaving self.old.stack ≡ true }
        ensures ok { OnOk result (self.new ≡ record self.old {
          stack = item_put_before (is_node above) (open_of new)
              (without (is_node leaving) self.old.stack);
        }) }
        ensures err { OnErr result (self.new ≡ self.old) }
    {
        if self.items.len() >= u32::MAX as usize {
            return Err(AllocError);
        }
        self.last.make_room(new.name, new.node)?;
        self.items.reserve(1)?;
        exchange(&mut self.last, &mut self.items, leaving, above, new);
        Ok(())
    }

    /// Whether a node is open.
    pub fn contains(&self, node: NodeId) -> bool
        ensures { result ≡ is_open node self.now.stack }
    {
        self.last.of_node(node) > 0
    }

    /// Whether an element of a name is in a scope (`#has-an-element-in-the-specific-scope`): going up from the current node, it is met
    /// before any scope boundary that is not itself sought.
    pub fn in_scope(&self, scope: Scope, name: NameId) -> bool
        ensures { result ≡ is_in_scope (stops_node tag_of scope) (is_named nat_eq name) self.now.stack }
    {
        self.is_nearer(Sought::Name(name), NameSet::Stops(scope))
    }

    /// Whether, going up from the current node, an element of a name is met before any other special element: the search of "any other
    /// end tag" (`#parsing-main-inbody`).
    pub fn before_special(&self, name: NameId) -> bool
        ensures { result ≡ is_in_scope (λ x. is_special (tag_of x.name)) (is_named nat_eq name) self.now.stack }
    {
        self.is_nearer(Sought::Name(name), NameSet::Special)
    }

    /// Whether, going up from the current node, an element of a name is met before a special one other than address, div and p: the
    /// search of the start tags li, dd and dt (`#parsing-main-inbody`).
    pub fn item_is_near(&self, name: NameId) -> bool
        ensures { result ≡ is_in_scope (λ x. stops_item (tag_of x.name)) (is_named nat_eq name) self.now.stack }
    {
        self.is_nearer(Sought::Name(name), NameSet::StopsItem)
    }

    /// Whether each open node may be open at the end of the body (`#parsing-main-inbody`).
    pub fn all_may_stay_open(&self) -> bool
        ensures { result ≡ list_all (λ x. may_stay_open (tag_of x.name)) self.now.stack }
    {
        self.last.must_close == 0
    }

    /// Whether a node is in scope, without further words.
    pub fn node_in_scope(&self, node: NodeId) -> bool
        ensures { result ≡ is_in_scope (stops_node tag_of Default) (is_node node) self.now.stack }
    {
        self.is_nearer(Sought::Node(node), NameSet::Stops(Scope::Default))
    }

    /// Whether an element of a group is in a scope.
    pub fn group_in_scope(&self, scope: Scope, group: Group) -> bool
        ensures { result ≡ is_in_scope (stops_node tag_of scope) (is_of tag_of group) self.now.stack }
    {
        self.is_nearer(Sought::Group(group), NameSet::Stops(scope))
    }

    /// The current node.
    pub fn current(&self) -> Option<Open>
        ensures { option_map open_of result ≡ current_of self.now.stack }
    {
        Some(self.items.last()?.opened)
    }

    /// The open node with `down` nodes above it: 0 is the topmost, html.
    pub fn from_top(&self, down: usize) -> Option<Open>
        ensures { option_map open_of result ≡ slice_get (reverse self.now.stack) down }
    {
        let mut open = self.items.iter().filter(|item| !item.kind.is_hole());
        Some(open.nth(down)?.opened)
    }

    /// The nearest open node of a name.
    pub fn nearest(&self, name: NameId) -> Option<Open>
        ensures { option_map open_of result ≡ find (is_named nat_eq name) self.now.stack }
    {
        let level = level_of(&self.last, &self.items, Sought::Name(name)) as usize;
        if level == 0 {
            return None;
        }
        Some(self.items[level - 1].opened)
    }

    /// The nearest open node of a group below the topmost node.
    pub fn nearest_below_first(&self, group: Group) -> Option<Open>
        ensures { option_map open_of result ≡ find (is_of tag_of group) (take (length self.now.stack - 1) self.now.stack) }
    {
        let level = level_of(&self.last, &self.items, Sought::Group(group)) as usize;
        if level == 0 {
            return None;
        }
        last_open(&self.items[..level - 1])?;
        Some(self.items[level - 1].opened)
    }

    /// The open node right above a node; `None` if the node is the topmost or not open.
    pub fn above(&self, node: NodeId) -> Option<Open>
        ensures { option_map open_of result ≡ current_of (above_of node self.now.stack) }
    {
        let level = self.last.of_node(node) as usize;
        last_open(&self.items[..level.saturating_sub(1)])
    }

    /// The furthest block of a formatting element: the topmost special node below it (`#parsing-main-inbody`), or of all open nodes if it is not open.
    pub fn furthest_block(&self, formatting: NodeId) -> Option<Open>
        ensures { option_map open_of result ≡ furthest_block_of tag_of formatting self.now.stack }
    {
        let level = self.last.of_node(formatting) as usize;
        first_special(&self.items[level..])
    }

    /// Pops nodes up to and including the nearest that is sought; all of them if there is none.
    #[inline(always)]
    fn close_to(&mut self, sought: &Sought)
        ensures { self.new ≡ record self.old { stack = after (is_sought sought.now) self.old.stack } }
    {
        while let Some(node) = self.pop() {
            if sought.is(node) {
                return;
            }
        }
    }

    /// Going up from the current node, whether one that is sought is met before any other of a set.
    #[inline(always)]
    fn is_nearer(&self, sought: Sought, stops: NameSet) -> bool
        ensures { result ≡ is_in_scope (is_in stops) (is_sought sought) self.now.stack }
    {
        let level = level_of(&self.last, &self.items, sought);
        level > 0 && level >= set_level(&self.last, &self.items, stops)
    }
}

/// Checks that one more node may be open, where so many of the slots are holes, and that there may be one more slot.
#[inline(always)]
fn room(slots: usize, holes: u32, limit: u32, at: u64) -> Result<(), Refusal>
    requires { holes ≤ slots }
    ensures ok { OnOk result ((slots - holes < limit) × (slots + 1 < 2 ^ 32)) }
    ensures full { (result ≡ Err (TooDeep at)) ↔ (limit ≤ slots - holes) }
    ensures refused { IfErr result (λ e. (e ≡ TooDeep at) ⊎ (e ≡ Memory)) }
{
    if slots < limit as usize {
        return Ok(());
    }
    if slots - holes as usize >= limit as usize {
        return Err(Refusal::TooDeep { at });
    }
    if slots >= u32::MAX as usize {
        return Err(Refusal::Memory);
    }
    Ok(())
}
