//! The adoption agency algorithm (HTML Standard, `#adoption-agency-algorithm`), with the numbers of its steps.

ghost use Rattle.std.specs.Prelude.{◌≡◌, ℕ, ◌<◌, ◌≤◌, ◌+◌, IfOk, None, ◌*◌, OnOk, true, false};
ghost use Rattle.std.specs.Option.{option_map};
ghost use Rattle.hadopt.specs.Vocabulary.{most_kept, node_replaced, inner_turn, inner_loop, after_inner_loop, with_furthest_block, with_formatting_element, outer_turn, outer_loop, is_unlisted, AfterInnerLoop};
ghost use Rattle.hadopt.specs.Vocabulary.{WithFurthestBlock, AreDifferent, inner_loop_of, InnerLoopGives, TurnGives, IsPlace, graft, place_node, element, IsOutside};
ghost use Rattle.hadopt.specs.Vocabulary.{without, open_of, is_node, is_open, Gives, made, Goes, stack, trees, with_stack, with_trees, before, furthest_block, entry_is, numbers, and_then};
ghost use Rattle.hadopt.specs.Vocabulary.{adopted, IsSound, changed, item_put_before, EntryOf, InPlace, move_all, above, is_in_scope, stops_node, tag_of, Default};

use crate::listing::copy;
use crate::site::Site;
use hnodes::{NodeId, Place};
use hopen::{Bookmark, Entry, Open};
use names::{ErrorCode, NameId, Refusal};
use std::alloc::AllocError;

/// How a turn of the outer loop ends: another one comes, or the algorithm returns.
#[derive(Clone, Copy)]
pub(crate) enum Turn {
    Next,
    Ended,
}

/// Between two turns of the inner loop: the last node, and the bookmark.
#[derive(Clone, Copy)]
pub(crate) struct InnerLoop {
    pub(crate) last_node: NodeId,
    pub(crate) bookmark: Bookmark,
}

/// How many turns of the inner loop leave the node its entry (step 4.13.4).
const MOST_KEPT: usize = 3;

/// How many turns the outer loop has at most (step 4.1).
const MOST_TURNS: usize = 8;

impl Site {
    /// Steps 4.13.6 to 4.13.9: the node gives way to a new one, which is the last node then.
    fn replace_node(
        &mut self,
        inner: InnerLoop,
        furthest_block: NodeId,
        node: NodeId,
        entry: Entry,
        at: u64,
    ) -> Result<InnerLoop, Refusal>
        requires begun { 0 < inner.last_node }
        requires last_in { inner.last_node < self.old.nodes.made }
        ensures done { (name : ℕ) → InnerLoopGives result self.new
            (and_then (made at (element (entry_is entry).name (entry_is entry).attrs) self.old)
            (λ t. Goes (node_replaced furthest_block self.old.nodes.made (record { node = node; name = name }) (entry_is entry) (inner_loop_of inner t)))) }
        ensures last_node { IfOk result (λ c. (0 < c.last_node) × (c.last_node < self.new.nodes.made)) }
        ensures few { self.new.nodes.made ≤ self.old.nodes.made + 1 }
    {
        let new = self.create_sharing(entry.name, entry.attrs, at)?;
        self.note_again(new, entry.node)?;
        // Step 4.13.8
        self.graft(inner.last_node, Place::LastIn(new));
        // Step 4.13.6
        let name = entry.name;
        self.replace(node, Open { node: new, name })?;
        self.list.replace(node, new);
        // Step 4.13.7
        let bookmark = if inner.last_node == furthest_block {
            Bookmark::After(new)
        } else {
            inner.bookmark
        };
        Ok(InnerLoop {
            last_node: new,
            bookmark,
        })
    }

    /// Steps 4.13.4 to 4.13.9: a turn of the inner loop with a node, after this many turns.
    fn inner_turn(
        &mut self,
        inner: InnerLoop,
        furthest_block: NodeId,
        passed: usize,
        node: Open,
        at: u64,
    ) -> Result<InnerLoop, Refusal>
        requires begun { 0 < inner.last_node }
        requires last_in { inner.last_node < self.old.nodes.made }
        ensures done { InnerLoopGives result self.new (inner_turn numbers at furthest_block passed (open_of node) (inner_loop_of inner self.old)) }
        ensures last_node { IfOk result (λ c. (0 < c.last_node) × (c.last_node < self.new.nodes.made)) }
        ensures few { self.new.nodes.made ≤ self.old.nodes.made + 1 }
        ensures none { most_kept ≤ passed → self.new.nodes.made ≡ self.old.nodes.made }
    {
        if passed >= MOST_KEPT {
            // Step 4.13.4
            self.remove_entry(node.node);
        } else if let Some(entry) = copy(self.list.entry_of(node.node))? {
            return self.replace_node(inner, furthest_block, node.node, entry, at);
        }
        // Step 4.13.5
        self.leave(node.node);
        Ok(inner)
    }

    /// Steps 4.10 to 4.13: the inner loop, up from the furthest block to the formatting element.
    fn inner_loop(
        &mut self,
        formatting_element: NodeId,
        furthest_block: NodeId,
        at: u64,
    ) -> Result<InnerLoop, Refusal>
        requires begun { 0 < furthest_block }
        requires block_in { furthest_block < self.old.nodes.made }
        requires different { AreDifferent self.old }
        ensures done { InnerLoopGives result self.new
            (inner_loop numbers at furthest_block 0 (before (is_node formatting_element) (above furthest_block self.old.open_nodes.stack))
            (record { last_node = furthest_block; bookmark = InPlace; site = self.old })) }
        ensures last_node { IfOk result (λ c. (0 < c.last_node) × (c.last_node < self.new.nodes.made)) }
        ensures few { self.new.nodes.made ≤ self.old.nodes.made + most_kept }
    {
        let mut inner = InnerLoop {
            last_node: furthest_block,
            bookmark: Bookmark::InPlace,
        };
        let mut passed = 0;
        // Step 4.13.2
        let mut next = self.stack.above(furthest_block);
        while let Some(node) = next {
            // Step 4.13.3
            if node.node == formatting_element {
                return Ok(inner);
            }
            next = self.stack.above(node.node);
            inner = self.inner_turn(inner, furthest_block, passed, node, at)?;
            // Step 4.13.1
            passed = MOST_KEPT.min(passed + 1);
        }
        Ok(inner)
    }

    /// Steps 4.14 to 4.19: the last node goes to its place, and a new element comes in place of the formatting element.
    fn after_inner_loop(
        &mut self,
        formatting_element: Entry,
        furthest_block: NodeId,
        common_ancestor: Option<Open>,
        inner: InnerLoop,
        at: u64,
    ) -> Result<(), Refusal>
        requires { AfterInnerLoop formatting_element.node furthest_block (option_map open_of common_ancestor) (inner_loop_of inner self.old) }
        ensures done { Gives result self.new
            (after_inner_loop numbers at (entry_is formatting_element) furthest_block (option_map open_of common_ancestor) (inner_loop_of inner self.old)) }
        ensures few { self.new.nodes.made ≤ self.old.nodes.made + 1 }
    {
        // Step 4.14
        let place = self.place_in(common_ancestor);
        self.graft(inner.last_node, place);
        // Step 4.15
        let new = self.create_sharing(formatting_element.name, formatting_element.attrs, at)?;
        self.note_again(new, formatting_element.node)?;
        // Steps 4.16 and 4.17
        self.move_children(furthest_block, new);
        self.graft(new, Place::LastIn(furthest_block));
        // Step 4.19
        let (leaving, name) = (formatting_element.node, formatting_element.name);
        self.exchange(leaving, furthest_block, Open { node: new, name })?;
        // Step 4.18
        self.move_to_bookmark(formatting_element.node, new, inner.bookmark);
        Ok(())
    }

    /// Steps 4.9 to 4.19: a turn of the outer loop with a furthest block.
    fn with_furthest_block(
        &mut self,
        formatting_element: Entry,
        furthest_block: NodeId,
        at: u64,
    ) -> Result<Turn, Refusal>
        requires stands { WithFurthestBlock formatting_element.node furthest_block self.old }
        ensures done { (name : ℕ) → TurnGives result self.new
            (with_furthest_block numbers at (entry_is formatting_element) self.old (record { node = furthest_block; name = name })) }
        ensures few { self.new.nodes.made ≤ self.old.nodes.made + 4 }
    {
        let common_ancestor = self.stack.above(formatting_element.node);
        let InnerLoop {
            last_node,
            bookmark,
        } = self.inner_loop(formatting_element.node, furthest_block, at)?;
        self.after_inner_loop(
            formatting_element,
            furthest_block,
            common_ancestor,
            InnerLoop {
                last_node,
                bookmark,
            },
            at,
        )?;
        Ok(Turn::Next)
    }

    /// Steps 4.4 and 4.5: a formatting element that is not in scope is an error. If it is not even open, its entry is removed.
    fn out_of_scope(&mut self, node: NodeId, at: u64) -> Result<Turn, Refusal>
        requires not_in_scope { is_in_scope (stops_node tag_of Default) (is_node node) (stack self.old) ≡ false }
        ensures done { (f : EntryOf ℕ) → TurnGives result self.new (with_formatting_element numbers at (record f { node = node }) self.old) }
        ensures nodes { self.new.nodes ≡ self.old.nodes }
    {
        self.error(ErrorCode::TreeInBody, at)?;
        if !self.is_open(node) {
            self.remove_entry(node);
        }
        Ok(Turn::Ended)
    }

    /// Steps 4.6 and 4.8: the end of a turn without a furthest block.
    fn without_furthest_block(&mut self, node: NodeId, at: u64) -> Result<Turn, Refusal>
        requires in_scope { is_in_scope (stops_node tag_of Default) (is_node node) (stack self.old) ≡ true }
        requires no_block { furthest_block tag_of node (stack self.old) ≡ None }
        ensures done { (f : EntryOf ℕ) → TurnGives result self.new (with_formatting_element numbers at (record f { node = node }) self.old) }
        ensures nodes { self.new.nodes ≡ self.old.nodes }
    {
        let found = self.is_current(node);
        self.error_unless(found, at)?;
        self.pop_to_node(node);
        self.remove_entry(node);
        Ok(Turn::Ended)
    }

    /// Steps 4.3 to 4.19: a turn of the outer loop. Its formatting element is the node of the last entry of the subject's name after the last
    /// marker. Only a turn with a furthest block copies the entry. The formatting element is above that block, so it is not the current
    /// node, which is an error (step 4.6).
    fn outer_turn(&mut self, subject: NameId, at: u64) -> Result<Turn, Refusal>
        requires { IsSound numbers self.old }
        ensures done { TurnGives result self.new (outer_turn numbers at subject self.old) }
        ensures kept { IfOk result (λ _. IsSound numbers self.new) }
        ensures few { self.new.nodes.made ≤ self.old.nodes.made + 4 }
    {
        let Some(entry) = self.list.find(subject) else {
            self.other_end(subject, at)?;
            return Ok(Turn::Ended);
        };
        let node = entry.node;
        if !self.node_in_scope(node) {
            return self.out_of_scope(node, at);
        }
        match self.furthest_block(node) {
            Some(furthest_block) => {
                let formatting_element = entry.copy()?;
                self.error(ErrorCode::TreeInBody, at)?;
                self.with_furthest_block(formatting_element, furthest_block.node, at)
            }
            None => self.without_furthest_block(node, at),
        }
    }

    /// Step 2: whether the current node has the subject's name and no entry.
    fn is_unlisted(&self, subject: NameId) -> bool
        ensures { (at : ℕ) → result ≡ is_unlisted numbers at subject self.now }
    {
        match self.stack.current() {
            Some(top) => top.name == subject && self.list.entry_of(top.node).is_none(),
            None => false,
        }
    }

    /// Steps 3, 4.1 and 4.2: up to `most` turns.
    fn outer_loop(&mut self, most: usize, subject: NameId, at: u64) -> Result<(), Refusal>
        requires { IsSound numbers self.old }
        ensures done { Gives result self.new (outer_loop numbers at most subject self.old) }
        ensures kept { IfOk result (λ _. IsSound numbers self.new) }
        ensures few { self.new.nodes.made ≤ self.old.nodes.made + most * 4 }
    {
        let mut left = most;
        while left > 0 {
            if let Turn::Ended = self.outer_turn(subject, at)? {
                return Ok(());
            }
            left -= 1;
        }
        Ok(())
    }

    /// The adoption agency for a subject, the name of a tag (step 1). It makes at most 32 elements, also where it is refused.
    pub fn adopt(&mut self, subject: NameId, at: u64) -> Result<(), Refusal>
        requires { IsSound numbers self.old }
        ensures done { Gives result self.new (adopted numbers at subject self.old) }
        ensures kept { IfOk result (λ _. IsSound numbers self.new) }
        ensures few { self.new.nodes.made ≤ self.old.nodes.made + 32 }
    {
        // Step 2
        if self.is_unlisted(subject) {
            self.pop();
            return Ok(());
        }
        self.outer_loop(MOST_TURNS, subject, at)
    }

    #[inline(always)]
    pub(crate) fn graft(&mut self, child: NodeId, place: Place)
        requires child_in { child < self.old.nodes.made }
        requires place { IsPlace place self.old.nodes }
        requires not_document { 0 < child }
        requires not_inside { IsOutside (place_node place) child (trees self.old) }
        ensures { self.new ≡ with_trees (graft child place (trees self.old)) self.old }
    {
        self.tree.insert(child, place);
    }

    pub(crate) fn move_children(&mut self, from: NodeId, to: NodeId)
        requires from_in { from < self.old.nodes.made }
        requires to_in { to < self.old.nodes.made }
        requires not_inside { IsOutside to from (trees self.old) }
        ensures moved { self.new ≡ with_trees (move_all from to (trees self.old)) self.old }
        ensures outside { IsOutside from to (trees self.old) → IsOutside from to (trees self.new) }
    {
        self.tree.move_children(from, to);
    }

    fn replace(&mut self, replaced: NodeId, by: Open) -> Result<(), AllocError>
        requires begun { 0 < by.node }
        requires node_in { by.node < self.old.nodes.made }
        ensures done { OnOk result (self.new ≡ with_stack (changed (is_node replaced) (λ _. open_of by) (stack self.old)) self.old) }
        ensures nodes { self.new.nodes ≡ self.old.nodes }
    {
        self.stack.replace(replaced, by)
    }

    /// Removes an open node and inserts a new one right below another, which is never too deep.
    fn exchange(&mut self, leaving: NodeId, above: NodeId, new: Open) -> Result<(), AllocError>
        requires begun { 0 < new.node }
        requires node_in { new.node < self.old.nodes.made }
        requires leaving { is_open leaving (stack self.old) ≡ true }
        ensures done { OnOk result (self.new
            ≡ with_stack (item_put_before (is_node above) (open_of new) (without (is_node leaving) (stack self.old))) self.old) }
        ensures nodes { self.new.nodes ≡ self.old.nodes }
    {
        self.stack.exchange(leaving, above, new)
    }
}
