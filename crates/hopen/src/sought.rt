//! What is sought among the open nodes.

ghost use Rattle.std.specs.Prelude.{◌≡◌, ◌-◌, ◌≤◌, length, map, take};
ghost use Rattle.std.specs.List.{find};
ghost use Rattle.std.specs.Option.{option_map};
ghost use Rattle.hopen.specs.Vocabulary.{current, holds_one, is_in, is_sought, is_special, last_place, open_of, opened_by, slots_of, somes, stack_of, tag_of};
ghost use Rattle.hopen.specs.Vocabulary.{EndsOpen, LevelsStand};

use crate::kept::{KeptNode, LastLevels, sets_at_end};
use crate::name_sets::{NameSet, SetNodes};
use crate::scope::Group;
use crate::stack::Open;
use hnodes::NodeId;
use names::NameId;

#[derive(Clone, Copy)]
pub(crate) enum Sought {
    Node(NodeId),
    Name(NameId),
    Group(Group),
}

impl Sought {
    #[inline(always)]
    pub(crate) fn is(self, node: Open) -> bool
        ensures { result ≡ is_sought self (open_of node) }
    {
        match self {
            Sought::Node(sought) => node.node == sought,
            Sought::Name(name) => node.name == name,
            Sought::Group(group) => group.has(node.name.tag()),
        }
    }
}

pub(crate) fn first_special(items: &[KeptNode]) -> Option<Open>
    ensures { option_map open_of result ≡ find (λ x. is_special (tag_of x.name)) (somes (map opened_by items.now)) }
{
    let special = items.iter().find(|item| !item.kind.is_hole()
        && item.opened.name.tag().is_special())?;
    Some(special.opened)
}

pub(crate) fn last_open(items: &[KeptNode]) -> Option<Open>
    ensures { option_map open_of result ≡ current (stack_of items.now) }
{
    Some(items.iter().rev().find(|item| !item.kind.is_hole())?.opened)
}

/// The level of the nearest node whose name is in a set, of those down to a level, by a look at each.
#[inline(never)]
fn search(items: &[KeptNode], set: NameSet, from: u32) -> u32
    requires { from ≤ length items.now }
    ensures { result ≡ last_place (holds_one (is_in set)) (slots_of (take from items.now)) }
{
    let mut level = from;
    while level > 0 {
        let item = items[level as usize - 1];
        if !item.kind.is_hole() && SetNodes::none().with(item.opened.name.tag(), 1).of(set) > 0 {
            break;
        }
        level -= 1;
    }
    level
}

/// The level of the nearest node whose name is in a set; 0 if none is open. It searches only where that node is open twice.
#[inline(always)]
pub(crate) fn set_level(last: &LastLevels, items: &[KeptNode], set: NameSet) -> u32
    requires stands { LevelsStand last.now items.now }
    requires ends { EndsOpen (map opened_by items.now) }
    ensures { result ≡ last_place (holds_one (is_in set)) (slots_of items.now) }
{
    let node = sets_at_end(items).of(set) as usize;
    if node == 0 {
        return 0;
    }
    let level = last.nodes[node - 1];
    if items[level as usize - 1].same_node > 0 {
        return search(items, set, level);
    }
    level
}

#[inline(always)]
pub(crate) fn level_of(last: &LastLevels, items: &[KeptNode], sought: Sought) -> u32
    requires stands { LevelsStand last.now items.now }
    requires ends { EndsOpen (map opened_by items.now) }
    ensures { result ≡ last_place (holds_one (is_sought sought)) (slots_of items.now) }
{
    match sought {
        Sought::Node(node) => last.of_node(node),
        Sought::Name(name) => last.of_name(name),
        Sought::Group(group) => set_level(last, items, NameSet::Group(group)),
    }
}
