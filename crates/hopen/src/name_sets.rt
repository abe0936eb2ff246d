//! Sets of known names, and which open nodes are the nearest of each set.

ghost use Rattle.std.specs.Prelude.{◌≡◌, if◌then◌else◌};
ghost use Rattle.hopen.specs.NameSets.{is_in_set, set_node};

use crate::scope::{Group, Scope};
use names::Tag;
use names::sets::{
    BUTTON_SCOPE, CELL, HEADING, ITEM_STOP, LIST_ITEM_SCOPE, SCOPE, SPECIAL, TABLE_SCOPE,
    TABLE_SECTION, TELLS_MODE,
};

/// A set of known names that a search looks for, or that stops it.
#[derive(Clone, Copy)]
pub(crate) enum NameSet {
    /// The names that stop a search in a scope.
    Stops(Scope),
    Special,
    /// The names that stop the search for an open li, dd or dt.
    StopsItem,
    /// The names of a group.
    Group(Group),
}

/// For each set of names: which of an open node and those above it is the nearest whose name is in the set, as its number plus 1; 0 is none.
#[derive(Clone, Copy, Default)]
pub(crate) struct SetNodes {
    scope: u32,
    list_item_scope: u32,
    button_scope: u32,
    table_scope: u32,
    special: u32,
    item_stop: u32,
    heading: u32,
    table_section: u32,
    cell: u32,
    tells_mode: u32,
}

fn node_if(is_new: bool, new: u32, old: u32) -> u32
    ensures { result ≡ (if is_new then new else old) }
{
    if is_new { new } else { old }
}

impl SetNodes {
    pub(crate) fn none() -> SetNodes
        ensures { (set : NameSet) → set_node set result ≡ 0 }
    {
        SetNodes::default()
    }

    /// The nearest node of a set; 0 if there is none.
    #[inline(always)]
    pub(crate) fn of(&self, set: NameSet) -> u32
        ensures { result ≡ set_node set self.now }
    {
        match set {
            NameSet::Stops(Scope::Default) => self.scope,
            NameSet::Stops(Scope::ListItem) => self.list_item_scope,
            NameSet::Stops(Scope::Button) => self.button_scope,
            NameSet::Stops(Scope::Table) => self.table_scope,
            NameSet::Special => self.special,
            NameSet::StopsItem => self.item_stop,
            NameSet::Group(Group::Heading) => self.heading,
            NameSet::Group(Group::TableSection) => self.table_section,
            NameSet::Group(Group::Cell) => self.cell,
            NameSet::Group(Group::TellsMode) => self.tells_mode,
        }
    }

    /// The same of a node right below these.
    #[inline(always)]
    pub(crate) fn with(&self, tag: Tag, node: u32) -> SetNodes
        ensures { (set : NameSet) → set_node set result ≡ (if is_in_set set tag then node else set_node set self.now) }
    {
        let sets = tag.sets();
        SetNodes {
            scope: node_if(sets & SCOPE != 0, node, self.scope),
            list_item_scope: node_if(sets & LIST_ITEM_SCOPE != 0, node, self.list_item_scope),
            button_scope: node_if(sets & BUTTON_SCOPE != 0, node, self.button_scope),
            table_scope: node_if(sets & TABLE_SCOPE != 0, node, self.table_scope),
            special: node_if(sets & SPECIAL != 0, node, self.special),
            item_stop: node_if(sets & ITEM_STOP != 0, node, self.item_stop),
            heading: node_if(sets & HEADING != 0, node, self.heading),
            table_section: node_if(sets & TABLE_SECTION != 0, node, self.table_section),
            cell: node_if(sets & CELL != 0, node, self.cell),
            tells_mode: node_if(sets & TELLS_MODE != 0, node, self.tells_mode),
        }
    }
}
