//! What stops a search among the open elements, and the groups of names that are sought there (HTML Standard, `#the-stack-of-open-elements`).

ghost use Rattle.std.specs.Prelude.{◌≡◌};
ghost use Rattle.hopen.specs.Scopes.{is_of_group};

use names::Tag;
use names::sets::{CELL, TELLS_MODE};

/// A scope: the names that stop the search for an element.
#[derive(Clone, Copy)]
pub enum Scope {
    /// "In scope", without further words (`#has-an-element-in-scope`).
    Default,
    /// "In list item scope" (`#has-an-element-in-list-item-scope`).
    ListItem,
    /// "In button scope" (`#has-an-element-in-button-scope`).
    Button,
    /// "In table scope" (`#has-an-element-in-table-scope`).
    Table,
}

/// A group of names that a rule looks for together.
#[derive(Clone, Copy)]
pub enum Group {
    /// h1 to h6.
    Heading,
    /// tbody, tfoot and thead.
    TableSection,
    /// td and th.
    Cell,
    /// The elements that determine the insertion mode when it is reset (`#the-insertion-mode`): body, caption, colgroup, table, tbody, td,
    /// tfoot, th, thead and tr.
    TellsMode,
}

impl Group {
    /// Whether a name is of the group.
    #[inline(always)]
    pub fn has(self, tag: Tag) -> bool
        ensures { result ≡ is_of_group self tag }
    {
        match self {
            Group::Heading => tag.is_heading(),
            Group::TableSection => tag.is_table_section(),
            Group::Cell => tag.sets() & CELL != 0,
            Group::TellsMode => tag.sets() & TELLS_MODE != 0,
        }
    }
}
