//! The words of the table of plain content.

ghost use Rattle.std.specs.Prelude.{◌≡◌};
ghost use Rattle.hserialize.specs.Vocabulary.{takes_role, texts_in, takes_comments, top_content};

use self::Content::*;

/// What an element is among its siblings.
#[derive(Clone, Copy)]
pub enum Role {
    Phrasing,
    Flow,
    /// li.
    ListItem,
    /// dt and dd.
    Definition,
    /// caption, colgroup and the table sections.
    TablePart,
    /// col.
    Column,
    /// tr.
    TableRow,
    /// td and th.
    Cell,
    /// Every other name: no plain list has it.
    Nowhere,
}

/// What the children of an element are, besides comments.
#[derive(Clone, Copy)]
pub enum Content {
    /// What may be around the element.
    Around,
    /// Texts, phrasing elements and flow elements.
    Flow,
    /// Texts and phrasing elements.
    Phrasing,
    /// Texts and li.
    ListItems,
    /// Texts, dt and dd.
    Definitions,
    /// White space, caption, colgroup and the table sections.
    TableParts,
    /// White space and col.
    Columns,
    /// White space and tr.
    TableRows,
    /// White space, td and th.
    Cells,
    /// One text at most.
    Text,
    /// One text at most, without `</`.
    RawText,
    /// One text at most, with neither `</` nor `<!--`.
    ScriptText,
    /// Nothing.
    Empty,
}

/// Which texts may be in a list.
#[derive(Clone, Copy)]
pub enum Texts {
    Any,
    WhiteSpace,
    /// Without `</`.
    Raw,
    /// With neither `</` nor `<!--`.
    Script,
    None,
}

impl Content {
    pub(crate) fn takes_role(self, role: Role) -> bool
        ensures { result ≡ takes_role self role }
    {
        match self {
            Flow => matches!(role, Role::Phrasing | Role::Flow),
            Phrasing => matches!(role, Role::Phrasing),
            ListItems => matches!(role, Role::ListItem),
            Definitions => matches!(role, Role::Definition),
            TableParts => matches!(role, Role::TablePart),
            Columns => matches!(role, Role::Column),
            TableRows => matches!(role, Role::TableRow),
            Cells => matches!(role, Role::Cell),
            _ => false,
        }
    }

    pub(crate) fn takes_comments(self) -> bool
        ensures { result ≡ takes_comments self }
    {
        !matches!(self, Text | RawText | ScriptText | Empty)
    }

    pub(crate) fn texts(self) -> Texts
        ensures { result ≡ texts_in self }
    {
        match self {
            Flow | Phrasing | ListItems | Definitions | Text => Texts::Any,
            TableParts | Columns | TableRows | Cells => Texts::WhiteSpace,
            RawText => Texts::Raw,
            ScriptText => Texts::Script,
            Around | Empty => Texts::None,
        }
    }

    /// The content of a list whose context has this content; None if there are no plain ones.
    pub(crate) fn at_top(self) -> Option<Content>
        ensures { result ≡ top_content self }
    {
        match self {
            Flow | Phrasing | Around | ListItems | Definitions => Some(Flow),
            TableParts | TableRows | Cells => Some(self),
            Text | RawText | ScriptText => Some(Text),
            Columns | Empty => None,
        }
    }
}
