//! The table of plain content.

ghost use Rattle.std.specs.Prelude.{◌≡◌};
ghost use Rattle.hserialize.specs.ContentTable.{row};
ghost use Rattle.hserialize.specs.PlainDocument.{is_metadata};

use crate::content::{Content, Role};
use names::Tag;
use names::Tag::*;

/// What an element of this name is among its siblings, and what its children are.
#[inline(always)]
pub(crate) fn row(tag: Tag) -> (Role, Content)
    ensures { result ≡ row tag }
{
    match tag {
        A | B | Big | Code | Em | Font | I | S | Small => (Role::Phrasing, Content::Around),
        Strike | Strong | Tt | U | Abbr | Bdi | Bdo | Cite => (Role::Phrasing, Content::Around),
        Data | Del | Dfn | Ins | Kbd | Label | Mark | Output => (Role::Phrasing, Content::Around),
        Q | Samp | Span | Sub | Sup | Time | Var | Button => (Role::Phrasing, Content::Around),
        Br | Img | Wbr | Embed | Input | Area | Link | Meta => (Role::Phrasing, Content::Empty),
        Source | Track => (Role::Phrasing, Content::Empty),
        Title | Textarea => (Role::Phrasing, Content::Text),
        Style | Iframe | Noembed => (Role::Phrasing, Content::RawText),
        Script => (Role::Phrasing, Content::ScriptText),
        Object | Marquee => (Role::Phrasing, Content::Flow),
        Address | Article | Aside | Blockquote | Center | Details => (Role::Flow, Content::Flow),
        Dialog | Div | Fieldset | Figcaption | Figure | Footer => (Role::Flow, Content::Flow),
        Header | Hgroup | Main | Nav | Search | Section | Summary => (Role::Flow, Content::Flow),
        Form => (Role::Flow, Content::Flow),
        P | H1 | H2 | H3 | H4 | H5 | H6 | Pre | Listing => (Role::Flow, Content::Phrasing),
        Hr => (Role::Flow, Content::Empty),
        Ul | Ol | Menu | Dir => (Role::Flow, Content::ListItems),
        Li => (Role::ListItem, Content::Flow),
        Dl => (Role::Flow, Content::Definitions),
        Dt | Dd => (Role::Definition, Content::Flow),
        Table => (Role::Flow, Content::TableParts),
        Caption => (Role::TablePart, Content::Flow),
        Colgroup => (Role::TablePart, Content::Columns),
        Col => (Role::Column, Content::Empty),
        Thead | Tbody | Tfoot => (Role::TablePart, Content::TableRows),
        Tr => (Role::TableRow, Content::Cells),
        Td | Th => (Role::Cell, Content::Flow),
        Body => (Role::Nowhere, Content::Flow),
        _ => (Role::Nowhere, Content::Empty),
    }
}

/// Whether an element of this name may be in the head of a plain document.
pub(crate) fn is_metadata(tag: Tag) -> bool
    ensures { result ≡ is_metadata tag }
{
    matches!(
        tag,
        Base | Basefont | Bgsound | Link | Meta | Script | Style | Title
    )
}
