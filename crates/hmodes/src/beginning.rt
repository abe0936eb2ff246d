//! Where a document and a fragment begin, and resetting the insertion mode (HTML Standard, `#parsing-html-fragments` and
//! `#reset-the-insertion-mode-appropriately`).

ghost use Rattle.std.specs.Prelude.{◌≡◌, MatchResult};
ghost use Rattle.std.specs.Option.{option_map_or};
ghost use Rattle.hmodes.specs.Vocabulary.{numbers, Memory, control_in, form_of, fragment_site, from_top, InBody, context_mode, stack, open_mode, root_mode, reset_mode};

use crate::limits::Limits;
use crate::mode::Mode;
use crate::tree_construction::{Control, TreeConstruction};
use hadopt::Site;
use hnodes::NodeId;
use hopen::Group;
use names::{Keys, Refusal, Tag};
use std::alloc::Global;

/// The state other than the tree, in a mode.
pub(crate) fn control_in(alloc: Global, mode: Mode, form: Option<NodeId>) -> Control
    ensures { result ≡ control_in mode form }
{
    Control {
        mode,
        saved: mode,
        head: None,
        form,
        quirks: false,
        pending: Vec::new(alloc),
        spaces: String::new(alloc),
        drop_lf: false,
        acknowledged: false,
    }
}

/// The tree in which a fragment begins, and its root element, which is open.
pub(crate) fn fragment_site(
    alloc: Global,
    keys: Keys,
    limits: Limits,
) -> Result<(Site, NodeId), Refusal>
    ensures { MatchResult result (λ r. (r.0 ≡ fragment_site numbers limits.tree) × (r.1 ≡ 1)) (λ e. e ≡ Memory) }
{
    let mut site = Site::new(alloc, keys, limits.nodes(), limits.depth())?;
    let place = site.place_in_document();
    let root = site.insert_element(Tag::Html.number(), &mut Vec::new(alloc), place, 0);
    match root {
        Ok(root) => Ok((site, root)),
        Err(refusal) => {
            drop(site);
            Err(refusal)
        }
    }
}

/// The form pointer in a context: the document stands for a form that is the context.
pub(crate) fn form_pointer(site: &Site, context: Tag) -> Option<NodeId>
    ensures { result ≡ form_of context }
{
    match context {
        Tag::Form => Some(site.tree().document()),
        _ => None,
    }
}

fn open_mode(tag: Tag) -> Option<Mode>
    ensures { result ≡ open_mode tag }
{
    match tag {
        Tag::Td | Tag::Th => Some(Mode::InCell),
        Tag::Tr => Some(Mode::InRow),
        Tag::Tbody | Tag::Thead | Tag::Tfoot => Some(Mode::InTableBody),
        Tag::Caption => Some(Mode::InCaption),
        Tag::Colgroup => Some(Mode::InColumnGroup),
        Tag::Table => Some(Mode::InTable),
        Tag::Body => Some(Mode::InBody),
        _ => None,
    }
}

pub(crate) fn context_mode(tag: Tag) -> Mode
    ensures { result ≡ context_mode tag }
{
    match tag {
        Tag::Tr => Mode::InRow,
        Tag::Tbody | Tag::Thead | Tag::Tfoot => Mode::InTableBody,
        Tag::Caption => Mode::InCaption,
        Tag::Colgroup => Mode::InColumnGroup,
        Tag::Table => Mode::InTable,
        Tag::Html => Mode::BeforeHead,
        _ => Mode::InBody,
    }
}

impl<'q> TreeConstruction<'q> {
    /// Reset the insertion mode appropriately: the mode that fits the open nodes, going up from the current one, is that of the first that decides.
    pub(crate) fn reset_mode(&self) -> Mode
        ensures { result ≡ reset_mode numbers self.now.context (stack self.now.site) }
    {
        match self.site.nearest_below_first(Group::TellsMode) {
            // the first open node is read as the context
            Some(node) => open_mode(node.name.tag()).unwrap_or(Mode::InBody),
            None => self.root_mode(),
        }
    }

    /// The mode that the first open node decides on, which is read as the context, where there is one.
    fn root_mode(&self) -> Mode
        ensures { result ≡ option_map_or (root_mode numbers self.now.context) (from_top 0 self.now.site) InBody }
    {
        match self.site.from_top(0) {
            Some(root) => match self.context {
                Some(context) => context_mode(context.tag()),
                None => open_mode(root.name.tag()).unwrap_or(Mode::InBody),
            },
            None => Mode::InBody,
        }
    }
}
