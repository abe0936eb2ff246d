//! The state that the rules of all insertion modes work on (HTML Standard, `#parse-state`), how a rule ends, and the codes of its errors.

ghost use Rattle.std.specs.Prelude.{◌≡◌, ℕ};
ghost use Rattle.hmodes.specs.Vocabulary.{FlowGives, StateGives, TokenOf, mode_error, StateOf, FlowOf};

use crate::mode::Mode;
use hadopt::Site;
use hmarkup::Quirks;
use hnodes::NodeId;
use names::{ErrorCode, NameId, Placed, Refusal};
use std::alloc::Global;
use std::marker::Model;

/// What comes of a rule: it ends, or the token is reprocessed.
#[derive(Clone, Copy)]
pub(crate) enum Flow {
    Done,
    Again,
}

/// The mode, the pointers, the flags, and the pending table characters.
#[derive(Drop)]
pub(crate) struct Control {
    pub(crate) mode: Mode,
    /// The original insertion mode (`#original-insertion-mode`).
    pub(crate) saved: Mode,
    /// The head element pointer.
    pub(crate) head: Option<NodeId>,
    /// The form element pointer; the document stands for a context, which is never open.
    pub(crate) form: Option<NodeId>,
    pub(crate) quirks: bool,
    /// The pending table character tokens.
    pub(crate) pending: Vec<Placed>,
    /// Room for their text, if they are white space.
    pub(crate) spaces: String,
    /// Whether the next token is ignored if it is a LF.
    pub(crate) drop_lf: bool,
    /// Whether the self-closing flag of this token was acknowledged (`#acknowledge-self-closing-flag`).
    pub(crate) acknowledged: bool,
}

impl Model for Control {
    ghost use Rattle.hmodes.specs.State.{Control as ControlOf};

    ghost Value = { ControlOf };

    ghost view = { λ c. record {
      mode = c.mode;
      saved = c.saved;
      head = c.head;
      form = c.form;
      quirks = c.quirks;
      pending = c.pending.items;
      drop_lf = c.drop_lf;
      acknowledged = c.acknowledged;
    } };
}

/// The state of the tree construction.
#[derive(Drop)]
pub(crate) struct TreeConstruction<'q> {
    pub(crate) site: Site,
    pub(crate) control: Control,
    /// A fragment's context, the context element of the HTML fragment parsing algorithm (`#concept-frag-parse-context`).
    pub(crate) context: Option<NameId>,
    /// The quirks list; a fragment has none.
    pub(crate) quirks_list: Option<&'q Quirks>,
    pub(crate) alloc: Global,
}

/// What a rule answers: how it ends, or a refusal.
pub(crate) type Ruling = Result<Flow, Refusal>;

pub(crate) fn done(last: Result<(), Refusal>) -> Ruling
    ensures { (t : TokenOf ℕ) (s : StateOf ℕ) (f : FlowOf ℕ) → StateGives last s f → FlowGives result t s f }
{
    last?;
    Ok(Flow::Done)
}

impl Mode {
    /// The code of the errors of its rules.
    pub(crate) fn code(self) -> ErrorCode
        ensures { result ≡ mode_error self }
    {
        match self {
            Mode::Initial => ErrorCode::TreeInitial,
            Mode::BeforeHtml => ErrorCode::TreeBeforeHtml,
            Mode::BeforeHead => ErrorCode::TreeBeforeHead,
            Mode::InHead => ErrorCode::TreeInHead,
            Mode::InHeadNoscript => ErrorCode::TreeInHeadNoscript,
            Mode::AfterHead => ErrorCode::TreeAfterHead,
            Mode::InBody => ErrorCode::TreeInBody,
            Mode::Text => ErrorCode::TreeText,
            Mode::InTable => ErrorCode::TreeInTable,
            Mode::InTableText => ErrorCode::TreeInTableText,
            Mode::InCaption => ErrorCode::TreeInCaption,
            Mode::InColumnGroup => ErrorCode::TreeInColumnGroup,
            Mode::InTableBody => ErrorCode::TreeInTableBody,
            Mode::InRow => ErrorCode::TreeInRow,
            Mode::InCell => ErrorCode::TreeInCell,
            Mode::AfterBody => ErrorCode::TreeAfterBody,
            Mode::AfterAfterBody => ErrorCode::TreeAfterAfterBody,
        }
    }
}
