//! Reads a doctype (HTML Standard, `#doctype-state` to `#bogus-doctype-state`), one character at a time.

ghost use Rattle.std.specs.Prelude.{◌≡◌, ◌≤◌, ◌++◌, ℕ, [], List, Option, Some, OnOk, true, codes, length};
ghost use Rattle.std.specs.Char.{encode_utf8};
ghost use Rattle.std.specs.List.{list_all, prefix_len};
ghost use Rattle.std.specs.Str.{chars};
ghost use Rattle.hmarkup.specs.Vocabulary.{Error, Placed, characters, placed, without_null, IsDoctype, force, lengthened, found_by, Reading, is_data, with_run};
ghost use Rattle.hmarkup.specs.Vocabulary.{HasReadDoctype, optional_text, BeginsSpans, IsOpenMarkup, ClosedBy, HasMarkupSpan, IsOneSpan, TakesMarkup, EndsMarkup};

use crate::doctype_state::{DoctypeState, Keeps, Step};
use crate::keyword::Identifier;
use crate::sink::ErrorSink;
use crate::taking::{push, report};
use names::Refusal;
use std::alloc::{AllocError, Global};
use std::marker::Model;

/// A DOCTYPE token (`#tokenization`). What is missing is `None`; what is present may be empty.
#[derive(Drop)]
pub struct Doctype {
    /// The name, its ASCII letters in lower case.
    pub name: Option<String>,
    /// The public identifier.
    pub public_id: Option<String>,
    /// The system identifier.
    pub system_id: Option<String>,
    /// The force-quirks flag.
    pub forced: bool,
}

impl Model for Doctype {
    ghost use Rattle.hmarkup.specs.Doctype.{Found};
    ghost use Rattle.hmarkup.specs.DoctypeWalk.{optional_text};

    ghost Value = { Found };

    ghost view = { λ d. record { name = optional_text d.name; public = optional_text d.public_id; system = optional_text d.system_id; forced = d.forced } };
}

/// Reads a doctype after its `<!DOCTYPE`, one character at a time. Errors go to the sink as they are found, in the order of
/// the text. After an `Ok(true)` only `into_doctype` may be called; after an `Err` the walk is of no further use.
#[derive(Drop)]
pub struct DoctypeWalk {
    phase: DoctypeState,
    found: Doctype,
    alloc: Global,
}

impl Model for DoctypeWalk {
    ghost use Rattle.hmarkup.specs.DoctypeWalk.{Reading, optional_text};

    ghost Value = { Reading };

    ghost view = { λ w. record { phase = w.phase; found = w.found } };
}

fn add(part: &mut Option<String>, ch: char, alloc: Global) -> Result<(), AllocError>
    ensures { OnOk result (optional_text part.new ≡ Some (lengthened (optional_text part.old) (encode_utf8 (without_null ch)))) }
{
    push(part.get_or_insert(String::new(alloc)), ch)
}

fn add_run(part: &mut Option<String>, run: &str, alloc: Global) -> Result<(), AllocError>
    ensures { OnOk result (optional_text part.new ≡ Some (lengthened (optional_text part.old) run.now)) }
{
    part.get_or_insert(String::new(alloc)).push_str(run)
}

impl Doctype {
    fn force(&mut self)
        ensures { self.new ≡ force self.old }
    {
        self.forced = true;
    }

    fn take(&mut self, step: Step, ch: char, alloc: Global) -> Result<(), AllocError>
        ensures { (at : ℕ) → OnOk result (self.new ≡ found_by step (record { ch = ch; at = at }) self.old) }
    {
        self.forced = self.forced || step.forces;
        match step.keeps {
            Keeps::Nothing => Ok(()),
            Keeps::Name => add(&mut self.name, ch.to_ascii_lowercase(), alloc),
            Keeps::Quote(Identifier::Public) => add_run(&mut self.public_id, "", alloc),
            Keeps::Quote(Identifier::System) => add_run(&mut self.system_id, "", alloc),
            Keeps::Inside(Identifier::Public) => add(&mut self.public_id, ch, alloc),
            Keeps::Inside(Identifier::System) => add(&mut self.system_id, ch, alloc),
        }
    }

    fn take_run(&mut self, phase: DoctypeState, run: &str, alloc: Global) -> Result<(), AllocError>
        ensures { OnOk result (self.new ≡ with_run phase run.now self.old) }
    {
        match phase {
            DoctypeState::Name => add_run(&mut self.name, run, alloc),
            DoctypeState::Quoted(Identifier::Public, _) => add_run(&mut self.public_id, run, alloc),
            DoctypeState::Quoted(Identifier::System, _) => add_run(&mut self.system_id, run, alloc),
            _ => Ok(()),
        }
    }
}

impl DoctypeWalk {
    /// A walk for what follows `<!DOCTYPE`, in the DOCTYPE state (`#doctype-state`).
    #[tactic(auto, using(crate::proofs::Reading::read_nothing))]
    pub fn new(alloc: Global) -> DoctypeWalk
        ensures { HasReadDoctype result [] [] }
    {
        DoctypeWalk {
            phase: DoctypeState::BeforeName(false),
            found: Doctype {
                name: None,
                public_id: None,
                system_id: None,
                forced: false,
            },
            alloc,
        }
    }

    /// Reads the next character, whose first byte is at offset `at`, and returns whether it ends the doctype. An error is
    /// `Memory` or the sink's refusal.
    pub fn take_char<S: ErrorSink>(
        &mut self,
        ch: char,
        at: u64,
        errors: &mut S,
    ) -> Result<bool, Refusal>
        ensures { (text : List Placed) (raised : List Error) → HasReadDoctype self.old text raised
            → TakesMarkup S.gives HasReadDoctype IsDoctype text raised (record { ch = ch; at = at }) errors.old result self.new self.new.found errors.new }
    {
        let step = self.phase.step(ch, at);
        report(step.fault, ch, at, errors)?;
        let alloc = self.alloc;
        self.found.take(step, ch, alloc)?;
        let Some(phase) = step.next else {
            return Ok(true);
        };
        self.phase = phase;
        Ok(false)
    }

    /// How many bytes at the front of a run are only data here: in the name all before white space, a capital letter, `>` or NUL, inside an
    /// identifier all before its quote, `>` or NUL.
    pub fn data_run(&self, run: &str) -> usize
        ensures counted { result ≡ prefix_len (is_data self.now.phase) run.now }
        ensures few { result ≤ length run.now }
    {
        let phase = self.phase;
        for (index, byte) in run.as_bytes().iter().enumerate() {
            if !phase.is_data(*byte) {
                return index;
            }
        }
        run.len()
    }

    /// Reads a run of characters that are only data here, as `take_char` would one by one. It raises no error.
    pub fn take_run(&mut self, run: &str) -> Result<(), AllocError>
        requires { list_all (is_data self.old.phase) run.now ≡ true }
        ensures { (at : ℕ) (text : List Placed) (raised : List Error) → HasReadDoctype self.old text raised
            → OnOk result (HasReadDoctype self.new (text ++ placed at (chars run.now)) raised) }
    {
        let alloc = self.alloc;
        self.found.take_run(self.phase, run, alloc)
    }

    /// Tells the walk that the input ends here, at byte offset `end`. An error is the sink's refusal.
    pub fn end<S: ErrorSink>(&mut self, end: u64, errors: &mut S) -> Result<(), Refusal>
        ensures { (text : List Placed) (raised : List Error) → HasReadDoctype self.old text raised
            → EndsMarkup S.gives IsDoctype text raised end self.new.found errors.old result errors.new }
    {
        let Some(fault) = self.phase.end_fault(end) else {
            return Ok(());
        };
        self.found.force();
        errors.take_error(fault)
    }

    /// The contents of the doctype, once it has ended.
    pub fn into_doctype(self) -> Doctype
        ensures { result ≡ self.found }
    {
        self.found
    }
}

/// If a text begins with what a walk has read, then the doctype at its front does too, and that doctype's errors begin with
/// those reported so far. The doctype cannot end there unless the input does.
pub fn goes_on_in_a_doctype()
    ensures begins { (walk : Reading) (text : List Placed) (errors : List Error) → HasReadDoctype walk text errors → BeginsSpans IsDoctype text errors }
    ensures is_open { (walk : Reading) (text : List Placed) (errors : List Error) → HasReadDoctype walk text errors → IsOpenMarkup IsDoctype text }
{}

/// What a walk has read can always be completed: with `>` after it, it is a whole doctype, even inside quotes.
pub fn greater_ends_a_doctype()
    ensures { (walk : Reading) (text closing : List Placed) (errors : List Error) → HasReadDoctype walk text errors → characters closing ≡ codes ">"
        → ClosedBy IsDoctype text closing }
{}

/// Every text begins with a doctype, which may extend to the end of the text.
#[tactic(auto, using(crate::proofs::SomeSpan::some_doctype))]
pub fn some_doctype()
    ensures { (end : ℕ) (text : List Placed) → HasMarkupSpan IsDoctype end text }
{}

/// A text begins with at most one doctype.
pub fn one_doctype()
    ensures { IsOneSpan IsDoctype }
{}
