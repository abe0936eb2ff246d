//! Why an input, a list or a limit is refused.

ghost use Rattle.std.specs.Prelude.{◌≡◌, Some, option_map};
ghost use Rattle.names.specs.RefusalText.{cause_text, refusal_detail, refusal_name, number_in_refusal, refusal_text};
ghost use Rattle.names.specs.declared.refusal.Refusal.TheVariants.{Memory};

use crate::raw::RefusedName;
use std::alloc::{AllocError, AllocFailed};
use std::error::Error;
use std::fmt;

/// Why an entity table is refused. It is displayed as its name.
#[derive(Clone, Copy, Debug, PartialEq, Eq)]
pub enum TableFault {
    /// The text is not JSON.
    Json,
    /// The JSON value, or the value of a key, is not an object with the required fields.
    Shape,
    /// A key is not `&`, then letters and digits, then at most one `;`.
    Key,
    /// A `codepoints` is not a list of one or two numbers of characters other than NUL.
    Codepoints,
    /// A `characters` is not the text of its `codepoints`.
    Characters,
}

/// Why there is no result. `at` is a byte offset of the input, from 0. It is displayed as its name, what it names, and its offset
/// or line: `NotUtf8 at 1`, `OutOfProfile svg at 4`, `BadTable Codepoints`, `BadQuirks line 2`, `Memory`.
#[derive(Clone, Copy, PartialEq, Eq)]
pub enum Refusal {
    /// The input is not UTF-8: `at` is the first byte of the first sequence that is invalid, or that the input cuts off.
    NotUtf8 { at: u64 },
    /// A complete start tag that the profile leaves out: `at` is its `<`.
    OutOfProfile { name: RefusedName, at: u64 },
    /// The input is longer than its limit: `at` is the first character past it.
    TooLarge { at: u64 },
    /// `at` is the token that would make one node more than the limit.
    TooManyNodes { at: u64 },
    /// `at` is the token that would open one element more than the limit.
    TooDeep { at: u64 },
    /// Out of memory.
    Memory,
    /// A read failed.
    Read,
    /// The name is not that of a context element of a fragment.
    BadContext,
    /// The entity table is refused.
    BadTable { cause: TableFault },
    /// The quirks list is refused: `line` is the first line, from 1, that has none of its forms.
    BadQuirks { line: u64 },
    /// A limit is out of its range.
    BadLimits,
    /// A write failed; the beginning of the text may have been written.
    Write,
}

impl From<AllocError> for Refusal {
    ghost from_gives = { λ _ e. e ≡ Memory };

    fn from(_: AllocError) -> Refusal {
        Refusal::Memory
    }
}

impl<T: Drop> From<AllocFailed<T>> for Refusal {
    ghost from_gives = { λ _ e. e ≡ Memory };

    fn from(_: AllocFailed<T>) -> Refusal {
        Refusal::Memory
    }
}

impl TableFault {
    /// The name of the fault.
    pub fn name(self) -> &'static str
        ensures { result.now ≡ cause_text self }
    {
        match self {
            TableFault::Json => "Json",
            TableFault::Shape => "Shape",
            TableFault::Key => "Key",
            TableFault::Codepoints => "Codepoints",
            TableFault::Characters => "Characters",
        }
    }
}

impl Refusal {
    /// The name of the refusal.
    pub fn name(self) -> &'static str
        ensures { result.now ≡ refusal_name self }
    {
        match self {
            Refusal::NotUtf8 { .. } => "NotUtf8",
            Refusal::OutOfProfile { .. } => "OutOfProfile",
            Refusal::TooLarge { .. } => "TooLarge",
            Refusal::TooManyNodes { .. } => "TooManyNodes",
            Refusal::TooDeep { .. } => "TooDeep",
            Refusal::Memory => "Memory",
            Refusal::Read => "Read",
            Refusal::BadContext => "BadContext",
            Refusal::BadTable { .. } => "BadTable",
            Refusal::BadQuirks { .. } => "BadQuirks",
            Refusal::BadLimits => "BadLimits",
            Refusal::Write => "Write",
        }
    }

    /// The element or the cause that it names, if it names one.
    pub fn detail(self) -> Option<&'static str>
        ensures { option_map (λ s. s.now) result ≡ refusal_detail self }
    {
        match self {
            Refusal::OutOfProfile { name, .. } => Some(name.text()),
            Refusal::BadTable { cause } => Some(cause.name()),
            _ => None,
        }
    }

    /// Its byte offset or its line, after the word that says which: `at` or `line`.
    pub fn number(self) -> Option<(&'static str, u64)>
        ensures { option_map (λ p. (p.0.now, p.1)) result ≡ number_in_refusal self }
    {
        match self {
            Refusal::NotUtf8 { at }
            | Refusal::OutOfProfile { at, .. }
            | Refusal::TooLarge { at }
            | Refusal::TooManyNodes { at }
            | Refusal::TooDeep { at } => Some(("at", at)),
            Refusal::BadQuirks { line } => Some(("line", line)),
            _ => None,
        }
    }
}

impl fmt::Display for TableFault {
    ghost output = { λ cause. Some (cause_text cause) };

    fn fmt<W: fmt::Write>(&self, f: &mut fmt::Formatter<W>) -> fmt::Result {
        f.write_str(self.name())
    }
}

impl Error for TableFault {}

impl fmt::Display for Refusal {
    ghost output = { λ refusal. Some (refusal_text refusal) };

    fn fmt<W: fmt::Write>(&self, f: &mut fmt::Formatter<W>) -> fmt::Result {
        f.write_str(self.name())?;
        if let Some(detail) = self.detail() {
            write!(f, " {detail}")?;
        }
        match self.number() {
            Some((word, number)) => write!(f, " {word} {number}"),
            None => Ok(()),
        }
    }
}

/// As it is displayed.
impl fmt::Debug for Refusal {
    ghost debug_output = { λ refusal. Some (refusal_text refusal) };

    fn fmt<W: fmt::Write>(&self, f: &mut fmt::Formatter<W>) -> fmt::Result {
        fmt::Display::fmt(self, f)
    }
}

impl Error for Refusal {}
