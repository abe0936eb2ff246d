//! Why a call gives nothing.

ghost use Rattle.std.specs.Prelude.{◌≡◌};
ghost use Rattle.html_c.specs.Faults.{at_of, fault_detail, refusal_number, call_fault_status};
ghost use Rattle.html_c.specs.declared.fault.CallFault.TheVariants as fault;

use names::Refusal;

/// Why a call gives nothing.
#[derive(Clone, Copy)]
pub enum CallFault {
    /// The library refuses the input, a list, the context or a limit.
    Refused(Refusal),
    /// The name of the context or a list is not UTF-8.
    NotText,
    /// A number that is given has no meaning.
    BadNumber,
    /// The library knows no options of the size that they say.
    BadSize,
}

impl From<Refusal> for CallFault {
    ghost from_gives = { λ refusal f. f ≡ fault.Refused refusal };

    fn from(refusal: Refusal) -> CallFault {
        CallFault::Refused(refusal)
    }
}

impl CallFault {
    /// Its number, that of what it names, from 1, and its byte or its line; 0 where there is none.
    pub(crate) fn told(self) -> (u32, u32, u64)
        ensures { result ≡ (call_fault_status self, fault_detail self, at_of self) }
    {
        match self {
            CallFault::Refused(refusal) => refusal_told(refusal),
            CallFault::NotText => (14, 0, 0),
            CallFault::BadNumber => (15, 0, 0),
            // 16 is of the header alone.
            CallFault::BadSize => (17, 0, 0),
        }
    }
}

/// The same of a refusal.
fn refusal_told(refusal: Refusal) -> (u32, u32, u64)
    ensures { result ≡ (refusal_number refusal, fault_detail (fault.Refused refusal), at_of (fault.Refused refusal)) }
{
    match refusal {
        Refusal::NotUtf8 { at } => (1, 0, at),
        Refusal::OutOfProfile { name, at } => (2, name as u32 + 1, at),
        Refusal::TooLarge { at } => (3, 0, at),
        Refusal::TooManyNodes { at } => (4, 0, at),
        Refusal::TooDeep { at } => (5, 0, at),
        Refusal::Memory => (6, 0, 0),
        Refusal::Read => (7, 0, 0),
        Refusal::BadContext => (8, 0, 0),
        Refusal::BadTable { cause } => (9, cause as u32 + 1, 0),
        Refusal::BadQuirks { line } => (10, 0, line),
        Refusal::BadLimits => (11, 0, 0),
        Refusal::Write => (12, 0, 0),
    }
}
