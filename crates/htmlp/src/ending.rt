//! How the program ends: its status, and its lines on standard error.

ghost use Rattle.std.specs.Prelude.{◌≡◌, ◌∷◌, ◌++◌, [], IfSome};
ghost use Rattle.htmlp.specs.Vocabulary.{EndsWith, WritesAll, ending_text, fault_status, fault_text, message_text, exit_status};

use crate::fault::{Fault, Message};
use crate::parts::{WithoutTip, write_parts};
use hwrite::Target;
use itoa::Buffer;
use names::Refusal;
use std::fmt::Write;

/// The status of a refusal.
const REFUSED: u8 = 2;

/// The status of a fault.
const FAULT: u8 = 3;

/// Writes the line that says why there is no answer, if there is none, and where it is to be explained a line that names what was
/// refused. Returns the status of the program: 0 for an answer, 2 for a refusal, 3 for a fault. If the lines cannot be written,
/// the status stays the same.
pub fn ending<W: Target>(outcome: &Result<(), Fault>, explains: bool, target: &mut W) -> u8
    ensures status { result ≡ exit_status outcome.now }
    ensures text { IfSome (ending_text explains outcome.now)
        (EndsWith (W.written target.old) (W.failed target.old) (W.written target.new) (W.failed target.new)) }
{
    match outcome {
        Ok(()) => 0,
        Err(fault) => {
            let _ = write_fault(target, fault, explains);
            status(fault)
        }
    }
}

fn status(fault: &Fault) -> u8
    ensures { result ≡ fault_status fault.now }
{
    match fault {
        Fault::Refused {
            refusal: Refusal::Read | Refusal::Write,
            ..
        } => FAULT,
        Fault::Refused { .. } | Fault::Limit(_) => REFUSED,
        _ => FAULT,
    }
}

fn write_fault<W: Target>(target: &mut W, fault: &Fault, explains: bool) -> Result<(), Refusal>
    ensures { IfSome (fault_text explains fault.now) (λ text.
        WritesAll (W.written target.old) (W.failed target.old) (W.written target.new) (W.failed target.new) text result) }
{
    if let Fault::Line(_) = fault {
        return write!(WithoutTip(target), "{fault}").or(Err(Refusal::Write));
    }
    write_line(target, fault.line())?;
    match fault.explanation(explains) {
        Some(line) => write_line(target, line),
        None => Ok(()),
    }
}

/// Part by part, since a formatter does not say what was written before a write that failed.
fn write_line<W: Target>(target: &mut W, line: Message) -> Result<(), Refusal>
    ensures { WritesAll (W.written target.old) (W.failed target.old) (W.written target.new) (W.failed target.new)
        (message_text line.entry ++ 10 ∷ []) result }
{
    write_parts(target, &line.words)?;
    match line.number {
        Some((word, number)) => {
            let mut digits = Buffer::new();
            write_parts(target, &[" ", word, " ", digits.format(number), "\n"])
        }
        None => write_parts(target, &["\n"]),
    }
}
