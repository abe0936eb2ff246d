//! The command line.

ghost use Rattle.std.specs.Prelude.{◌≡◌, ◌<◌, ◌≤◌, [], true, codes, map, None, Some, string_bytes, IfOk, IfErr, OnOk, IsSome, MatchResult};
ghost use Rattle.htmlp.specs.Vocabulary.{asks_explanation, fault_of, first_value, found_of, takes, task_named, bad_bytes_of, escaping_of, number_or, program, task_of, option_value, AreGood, FaultOf, IsNumber, IsNumberFault, OptionFault, SaysLine, accepted, numeric_name, IsInRange};
ghost use Rattle.htmlp.specs.declared.fault.Fault.TheVariants as fault;

use crate::commands::command_line;
use crate::fault::Fault;
use crate::numeric::Numeric;
use crate::said::Line;
use clap::ArgMatches;
use hmodes::{MAX_DEPTH, MAX_NODES};
use htext::BadBytes;
use hwrite::{Command, Escaping, Task};
use std::alloc::Global;

/// The most bytes that are fed at a time, and the number where no option gives one.
const MOST_PIECE: u64 = 65_536;

/// What the words say; the first one is the program's own name. The fault says what is wrong with them, shows the help that
/// they ask for, or is out of memory.
pub fn line<'a>(alloc: Global, words: &'a [String]) -> Result<Line<'a>, Fault<'a>>
    ensures says { IfOk result (SaysLine (task_of (map string_bytes words.entry.now)) (option_value (map string_bytes words.entry.now))) }
    ensures in_range { IfOk result (λ line. (0 < line.command.piece) × (line.command.piece ≤ MOST_PIECE)) }
    ensures taken { OnOk result (fault_of program (map string_bytes words.entry.now) ≡ []) }

    ensures fault { IfErr result (FaultOf (map string_bytes words.entry.now)) }
    ensures memory { IfErr result (λ f. takes program (map string_bytes words.entry.now) ≡ true
        → AreGood (option_value (map string_bytes words.entry.now)) → f ≡ fault.Memory) }
{
    let matches = command_line(alloc)?.try_get_matches_from(words)?;
    let (name, found) = matches.subcommand().unwrap();
    let line = said(name, found);
    drop(matches);
    line
}

/// What the name of a command and its matches say.
fn said<'a>(name: &'a str, found: &ArgMatches<'a>) -> Result<Line<'a>, Fault<'a>>
    requires { IsSome (task_named name.now) }
    ensures says { MatchResult result (SaysLine (task_named name.now) (first_value (found_of found.now)))
        (OptionFault (first_value (found_of found.now))) }
    ensures in_range { IfOk result (λ line. (0 < line.command.piece) × (line.command.piece ≤ MOST_PIECE)) }
{
    let task = Task::named(name).unwrap();
    let piece = number(found, Numeric::Piece, MOST_PIECE)?;
    let nodes = number(found, Numeric::Nodes, MAX_NODES)?;
    let open = number(found, Numeric::Open, MAX_DEPTH)?;
    let escape = number(found, Numeric::Escape, 1)?;
    let bad_bytes = bad_bytes(found)?;
    Ok(Line {
        command: Command {
            task,
            context: found.get_str("in"),
            escaping: escaping_of(escape),
            piece: piece as usize,
            is_last: true,
        },
        entities: found.get_str("entities"),
        quirks: found.get_str("quirks"),
        bad_bytes,
        nodes,
        open,
        file: found.get_str("file"),
    })
}

/// What becomes of bytes that are not UTF-8, by the value of its option.
fn bad_bytes<'a>(found: &ArgMatches<'a>) -> Result<BadBytes, Fault<'a>>
    ensures { MatchResult result (λ bad. bad_bytes_of (first_value (found_of found.now) (codes "bad-bytes")) ≡ Some bad)
        (λ why. (bad_bytes_of (first_value (found_of found.now) (codes "bad-bytes")) ≡ None) × (why ≡ fault.BadBytes)) }
{
    match found.get_str("bad-bytes") {
        None | Some("refuse") => Ok(BadBytes::Refuse),
        Some("replace") => Ok(BadBytes::Replace),
        Some(_) => Err(Fault::BadBytes),
    }
}

fn escaping_of(number: u64) -> Escaping
    ensures { result ≡ escaping_of number }
{
    if number == 2 {
        Escaping::Two
    } else {
        Escaping::One
    }
}

/// The number that the value of an option writes, if it is one that is read, or the default if the option has no value.
fn number<'a>(found: &ArgMatches<'a>, option: Numeric, default: u64) -> Result<u64, Fault<'a>>
    requires { IsInRange (accepted option) default }
    ensures says { MatchResult result
        (λ number. IsNumber option (first_value (found_of found.now) (numeric_name option))
        × (number ≡ number_or default (first_value (found_of found.now) (numeric_name option))))
        (λ why. (IsNumber option (first_value (found_of found.now) (numeric_name option)) → ⊥)
        × IsNumberFault (first_value (found_of found.now)) option why) }
    ensures in_range { IfOk result (IsInRange (accepted option)) }
{
    let (least, most) = option.accepted();
    match found.get_str(option.name()) {
        None => Ok(default),
        Some(value) => match value.parse::<u64>() {
            Ok(number) if least <= number && number <= most => Ok(number),
            _ => Err(Fault::Number { option, value }),
        },
    }
}

/// Whether a word before `--` is `--explain`, which `clap` takes as an option of each command.
pub(crate) fn asks_explanation(words: &[String]) -> bool
    ensures { result ≡ asks_explanation (map string_bytes words.now) }
{
    for word in words {
        if word.as_str() == "--" {
            return false;
        }
        if word.as_str() == "--explain" {
            return true;
        }
    }
    false
}
