//! Why the program ends without an answer, and what it says then.

ghost use Rattle.std.specs.Prelude.{◌≡◌, ◌∷◌, [], IfSome, None, Some, option_map};
ghost use Rattle.std.specs.List.{concat};
ghost use Rattle.htmlp.specs.Vocabulary.{around_name, explained, fault_line, message_text, name_line, number_line, refusal_line};
ghost use Rattle.htmlp.specs.Fault.{fault_of_error};
ghost use Rattle.htmlp.specs.declared.fault.Fault.TheVariants as fault;

use crate::numeric::Numeric;
use clap::error::ErrorKind;
use names::Refusal;
use std::alloc::AllocError;
use std::fmt;
use thiserror::Error;

/// Why the program ends without an answer. It is displayed as its line on standard error: what a derive writes has no contract, so it
/// shows what `line` gives, which has one, and which the ending writes.
#[derive(Debug, Drop, Error)]
#[error("{}", self.line())]
pub enum Fault<'a> {
    /// Out of memory while the command line was read.
    Memory,
    /// A word of the command line is not UTF-8.
    NotUtf8,
    /// The system gives no random bytes, without which the program doesn't run.
    NoRandomBytes,
    /// The words are not those of a command, or ask for help.
    #[error(transparent)]
    Line(clap::Error),
    /// The value of an option is no number that is read.
    Number {
        option: Numeric,
        value: &'a str,
    },
    /// The value of `--bad-bytes` is neither of its words.
    BadBytes,
    /// The number of a limit is out of its range.
    Limit(Numeric),
    /// The input, a list or a context was refused; `name` is its name on the command line.
    Refused {
        refusal: Refusal,
        name: Option<&'a str>,
    },
}

impl<'a> Fault<'a> {
    /// Its line, but where `clap` has its own.
    pub fn line(&self) -> Message<'a>
        ensures { IfSome (fault_line self.now) (λ line. message_text result ≡ line) }
    {
        match self {
            Fault::Memory => Message::of("fault: out of memory", "", "", ""),
            Fault::NotUtf8 => Message::of("fault: the command line is not UTF-8", "", "", ""),
            Fault::NoRandomBytes => Message::of("fault: no random bytes", "", "", ""),
            Fault::Line(_) => Message::of("", "", "", ""),
            Fault::Number { option, value } => no_number(value, option.name(), option.range_text()),
            Fault::BadBytes => Message::of("fault: --bad-bytes is refuse or replace", "", "", ""),
            Fault::Limit(_) => refusal_line(Refusal::BadLimits),
            Fault::Refused { refusal, .. } => refusal_line(*refusal),
        }
    }

    /// The line that explains it, if it is to be explained: it names what was refused, where the command line has a name of it.
    pub fn explanation(&self, explains: bool) -> Option<Message<'a>>
        ensures { option_map message_text result ≡ explained explains self.now }
    {
        if !explains {
            return None;
        }
        match self {
            Fault::Limit(option) => Some(Message::of(
                "htmlp: --",
                option.name(),
                " is ",
                option.range_text(),
            )),
            Fault::Refused { refusal, name } => name_line(around_name(*refusal), *name),
            _ => None,
        }
    }
}

/// What is said of a value that is no number: as `clap` says it, in two lines.
fn no_number<'a>(value: &'a str, name: &'a str, range: &'a str) -> Message<'a>
    ensures { message_text result ≡ number_line value.now name.now range.now }
{
    let words = [
        "error: invalid value '",
        value,
        "' for '--",
        name,
        " <N>': ",
        range,
        "\n\nFor more information, try '--help'.",
    ];
    Message {
        words,
        number: None,
    }
}

fn refusal_line<'a>(refusal: Refusal) -> Message<'a>
    ensures { message_text result ≡ refusal_line refusal }
{
    match refusal {
        Refusal::Read => Message::of("fault: cannot read", "", "", ""),
        Refusal::Write => Message::of("fault: cannot write", "", "", ""),
        _ => Message {
            words: match refusal.detail() {
                Some(word) => ["refused: ", refusal.name(), " ", word, "", "", ""],
                None => ["refused: ", refusal.name(), "", "", "", "", ""],
            },
            number: refusal.number(),
        },
    }
}

/// What stands around the name of what was refused.
fn around_name<'a>(refusal: Refusal) -> Option<(&'a str, &'a str)>
    ensures { option_map (λ p. (p.0.now, p.1.now)) result ≡ around_name refusal }
{
    match refusal {
        Refusal::Read => Some(("htmlp: cannot read '", "'")),
        Refusal::BadTable { .. } => Some(("htmlp: '", "' is not a table of character references")),
        Refusal::BadQuirks { .. } => Some(("htmlp: '", "' is not a list of quirky doctypes")),
        Refusal::BadContext => Some((
            "htmlp: '",
            "' is not the name of an element in which a fragment can stand",
        )),
        _ => None,
    }
}

fn name_line<'a>(around: Option<(&'a str, &'a str)>, name: Option<&'a str>) -> Option<Message<'a>>
    ensures { option_map message_text result
        ≡ name_line (option_map (λ p. (p.0.now, p.1.now)) around.entry) (option_map (λ s. s.now) name.entry) }
{
    let (before, after) = around?;
    Some(Message::of(before, name?, after, ""))
}

impl From<AllocError> for Fault<'_> {
    ghost from_gives = { λ _ f. f ≡ fault.Memory };

    fn from(_: AllocError) -> Self {
        Fault::Memory
    }
}

impl From<clap::Error> for Fault<'_> {
    ghost from_gives = { λ error f. f ≡ fault_of_error error };

    fn from(error: clap::Error) -> Self {
        if error.kind() == ErrorKind::OutOfMemory {
            return Fault::Memory;
        }
        Fault::Line(error)
    }
}

impl From<Refusal> for Fault<'_> {
    ghost from_gives = { λ refusal f. f ≡ fault.Refused refusal None };

    fn from(refusal: Refusal) -> Self {
        Fault::Refused {
            refusal,
            name: None,
        }
    }
}

/// A line without its end: words, one after another, and a number after the word that says what it counts, if there is one.
#[derive(Clone, Copy)]
pub struct Message<'a> {
    pub words: [&'a str; 7],
    pub number: Option<(&'a str, u64)>,
}

impl<'a> Message<'a> {
    /// A line of these words.
    pub fn of(first: &'a str, second: &'a str, third: &'a str, fourth: &'a str) -> Message<'a>
        ensures { message_text result ≡ concat (first.now ∷ second.now ∷ third.now ∷ fourth.now ∷ []) }
    {
        let words = [first, second, third, fourth, "", "", ""];
        Message {
            words,
            number: None,
        }
    }
}

impl fmt::Display for Message<'_> {
    ghost output = { λ message. Some (message_text message) };

    fn fmt<W: fmt::Write>(&self, f: &mut fmt::Formatter<W>) -> fmt::Result {
        for word in &self.words {
            f.write_str(word)?;
        }
        match self.number {
            Some((word, number)) => write!(f, " {word} {number}"),
            None => Ok(()),
        }
    }
}
