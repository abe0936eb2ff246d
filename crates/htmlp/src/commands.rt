//! The commands of the program, as `clap` reads them.

ghost use Rattle.std.specs.Prelude.{◌≡◌, map, false, IfOk};
ghost use Rattle.htmlp.specs.Vocabulary.{app_of, new_app, rule_of, with_rule, fields_of, bare_program, choice_rule, command_app, context_rules, explain_rule, file_rule, named_reads, program, with_commands, with_rules};

use clap::{Arg, ArgAction, Command};
use std::alloc::{AllocError, Global};

/// What a command reads.
#[derive(Clone, Copy)]
pub enum Reads {
    /// A document.
    Document,
    /// A fragment where its context is named, and a document otherwise.
    Either,
    /// The same, and how HTML is escaped.
    Written,
    /// A fragment.
    Fragment,
}

/// A command of the program.
pub struct CommandEntry {
    pub name: &'static str,
    pub about: &'static str,
    /// What is at the end of its help.
    pub example: &'static str,
    pub reads: Reads,
}

/// An option that has a value.
struct Choice {
    name: &'static str,
    /// What its value is called.
    value: &'static str,
    help: &'static str,
}

/// The commands, in the order in which help lists them.
static COMMANDS: [CommandEntry; 6] = [
    CommandEntry {
        name: "tokens",
        about: "The tokens of a document, a line each",
        example: "Example: printf '<p class=x>a' | htmlp tokens",
        reads: Reads::Document,
    },
    CommandEntry {
        name: "tree",
        about: "The tree of a document",
        example: "Example: htmlp tree --entities entities.json page.html",
        reads: Reads::Document,
    },
    CommandEntry {
        name: "errors",
        about: "The parse errors of a document, or of a fragment, a line each: the byte and the code",
        example: "Example: printf '<p id=a id=b>' | htmlp errors --in div",
        reads: Reads::Either,
    },
    CommandEntry {
        name: "write",
        about: "The serialization of a document, or of a fragment",
        example: "Example: htmlp write --in div --escape 2 fragment.html",
        reads: Reads::Written,
    },
    CommandEntry {
        name: "fragment",
        about: "The tree of a fragment in the context of an element of a name",
        example: "Example: printf '<b>1<p>2</b>3</p>' | htmlp fragment --in div",
        reads: Reads::Fragment,
    },
    CommandEntry {
        name: "plain",
        about: "Whether a fragment comes back when its serialization is parsed: plain or not plain",
        example: "Example: printf '<form><div></form><form>x' | htmlp plain --in div",
        reads: Reads::Fragment,
    },
];

/// The option that names a fragment's context.
const CONTEXT: Choice = Choice {
    name: "in",
    value: "NAME",
    help: "The element in which the input stands",
};

/// What a command has that may read a fragment.
static EITHER: [Choice; 1] = [CONTEXT];

/// The same, and the option that names a way of escaping.
static WRITTEN: [Choice; 2] = [
    CONTEXT,
    Choice {
        name: "escape",
        value: "N",
        help: "Whether < and > stay in attribute values, 1, or are escaped, 2 [default: 1]",
    },
];

/// The options of each command.
static EACH: [Choice; 6] = [
    Choice {
        name: "piece",
        value: "N",
        help: "Bytes fed at a time, 1 to 65536 [default: 65536]",
    },
    Choice {
        name: "entities",
        value: "FILE",
        help: "The table of character references [default: amp, lt, gt, quot, nbsp]",
    },
    Choice {
        name: "quirks",
        value: "FILE",
        help: "The list of quirky doctypes [default: an empty list]",
    },
    Choice {
        name: "bad-bytes",
        value: "WORD",
        help: "What becomes of bytes that are not UTF-8: refuse or replace [default: refuse]",
    },
    Choice {
        name: "nodes",
        value: "N",
        help: "The most nodes, 16 to 16777216 [default: 16777216]",
    },
    Choice {
        name: "open",
        value: "N",
        help: "The most open elements, 16 to 1048576 [default: 1048576]",
    },
];

/// The program's command line, as `clap` reads it.
pub fn command_line<'a>(alloc: Global) -> Result<Command<'a>, AllocError>
    ensures { IfOk result (λ command. app_of command ≡ program) }
{
    with_commands(alloc, bare_program(alloc), &COMMANDS)
}

fn bare_program<'a>(alloc: Global) -> Command<'a>
    ensures { app_of result ≡ bare_program }
{
    Command::new(alloc, "htmlp")
        .about("Reads HTML as the HTML Standard says")
        .after_help(
            "htmlp --version writes the version, htmlp COMMAND --help the options of a command.",
        )
        .subcommand_required(true)
        .disable_help_subcommand(true)
}

fn with_commands<'a>(
    alloc: Global,
    line: Command<'a>,
    entries: &[CommandEntry],
) -> Result<Command<'a>, AllocError>
    ensures { IfOk result (λ new. app_of new ≡ with_commands (map named_reads entries.now) (app_of line.entry)) }
{
    let mut line = line;
    for entry in entries {
        let command = command(alloc, entry)?;
        line = line.subcommand(command)?;
    }
    Ok(line)
}

fn command<'a>(alloc: Global, entry: &CommandEntry) -> Result<Command<'a>, AllocError>
    ensures shape { IfOk result (λ command. app_of command ≡ command_app (named_reads entry.now)) }
    ensures local { IfOk result (λ command. (fields_of command).has_globals ≡ false) }
{
    let bare = bare_command(alloc, entry)?;
    let (choices, required) = choices(entry.reads);
    let chosen = with_choices(alloc, bare, choices, required)?;
    with_choices(alloc, chosen, &EACH, false)?.arg(explain(alloc))
}

fn bare_command<'a>(alloc: Global, entry: &CommandEntry) -> Result<Command<'a>, AllocError>
    ensures shape { IfOk result (λ command. app_of command ≡ with_rule (new_app entry.now.name.now) file_rule) }
    ensures local { IfOk result (λ command. (fields_of command).has_globals ≡ false) }
{
    Command::new(alloc, entry.name)
        .about(entry.about)
        .after_help(entry.example)
        .arg(
            Arg::new(alloc, "file")
                .value_name("FILE")
                .help("The input [default: standard input]"),
        )
}

/// The options of a command by what it reads, and whether they are required: that which names a fragment's context, and that of escaping.
fn choices(reads: Reads) -> (&'static [Choice], bool)
    ensures { map (choice_rule result.1) result.0.now ≡ context_rules reads }
{
    match reads {
        Reads::Document => (&[], false),
        Reads::Either => (&EITHER, false),
        Reads::Written => (&WRITTEN, false),
        Reads::Fragment => (&EITHER, true),
    }
}

fn with_choices<'a>(
    alloc: Global,
    command: Command<'a>,
    choices: &[Choice],
    required: bool,
) -> Result<Command<'a>, AllocError>
    requires { (fields_of command).has_globals ≡ false }
    ensures shape { IfOk result (λ new. app_of new ≡ with_rules (map (choice_rule required) choices.now) (app_of command.entry)) }
    ensures local { IfOk result (λ new. (fields_of new).has_globals ≡ false) }
{
    let mut command = command;
    for choice in choices {
        command = command.arg(option(alloc, choice, required))?;
    }
    Ok(command)
}

fn option<'a>(alloc: Global, choice: &Choice, required: bool) -> Arg<'a>
    ensures rule { rule_of result ≡ choice_rule required choice.now }
    ensures local { result.global ≡ false }
{
    Arg::new(alloc, choice.name)
        .long(choice.name)
        .value_name(choice.value)
        .help(choice.help)
        .required(required)
}

/// The option that asks for a line that explains a fault.
fn explain<'a>(alloc: Global) -> Arg<'a>
    ensures rule { rule_of result ≡ explain_rule }
    ensures local { result.global ≡ false }
{
    Arg::new(alloc, "explain")
        .long("explain")
        .help("A second line on standard error that names what was refused, as on a terminal")
        .action(ArgAction::SetTrue)
}
