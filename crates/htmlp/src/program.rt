//! The program: does what the words of its command line say.

ghost use Rattle.std.specs.Prelude.{◌≡◌, ◌<◌, ◌⊎◌, List, map, option_map, MatchResult, Ok, Err, string_bytes};
ghost use Rattle.htmlp.specs.Vocabulary.{Text, AreLimits, Bounds, IsLimitFault, task_of, option_value, SaysLine, range_of, IsInRange, AnswersInput, AnswersWords, ProgramAnswers, EndsProgram, IsExplained, FindsQuirks, FindsTable, WritesVersion, asks_version, told_of};

use crate::ending::ending;
use crate::fault::Fault;
use crate::line::{asks_explanation, line};
use crate::numeric::Numeric;
use crate::said::Line;
use crate::surroundings::Surroundings;
use charref::Table;
use hmarkup::Quirks;
use hmodes::Limits;
use hparse::{Options, Source};
use htext::MAX_INPUT;
use hwrite::{Command, Target, check_context, run, write_text};
use names::{Keys, Refusal};
use std::alloc::Global;

/// What the standard input is called.
const STANDARD_INPUT: &str = "standard input";

/// What `htmlp --version` writes.
pub const VERSION: &[u8] = b"htmlp 0.1.0\n";

/// Does what the words of the command line say, writes the lines that say why there is no answer, if there is none, and
/// returns the status of the program.
pub fn run_program<R: Surroundings, S: Source, W: Target, E: Target>(
    surroundings: &R,
    input: &mut S,
    output: &mut W,
    errors: &mut E,
) -> u8
    ensures { EndsProgram R.world R.File.left R.File.failed S.left S.failed W.written W.failed E.written E.failed
        surroundings.now input.old input.new output.old output.new errors.old errors.new result }
{
    match surroundings.words() {
        Ok(words) => {
            let outcome = answer(surroundings, &words, input, output);
            ending(&outcome, explains(surroundings, &words), errors)
        }
        Err(fault) => ending(&Err(fault), false, errors),
    }
}

/// Whether a fault is explained: where a person reads standard error, and where the words ask for it.
fn explains<R: Surroundings>(surroundings: &R, words: &[String]) -> bool
    ensures { IsExplained R.world surroundings.now (map string_bytes words.now) result }
{
    surroundings.on_terminal() || asks_explanation(words)
}

/// Does what the command line of these words says.
fn answer<'a, R: Surroundings, S: Source, W: Target>(
    surroundings: &R,
    words: &'a [String],
    input: &mut S,
    output: &mut W,
) -> Result<(), Fault<'a>>
    ensures { R.world.has_words surroundings.now (map string_bytes words.now) → ProgramAnswers R.world R.File.left R.File.failed S.left S.failed
        W.written W.failed surroundings.now input.old input.new output.old output.new result }
{
    let keys = surroundings.keys()?;
    if asks_version(words) {
        return write_version(output);
    }
    let line = line(surroundings.alloc(), words)?;
    let table = table(surroundings, line.entities)?;
    let quirks = quirks(surroundings, line.quirks)?;
    let outcome = answer_with(surroundings, keys, line, &table, &quirks, input, output);
    drop(quirks);
    drop(table);
    outcome
}

/// Whether the words are `--version` or `-V` alone, after the program's own name.
fn asks_version(words: &[String]) -> bool
    ensures { result ≡ asks_version (map string_bytes words.now) }
{
    match words {
        [_, word] => word.as_str() == "--version" || word.as_str() == "-V",
        _ => false,
    }
}

fn write_version<'a, W: Target>(output: &mut W) -> Result<(), Fault<'a>>
    ensures { WritesVersion W.written W.failed output.old output.new result }
{
    Ok(write_text(output, VERSION)?)
}

/// Does what a line says, which is what any words that it is of say, with the lists that it names.
fn answer_with<'a, R: Surroundings, S: Source, W: Target>(
    surroundings: &R,
    keys: Keys,
    line: Line<'a>,
    table: &Table,
    quirks: &Quirks,
    input: &mut S,
    output: &mut W,
) -> Result<(), Fault<'a>>
    requires { 0 < line.command.piece }
    ensures { (words : List Text) → SaysLine (task_of words) (option_value words) line.entry
        → FindsTable R.world surroundings.now (option_map (λ s. s.now) line.entry.entities) (Ok table.now)
        → FindsQuirks R.world surroundings.now (option_map (λ s. s.now) line.entry.quirks) (Ok quirks.now)
        → AnswersWords R.world R.File.left R.File.failed S.left S.failed W.written W.failed surroundings.now words
        input.old input.new output.old output.new result }
{
    let limits = limits(line.nodes, line.open)?;
    let name = line.command.context;
    match check_context(name) {
        Ok(()) => {}
        Err(refusal) => return Err(Fault::Refused { refusal, name }),
    }
    let options = Options {
        table,
        quirks,
        bad_bytes: line.bad_bytes,
        limits,
        keys,
        places: false,
    };
    let alloc = surroundings.alloc();
    match line.file {
        Some(name) => match surroundings.open(name) {
            Some(mut file) => answer_input(alloc, line.command, &options, name, &mut file, output),
            None => Err(Fault::Refused {
                refusal: Refusal::Read,
                name: Some(name),
            }),
        },
        None => answer_input(alloc, line.command, &options, STANDARD_INPUT, input, output),
    }
}

fn limits<'a>(nodes: u64, depth: u64) -> Result<Limits, Fault<'a>>
    ensures { let said : Bounds = record { input = MAX_INPUT; tree = record { nodes = nodes; depth = depth } } in
        MatchResult result (λ l. AreLimits said × (l ≡ said)) (λ why. (AreLimits said → ⊥) × IsLimitFault said.tree why) }
{
    match Limits::new(MAX_INPUT, nodes, depth) {
        Ok(limits) => Ok(limits),
        Err(_) => Err(Fault::Limit(bad_limit(nodes))),
    }
}

/// The first limit that is out of its range, where one is.
fn bad_limit(nodes: u64) -> Numeric
    ensures { ((IsInRange (range_of Numeric.Nodes) nodes → ⊥) × (result ≡ Numeric.Nodes))
        ⊎ (IsInRange (range_of Numeric.Nodes) nodes × (result ≡ Numeric.Open)) }
{
    let (least, most) = Numeric::Nodes.range();
    if least <= nodes && nodes <= most {
        Numeric::Open
    } else {
        Numeric::Nodes
    }
}

/// The table of character references: that of the named file, or the core table.
fn table<'a, R: Surroundings>(surroundings: &R, name: Option<&'a str>) -> Result<Table, Fault<'a>>
    ensures { MatchResult result
        (λ table. FindsTable R.world surroundings.now (option_map (λ s. s.now) name.entry) (Ok table))
        (λ why. FindsTable R.world surroundings.now (option_map (λ s. s.now) name.entry) (Err why)) }
{
    match name {
        None => Ok(Table::core(surroundings.alloc())?),
        Some(file) => {
            let text = surroundings.text(file)?;
            match Table::read(surroundings.alloc(), &text) {
                Ok(table) => Ok(table),
                Err(refusal) => Err(Fault::Refused { refusal, name }),
            }
        }
    }
}

/// The quirks list: that of the named file, or the empty one.
fn quirks<'a, R: Surroundings>(surroundings: &R, name: Option<&'a str>) -> Result<Quirks, Fault<'a>>
    ensures { MatchResult result
        (λ quirks. FindsQuirks R.world surroundings.now (option_map (λ s. s.now) name.entry) (Ok quirks))
        (λ why. FindsQuirks R.world surroundings.now (option_map (λ s. s.now) name.entry) (Err why)) }
{
    match name {
        None => Ok(Quirks::read(surroundings.alloc(), "")?),
        Some(file) => {
            let text = surroundings.text(file)?;
            match Quirks::read(surroundings.alloc(), &text) {
                Ok(quirks) => Ok(quirks),
                Err(refusal) => Err(Fault::Refused { refusal, name }),
            }
        }
    }
}

fn answer_input<'a, S: Source, W: Target>(
    alloc: Global,
    command: Command,
    options: &Options,
    name: &'a str,
    source: &mut S,
    target: &mut W,
) -> Result<(), Fault<'a>>
    requires piece { 0 < command.piece }
    ensures { AnswersInput S.left S.failed W.written W.failed (told_of command.entry options.now) name.now source.old source.new target.old target.new
        result }
{
    match run(alloc, command, options, source, target) {
        Ok(()) => Ok(()),
        Err(refusal) => Err(Fault::Refused {
            refusal,
            name: Some(name),
        }),
    }
}
