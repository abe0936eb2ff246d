//! An input from a reader, and what is made of it to a writer.

ghost use Rattle.std.specs.Prelude.{◌≡◌, ◌<◌, OnOk, MatchResult};
ghost use Rattle.hwrite.specs.Vocabulary.{page_trees, Answers, of_document, options_of, IsUnrefusedText, as_document, own_context, case_in, is_plain_in, parsed_text, plain_line, tokens_text, Prints, ParserBeginsIn, Runs, RunsTask, IsFlushed, WritesText, BadContext, AllowsContext};

use crate::command::{Command, Task};
use crate::lines::Draft;
use hparse::{Options, Parsed, Parser, Source, is_context, parse_reader, read_into};
use hserialize::{Target, print_errors, print_tree, write_all};
use names::Refusal;
use std::alloc::Global;
use std::mem::forget;

/// Reads an input, and writes what the command makes of it. A context that is not allowed is refused before anything is read.
/// Reading stops after the piece that brings a refusal, and goes on to the end otherwise; nothing is written before. The size of
/// a piece has no influence on what is written.
pub fn run<S: Source, W: Target>(
    alloc: Global,
    command: Command,
    options: &Options,
    source: &mut S,
    target: &mut W,
) -> Result<(), Refusal>
    requires piece { 0 < command.piece }
    ensures runs { RunsTask S.left S.failed W.written W.failed command.entry.escaping command.entry.task (own_context command.entry.context)
        (options_of options.now) command.entry.piece
        source.old source.new target.old target.new result }
    ensures flushed { OnOk result (IsFlushed W.flushes target.new) }
{
    if let Task::Tokens = command.task {
        return run_tokens(alloc, command.piece, options, source, target);
    }
    let parser = parser(alloc, command.context, options)?;
    let parsed = parse_reader(alloc, parser, command.piece, source)?;
    let answer = print_parsed(alloc, command, &parsed, target);
    leave(parsed, command.is_last);
    answer
}

fn run_tokens<S: Source, W: Target>(
    alloc: Global,
    piece: usize,
    options: &Options,
    source: &mut S,
    target: &mut W,
) -> Result<(), Refusal>
    requires piece { 0 < piece }
    ensures runs { Runs S.left S.failed W.written W.failed
        (Prints (Answers options.now.table.now (of_document options.now.bad_bytes options.now.limits.input)) tokens_text)
        (IsUnrefusedText (as_document options.now.table.now options.now.bad_bytes options.now.limits.input)) piece
        source.old source.new target.old target.new result }
    ensures flushed { OnOk result (IsFlushed W.flushes target.new) }
{
    let (draft, answer) = read_into(alloc, piece, options, Draft::new(alloc), source);
    match answer {
        Ok(names) => {
            drop(names);
            let text = draft.into_text()?;
            write_text(target, text.as_bytes())
        }
        Err(refusal) => {
            drop(draft);
            Err(refusal)
        }
    }
}

/// Frees what was parsed, unless the process ends and the system takes it all at once.
fn leave(parsed: Parsed, is_last: bool) {
    if is_last {
        forget(parsed);
    } else {
        drop(parsed);
    }
}

fn print_parsed<W: Target>(
    alloc: Global,
    command: Command,
    parsed: &Parsed,
    target: &mut W,
) -> Result<(), Refusal>
    ensures text { WritesText W.written W.failed (parsed_text command.entry.escaping command.entry.task (own_context command.entry.context) parsed.now)
        target.old target.new result }
    ensures flushed { OnOk result (IsFlushed W.flushes target.new) }
{
    match command.task {
        Task::Errors => print_errors(alloc, &parsed.errors, target),
        Task::Write => parsed.serialize(alloc, command.escaping, target),
        Task::Plain => write_text(target, plain_line(command.context, parsed)),
        Task::Tree | Task::Tokens => {
            print_tree(alloc, &parsed.tree, &parsed.names, parsed.root, target)
        }
    }
}

/// What is printed of what was parsed in an element of this name, or of a document: whether it is plain there.
fn plain_line(context: Option<&str>, parsed: &Parsed) -> &'static [u8]
    ensures { result.now ≡ plain_line (is_plain_in (case_in (own_context context.entry)) (page_trees parsed.now)) }
{
    let is_plain = match context {
        Some(name) => parsed.is_plain(name),
        None => parsed.is_plain_document(),
    };
    if is_plain { b"plain\n" } else { b"not plain\n" }
}

/// The parser of a document, or of a fragment in an element of this name.
pub fn parser<'t>(
    alloc: Global,
    context: Option<&str>,
    options: &Options<'t>,
) -> Result<Parser<'t>, Refusal>
    ensures { ParserBeginsIn (options_of options.now) (own_context context.entry) result }
{
    match context {
        None => Parser::document(alloc, options),
        Some(name) => Parser::fragment(alloc, name, options),
    }
}

/// Whether an input may be in an element of this name, if there is a name. An error is `BadContext`.
pub fn check_context(context: Option<&str>) -> Result<(), Refusal>
    ensures { MatchResult result (λ _. AllowsContext (own_context context.entry)) (λ e. (e ≡ BadContext) × (AllowsContext (own_context context.entry) → ⊥)) }
{
    match context {
        Some(name) if !is_context(name) => Err(Refusal::BadContext),
        _ => Ok(()),
    }
}

/// Writes a text, and flushes.
pub fn write_text<W: Target>(target: &mut W, text: &[u8]) -> Result<(), Refusal>
    ensures text { WritesText W.written W.failed text.now target.old target.new result }
    ensures flushed { OnOk result (IsFlushed W.flushes target.new) }
{
    write_all(target, text)?;
    if target.flush() {
        Ok(())
    } else {
        Err(Refusal::Write)
    }
}
