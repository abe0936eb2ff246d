//! The text of a task.

ghost use Rattle.std.specs.Prelude.{◌≡◌, ◌<◌, IfOk, MatchResult, Ok};
ghost use Rattle.html_c.specs.Vocabulary.{options_of, own_context, AllowsContext, context_of, prints_of, ComesToNone, GivesNone, GivesNothing, GivesText, written_in};

use crate::answer::Given;
use crate::fault::CallFault;
use crate::fitted::Fitted;
use crate::input::Input;
use hparse::Options;
use hwrite::{Command, run};
use names::Refusal;
use std::alloc::Global;

/// The text of a task of an input, of which no more is kept than has room.
pub(crate) fn text_of(
    alloc: Global,
    number: u32,
    input: &[u8],
    given: &Given,
    room: usize,
) -> Result<Fitted, CallFault>
    ensures says { MatchResult result (λ text. GivesText number input.now given.now (written_in text))
        (GivesNothing given.now.size (GivesNone number input.now given.now)) }
    ensures room { IfOk result (λ text. text.room ≡ room) }
{
    let settings = given.settings(input)?;
    let command = given.command(number, &settings)?;
    let lists = given.lists(alloc, input)?;
    let options = given.options(&lists, false);
    let text = text_in(alloc, command, input, &options, room);
    drop(lists);
    Ok(text?)
}

/// The text that a command makes of these bytes. As it is kept in memory, a failed write is a lack of memory.
fn text_in(
    alloc: Global,
    command: Command,
    input: &[u8],
    options: &Options,
    room: usize,
) -> Result<Fitted, Refusal>
    requires context { AllowsContext (context_of command.task (own_context command.context)) }
    requires piece { 0 < command.piece }
    ensures says { let prints = prints_of command.entry.escaping command.entry.task (own_context command.entry.context) (options_of options.now) in
        MatchResult result (λ text. prints input.now (Ok (written_in text))) (ComesToNone prints input.now) }
    ensures room { IfOk result (λ text. text.room ≡ room) }
{
    let mut source = Input { rest: input };
    let mut target = Fitted::new(alloc, room);
    match run(alloc, command, options, &mut source, &mut target) {
        Ok(()) => Ok(target),
        Err(refusal) => match refusal {
            Refusal::Write => Err(Refusal::Memory),
            _ => Err(refusal),
        },
    }
}
