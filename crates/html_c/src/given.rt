//! The options of a call, and its lists.

ghost use Rattle.std.specs.Prelude.{◌≡◌, IsUtf8, MatchResult, Some};
ghost use Rattle.html_c.specs.declared.fault.CallFault.TheVariants as fault;
ghost use Rattle.html_c.specs.Table.{Flat, Json, ReadsTableBytes, table_form};
ghost use Rattle.html_c.specs.Vocabulary.{options_of, own_context, AllowsContext, bad_told, context_told, escaping_told, keys_told, may_be_in, task_told, GivesNothing, HasLists, HasSettings, IsCommand, IsSize, NoCommand, NoEscaping, Settings, Tells, Unmet};

use crate::answer::Given;
use crate::fault::CallFault;
use charref::Table;
use hmarkup::Quirks;
use hmodes::Limits;
use hparse::Options;
use htext::{BadBytes, MAX_INPUT};
use hwrite::{Command, Escaping, Task, check_context};
use names::{Keys, Refusal};
use std::alloc::Global;

/// The bytes of options that the library knows.
const SIZE: usize = 104;

/// The most bytes that are fed at a time.
const MOST_PIECE: u64 = 65_536;

/// The first byte of a flat form. No JSON text begins with it; no bytes are the core table.
const FLAT: u8 = 1;

/// The tasks that are of documents, or of fragments, alone.
const TOKENS: u32 = 0;

const PLAIN: u32 = 4;

const PLAIN_DOCUMENT: u32 = 5;

fn task_of(number: u32) -> Option<Task>
    ensures { result ≡ task_told number }
{
    match number {
        TOKENS => Some(Task::Tokens),
        1 => Some(Task::Tree),
        2 => Some(Task::Errors),
        3 => Some(Task::Write),
        PLAIN | PLAIN_DOCUMENT => Some(Task::Plain),
        _ => None,
    }
}

/// Whether the task of a number is one for a fragment in this element, or for a document where there is none.
fn may_be_in(number: u32, context: Option<&str>) -> bool
    ensures { result ≡ may_be_in number (own_context context.entry) }
{
    match context {
        Some(_) => number != TOKENS && number != PLAIN_DOCUMENT,
        None => number != PLAIN,
    }
}

/// The lists that are given, what becomes of bytes that are not UTF-8, and how large a tree may become.
#[derive(Drop)]
pub(crate) struct Lists {
    table: Table,
    quirks: Quirks,
    bad_bytes: BadBytes,
    limits: Limits,
}

/// How an input is read.
#[derive(Clone, Copy)]
pub(crate) struct Settings<'a> {
    /// The name of the element in which it is, if it is a fragment.
    pub(crate) context: Option<&'a str>,
    /// How many bytes are fed at a time: no more than there are, as the buffer has so many.
    pub(crate) piece: usize,
}

impl<'a> Given<'a> {
    /// How this input is read. Of options of a size that the library does not know no more is read; every other call here requires that
    /// their size is known.
    pub(crate) fn settings(&self, input: &[u8]) -> Result<Settings<'a>, CallFault>
        ensures { MatchResult result (HasSettings self.now) (GivesNothing self.now.size (Unmet self.now)) }
    {
        if self.size != SIZE {
            return Err(CallFault::BadSize);
        }
        let context = self.context()?;
        if self.piece == 0 || self.piece > MOST_PIECE {
            return Err(CallFault::BadNumber);
        }
        let piece = (self.piece as usize).min(input.len()).max(1);
        Ok(Settings { context, piece })
    }

    fn context(&self) -> Result<Option<&'a str>, CallFault>
        requires { IsSize self.now.size }
        ensures { let told = context_told self.now.context.now in
            MatchResult result (λ name. (own_context name ≡ told) × AllowsContext told) (Unmet self.now) }
    {
        if self.context.is_empty() {
            return Ok(None);
        }
        let name = text_of(self.context)?;
        check_context(Some(name))?;
        Ok(Some(name))
    }

    fn bad_bytes(&self) -> Result<BadBytes, CallFault>
        requires { IsSize self.now.size }
        ensures { MatchResult result (λ bad. bad_told self.now.bad_bytes ≡ Some bad) (Unmet self.now) }
    {
        match self.bad_bytes {
            0 => Ok(BadBytes::Refuse),
            1 => Ok(BadBytes::Replace),
            _ => Err(CallFault::BadNumber),
        }
    }

    pub(crate) fn escaping(&self) -> Result<Escaping, CallFault>
        requires { IsSize self.now.size }
        ensures { MatchResult result (λ how. escaping_told self.now.escaping ≡ Some how) (NoEscaping self.now) }
    {
        match self.escaping {
            1 => Ok(Escaping::One),
            2 => Ok(Escaping::Two),
            _ => Err(CallFault::BadNumber),
        }
    }

    /// The command that is given, with the task of this number.
    pub(crate) fn command(
        &self,
        number: u32,
        settings: &Settings<'a>,
    ) -> Result<Command<'a>, CallFault>
        requires { HasSettings self.now settings.now }
        ensures { MatchResult result (IsCommand number self.now) (NoCommand number self.now) }
    {
        let Some(task) = task_of(number) else {
            return Err(CallFault::BadNumber);
        };
        if !may_be_in(number, settings.context) {
            return Err(CallFault::Refused(Refusal::BadContext));
        }
        Ok(Command {
            task,
            context: settings.context,
            escaping: self.escaping()?,
            piece: settings.piece,
            is_last: false,
        })
    }

    pub(crate) fn lists(&self, alloc: Global, input: &[u8]) -> Result<Lists, CallFault>
        requires { IsSize self.now.size }
        ensures { MatchResult result (HasLists self.now) (Unmet self.now) }
    {
        let bad_bytes = self.bad_bytes()?;
        let limits = Limits::new(MAX_INPUT, self.nodes, self.open)?;
        let table = table_of(alloc, self.entities, input)?;
        let quirks = Quirks::read(alloc, text_of(self.quirks)?)?;
        Ok(Lists {
            table,
            quirks,
            bad_bytes,
            limits,
        })
    }

    /// The options, which lend the lists, and ask for the places of nodes or not.
    pub(crate) fn options<'t>(&self, lists: &'t Lists, places: bool) -> Options<'t>
        requires settings { (settings : Settings) × HasSettings self.now settings }
        requires lists { HasLists self.now lists.now }
        ensures told { Tells self.now (options_of result) }
        ensures keys { result.keys ≡ keys_told self.now }
        ensures places { result.places ≡ places }
    {
        let key = (u128::from(self.key_high) << 64) | u128::from(self.key_low);
        Options {
            table: &lists.table,
            quirks: &lists.quirks,
            bad_bytes: lists.bad_bytes,
            limits: lists.limits,
            keys: Keys::new(key),
            places,
        }
    }
}

/// The table that these bytes say, for the look-ups of a text.
pub(crate) fn table_of(alloc: Global, bytes: &[u8], text: &[u8]) -> Result<Table, CallFault>
    ensures { ReadsTableBytes bytes.now result }
{
    match bytes.first() {
        None => Ok(Table::core(alloc)?),
        Some(&FLAT) => flat_table(alloc, bytes, text),
        Some(_) => json_table(alloc, bytes),
    }
}

fn flat_table(alloc: Global, bytes: &[u8], text: &[u8]) -> Result<Table, CallFault>
    requires { table_form bytes.now ≡ Flat }
    ensures { ReadsTableBytes bytes.now result }
{
    let table = Table::for_text(alloc, bytes, text)?;
    // So no other table has this form.
    let _form = table.as_flat();
    Ok(table)
}

fn json_table(alloc: Global, bytes: &[u8]) -> Result<Table, CallFault>
    requires { table_form bytes.now ≡ Json }
    ensures { ReadsTableBytes bytes.now result }
{
    Ok(Table::read(alloc, text_of(bytes)?)?)
}

/// The text that bytes are, if they are UTF-8.
fn text_of(bytes: &[u8]) -> Result<&str, CallFault>
    ensures { MatchResult result (λ text. text.now ≡ bytes.now) (λ why. (IsUtf8 bytes.now → ⊥) × (why ≡ fault.NotText)) }
{
    match str::from_utf8(bytes) {
        Ok(text) => Ok(text),
        Err(_) => Err(CallFault::NotText),
    }
}
