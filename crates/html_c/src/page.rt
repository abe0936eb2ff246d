//! A page: the tree of an input, its parse errors and where its nodes came from as rows, and its HTML, by one parse.

ghost use Rattle.std.specs.Prelude.{◌≡◌, ◌≤◌, [], true, length, map, IfOk, MatchResult};
ghost use Rattle.html_c.specs.Vocabulary.{all_fit, error_row, page_answer, as_parts, put_parts, wants_told, GivesNoPage, GivesNothing, GivesPage, put_over};
ghost use Rattle.html_c.specs.Parts.{page_parts};

use crate::answer::{ErrorRow, Given, NodeRow, OriginRow, PageAnswer};
use crate::fault::CallFault;
use crate::fitted::Fitted;
use crate::room::{put_one, status};
use crate::rows::{Rows, put_origins};
use crate::tree::parse_of;
use names::ParseError;
use std::alloc::Global;

/// What is wanted of a page beside its tree.
#[derive(Clone, Copy)]
pub(crate) struct Wants {
    pub(crate) errors: bool,
    pub(crate) text: bool,
    pub(crate) origins: bool,
}

/// A page whose parts are counted, with as much of its text as has room.
#[derive(Drop)]
pub(crate) struct Page {
    pub(crate) tree: Rows,
    pub(crate) wants: Wants,
    pub(crate) text: Fitted,
}

fn wants_of(number: u32) -> Option<Wants>
    ensures { result ≡ wants_told number }
{
    if number < 8 {
        Some(Wants {
            errors: number % 2 == 1,
            text: number / 2 % 2 == 1,
            origins: number >= 4,
        })
    } else {
        None
    }
}

fn error_row(error: &ParseError) -> ErrorRow
    ensures { result ≡ error_row error.now }
{
    ErrorRow {
        at: error.at,
        code: u32::from(error.code.rank()),
    }
}

/// Writes the rows of parse errors to the beginning of a room, if they are to be written.
fn put_errors(fits: bool, errors: &[ParseError], room: &mut [ErrorRow])
    requires { fits ≡ true → length errors.now ≤ length room.old }
    ensures { room.new ≡ put_over fits (map error_row errors.now) room.old }
{
    if fits {
        let mut at = 0;
        for error in errors {
            at = put_one(error_row(error), room, at);
        }
    }
}

pub(crate) fn page_of(
    alloc: Global,
    number: u32,
    input: &[u8],
    given: &Given,
    room: usize,
) -> Result<Page, CallFault>
    ensures says { MatchResult result (λ page. GivesPage number input.now given.now (page_parts page))
        (GivesNothing given.now.size (GivesNoPage number input.now given.now)) }
    ensures room { IfOk result (λ page. page.text.room ≡ room) }
{
    let settings = given.settings(input)?;
    let Some(wants) = wants_of(number) else {
        return Err(CallFault::BadNumber);
    };
    let escaping = given.escaping()?;
    let parsed = parse_of(alloc, input, given, &settings, wants.origins)?;
    let tree = Rows::of(parsed)?;
    let mut text = Fitted::new(alloc, room);
    if wants.text {
        let answer = tree.parsed.serialize(alloc, escaping, &mut text);
        text = text.written(answer)?;
    }
    Ok(Page { tree, wants, text })
}

impl Page {
    /// Its parse errors, if they are wanted.
    fn errors(&self) -> &[ParseError]
        ensures { map error_row result.now ≡ (page_parts self.now).errors }
    {
        if self.wants.errors {
            &self.tree.parsed.errors
        } else {
            &[]
        }
    }

    /// How many rows of origins it has: as many as nodes, if they were asked for.
    fn origin_count(&self) -> usize
        ensures { result ≡ length (page_parts self.now).origins }
    {
        match &self.tree.parsed.places {
            Some(_) => self.tree.nodes,
            None => 0,
        }
    }

    /// Writes all parts to the beginnings of their rooms, if all of them fit, and answers how long they are.
    pub(crate) fn put(
        &self,
        rows: &mut [NodeRow],
        words: &mut [u8],
        errors: &mut [ErrorRow],
        text: &mut [u8],
        origins: &mut [OriginRow],
    ) -> PageAnswer
        requires { self.now.text.room ≡ length text.old }
        ensures put { as_parts rows.new words.new errors.new text.new origins.new
            ≡ put_parts (page_parts self.now) (as_parts rows.old words.old errors.old text.old origins.old) }
        ensures answer { result ≡ page_answer (all_fit (page_parts self.now) (as_parts rows.old words.old errors.old text.old origins.old))
            (page_parts self.now) }
    {
        let fits = self.tree.nodes <= rows.len()
            && self.tree.words <= words.len()
            && self.errors().len() <= errors.len()
            && self.text.count <= text.len()
            && self.origin_count() <= origins.len();
        self.tree.put(fits, rows, words);
        put_errors(fits, self.errors(), errors);
        self.text.put(fits, text);
        put_origins(fits, &self.tree.parsed, origins);
        PageAnswer {
            status: status(fits),
            detail: 0,
            at: 0,
            nodes: self.tree.nodes as u64,
            words: self.tree.words as u64,
            errors: self.errors().len() as u64,
            text: self.text.count as u64,
        }
    }
}
