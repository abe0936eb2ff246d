//! What an input is parsed as, and the rows of its tree.

ghost use Rattle.std.specs.Prelude.{MatchResult};
ghost use Rattle.html_c.specs.Vocabulary.{GivesNoRows, GivesNothing, GivesRows, HasSettings, GivesParse, parsed_rows, parsed_words};

use crate::answer::Given;
use crate::fault::CallFault;
use crate::given::Settings;
use crate::input::Input;
use crate::rows::Rows;
use hparse::{Parsed, parse_reader};
use hwrite::parser;
use std::alloc::Global;

/// The tree of an input, with its rows and its words counted.
pub(crate) fn rows_of(alloc: Global, input: &[u8], given: &Given) -> Result<Rows, CallFault>
    ensures { MatchResult result (λ rows. GivesRows input.now given.now (parsed_rows rows.parsed) (parsed_words rows.parsed))
        (GivesNothing given.now.size (GivesNoRows input.now given.now)) }
{
    let settings = given.settings(input)?;
    let parsed = parse_of(alloc, input, given, &settings, false)?;
    Ok(Rows::of(parsed)?)
}

/// What an input is parsed as, with the places of its nodes where they are asked for.
pub(crate) fn parse_of(
    alloc: Global,
    input: &[u8],
    given: &Given,
    settings: &Settings,
    places: bool,
) -> Result<Parsed, CallFault>
    requires { HasSettings given.now settings.now }
    ensures { MatchResult result (GivesParse input.now given.now places) (GivesNoRows input.now given.now) }
{
    let lists = given.lists(alloc, input)?;
    let options = given.options(&lists, places);
    let parser = parser(alloc, settings.context, &options)?;
    let mut source = Input { rest: input };
    Ok(parse_reader(alloc, parser, settings.piece, &mut source)?)
}
