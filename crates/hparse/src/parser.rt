//! A parser that is fed bytes.

ghost use Rattle.std.specs.Prelude.{◌≡◌, ◌<◌, ◌⊎◌, ℕ, List, [], ◌++◌, None, Some, true, false, Err, option_map, IfErr, IfOk, MatchResult};
ghost use Rattle.hparse.specs.Vocabulary.{again_laid, Refused, BadContext, Memory, ParseCase, ParseOptions, document, fragment, is_context, ReadsInput, AnswersParse, FeedsParser, IsUnfed, HasParsed, IsBuilt, IsMadeOf, ShowsParse, options_of, IsUnrefused};

use crate::builder_with_origins::BuilderWithOrigins;
use crate::collect::sort_errors;
use crate::context::is_context;
use crate::options::Options;
use crate::origins::{Origin, note_again};
use crate::parsed::Parsed;
use crate::reader::read_to_end;
use crate::reading::Reading;
use crate::source::Source;
use hmodes::{Builder, Built};
use hnodes::NodeId;
use htoken::Start;
use names::{Names, Refusal};
use std::alloc::{AllocError, Global};

/// Parses a document or a fragment that comes in pieces. After a refusal each further call returns the same refusal.
pub struct Parser<'t> {
    // On the heap, so that whoever hands on a parser moves a pointer.
    pub(crate) reading: Box<Reading<'t, BuilderWithOrigins<'t>>>,
    pub(crate) refused: Option<Refusal>,
}

// Written out: a derived drop is read anew in the proof of each function that may drop a parser.
impl<'t> Drop for Parser<'t> {
    fn drop(self) {
        let Parser {
            reading,
            refused: _,
        } = self;
        drop(reading);
    }
}

impl<'t> Parser<'t> {
    /// The parser of a document. An error is `Memory`.
    pub fn document(alloc: Global, options: &Options<'t>) -> Result<Parser<'t>, Refusal>
        ensures { MatchResult result (λ parser. HasParsed (options_of options.now) document parser []) (λ refusal. refusal ≡ Memory) }
    {
        let builder = Builder::document(alloc, options.keys, options.quirks, options.limits)?;
        let names = Names::new(alloc, options.keys);
        Ok(begun(alloc, options, Start::Document, names, builder)?)
    }

    /// The parser of a fragment in the context of an element of this name (`#html-fragment-parsing-algorithm`): 1 to 64 bytes, a lower
    /// letter, then lower letters, digits, `-`, `_` and `:`, but neither colgroup nor a name that is left out of the profile. An error is
    /// `BadContext`, which is found first, or `Memory`.
    pub fn fragment(
        alloc: Global,
        context: &str,
        options: &Options<'t>,
    ) -> Result<Parser<'t>, Refusal>
        ensures { MatchResult result (λ parser. (is_context context.now ≡ true) × HasParsed (options_of options.now) (fragment context.now) parser [])
            (λ refusal. ((is_context context.now ≡ true) × (refusal ≡ Memory)) ⊎ ((is_context context.now ≡ false) × (refusal ≡ BadContext))) }
    {
        if !is_context(context) {
            return Err(Refusal::BadContext);
        }
        let mut names = Names::new(alloc, options.keys);
        let name = names.intern(alloc, context)?;
        let builder = Builder::fragment(alloc, options.keys, name, options.limits)?;
        let start = Start::Context(name.tag().raw_kind());
        Ok(begun(alloc, options, start, names, builder)?)
    }

    /// Parses the next piece. What the bytes so far are refused for, whatever comes after them, may be returned here.
    pub fn feed(&mut self, piece: &[u8]) -> Result<(), Refusal>
        ensures feeds { (opts : ParseOptions) (parse_case : ParseCase) (bytes : List ℕ) → HasParsed opts parse_case self.old bytes
            → FeedsParser opts parse_case (bytes ++ piece.now) result self.new }

        // After a refusal every later call returns the same one.
        ensures refused { IfErr result (λ refusal. self.new.refused ≡ Some refusal) }
        ensures again { (refusal : Refused) → self.old.refused ≡ Some refusal → (result ≡ Err refusal) × (self.new ≡ self.old) }
    {
        if let Some(refusal) = self.refused {
            return Err(refusal);
        }
        match self.reading.feed(piece) {
            Ok(()) => Ok(()),
            Err(refusal) => {
                prove!(self.reading.feeding.are_names());
                self.refused = Some(refusal);
                Err(refusal)
            }
        }
    }

    /// Ends the input, and gives what it was parsed as.
    pub fn finish(mut self) -> Result<Parsed, Refusal>
        ensures shows { (opts : ParseOptions) (parse_case : ParseCase) (bytes : List ℕ) → HasParsed opts parse_case self.entry bytes
            → ShowsParse opts parse_case bytes result }
        ensures again { (refusal : Refused) → self.entry.refused ≡ Some refusal → result ≡ Err refusal }
    {
        if let Some(refused) = self.refused {
            return Err(refused);
        }
        let answer = self.reading.end();
        prove!(self.reading.feeding.are_names());
        answer?;
        self.built()
    }

    /// What it has built, with the errors in their order, or what its builder has refused.
    fn built(self) -> Result<Parsed, Refusal>
        ensures built { self.entry.reading.value.feeding.sink.builder.refused ≡ None
            → MatchResult result (IsBuilt self.entry.reading.value.feeding.names self.entry.reading.value.feeding.sink) (λ refusal. refusal ≡ Memory) }
        ensures again { (refusal : Refused) → self.entry.reading.value.feeding.sink.builder.refused ≡ Some refusal → result ≡ Err refusal }
    {
        let Parser {
            reading,
            refused: _,
        } = self;
        let (names, sink) = Box::into_inner(reading).into_parts();
        let (builder, makings) = sink.into_parts();
        match builder.finish() {
            Ok(built) => in_order(names, built, makings),
            Err(refusal) => {
                drop(names);
                drop(makings);
                Err(refusal)
            }
        }
    }
}

/// A parser that was fed nothing.
fn begun<'t>(
    alloc: Global,
    options: &Options<'t>,
    start: Start,
    names: Names,
    builder: Builder<'t>,
) -> Result<Parser<'t>, AllocError>
    ensures { IfOk result (IsUnfed options.now start names builder.entry) }
{
    let sink = BuilderWithOrigins::new(alloc, builder, options.places)?;
    let reading = Reading::new(alloc, options, start, names, sink);
    Ok(Parser {
        reading: Box::new(alloc, reading)?,
        refused: None,
    })
}

/// Parses what a reader gives, in pieces of at most this many bytes, after what the parser was fed. Reading goes on to the end,
/// unless a read fails or a piece brings a refusal. A parser that has refused gives the same refusal, and nothing is read.
pub fn parse_reader<R: Source>(
    alloc: Global,
    mut parser: Parser,
    piece: usize,
    source: &mut R,
) -> Result<Parsed, Refusal>
    requires { 0 < piece }
    ensures reads { (opts : ParseOptions) (parse_case : ParseCase) (fed : List ℕ) → HasParsed opts parse_case parser.entry fed
        → ReadsInput R.left R.failed (AnswersParse opts parse_case) (IsUnrefused opts parse_case) piece fed source.old source.new result }

    // After a refusal of the parser nothing is read.
    ensures again { (refusal : Refused) → parser.entry.refused ≡ Some refusal → (result ≡ Err refusal) × (source.new ≡ source.old) }
{
    if let Some(refusal) = parser.refused {
        return Err(refusal);
    }
    let answer = read_to_end(alloc, piece, &mut parser.reading, source);
    prove!(parser.reading.feeding.are_names());
    answer?;
    parser.built()
}

/// Where the nodes came from, if that is asked for, with the elements noted that were made again.
fn with_again(places: Option<Vec<Origin>>, again: &[(NodeId, NodeId)]) -> Option<Vec<Origin>>
    ensures { option_map (λ list. list.items) result ≡ option_map (λ list. again_laid again.now list.items) places }
{
    let mut list = places?;
    for (element, of) in again {
        note_again(&mut list, *element, *of);
    }
    Some(list)
}

/// What was built, with the errors in their order, and with the elements noted that were made again.
fn in_order(names: Names, built: Built, places: Option<Vec<Origin>>) -> Result<Parsed, Refusal>
    requires { built.root < built.tree.made }
    ensures { MatchResult result (IsMadeOf names built.tree built.root built.errors.items
        (option_map (λ list. again_laid built.again.items list.items) places)) (λ refusal. refusal ≡ Memory) }
{
    let Built {
        tree,
        root,
        mut errors,
        again,
    } = built;
    let places = with_again(places, &again);
    drop(again);
    let sorted = sort_errors(&mut errors);
    let parsed = Parsed {
        tree,
        root,
        names,
        errors,
        places,
    };
    if sorted.is_err() {
        drop(parsed);
        return Err(Refusal::Memory);
    }
    Ok(parsed)
}
