//! An input that comes in pieces.

ghost use Rattle.std.specs.Prelude.{◌≡◌, ℕ, List, [], ◌++◌};
ghost use Rattle.hparse.specs.Vocabulary.{gives_item, HasRead, FeedsPiece, EndsInput, Manner, Began, bom_of};

use crate::feeding::Feeding;
use crate::options::Options;
use htext::{Bom, Decoder};
use htoken::{Start, TokenSink, Tokenizer};
use names::{Names, Refusal};
use std::alloc::Global;

/// The decoder of an input, and what its text is fed to.
pub struct Reading<'t, S> {
    pub decoder: Decoder,
    pub feeding: Feeding<'t, S>,
}

// Written out, as that of a parser.
impl<'t, S: Drop> Drop for Reading<'t, S> {
    fn drop(self) {
        let Reading { decoder, feeding } = self;
        drop(decoder);
        drop(feeding);
    }
}

/// A document loses a leading byte order mark.
fn bom(start: Start) -> Bom
    ensures { result ≡ bom_of start }
{
    match start {
        Start::Document => Bom::Drop,
        Start::Context(_) => Bom::Keep,
    }
}

impl<'t, S: TokenSink> Reading<'t, S> {
    /// An input of which nothing has been read.
    pub fn new(
        alloc: Global,
        options: &Options<'t>,
        start: Start,
        names: Names,
        sink: S,
    ) -> Reading<'t, S>
        ensures { HasRead (gives_item S.gives S.gives_token)
            (record { table = options.now.table.now; start = start; bad = options.now.bad_bytes; limit = options.now.limits.input })
            (record { names = names; sink = sink }) result [] }
    {
        prove!(names.are_names());
        Reading {
            decoder: Decoder::new(alloc, bom(start), options.bad_bytes, options.limits.input()),
            feeding: Feeding {
                names,
                tokenizer: Tokenizer::new(alloc, options.table, start),
                sink,
                stopped: false,
            },
        }
    }

    /// Reads the next piece. Nothing is fed after an error.
    pub fn feed(&mut self, piece: &[u8]) -> Result<(), Refusal>
        ensures { (m : Manner) (began : Began S) (bytes : List ℕ) → HasRead (gives_item S.gives S.gives_token) m began self.old bytes
            → FeedsPiece (gives_item S.gives S.gives_token) m began (bytes ++ piece.now) result self.new }
    {
        match self.decoder.feed(piece, &mut self.feeding) {
            Ok(()) => {
                prove!(self.feeding.all_fed());
                prove!(self.feeding.are_names());
                Ok(())
            }
            Err(refusal) => Err(self.feeding.refuse(refusal)),
        }
    }

    pub fn end(&mut self) -> Result<(), Refusal>
        ensures { (m : Manner) (began : Began S) (bytes : List ℕ) → HasRead (gives_item S.gives S.gives_token) m began self.old bytes
            → EndsInput (gives_item S.gives S.gives_token) m began bytes result self.new }
    {
        match self.decoder.finish(&mut self.feeding) {
            Ok(()) => self.feeding.finish(self.decoder.read()),
            Err(refusal) => Err(self.feeding.refuse(refusal)),
        }
    }

    pub fn into_parts(self) -> (Names, S)
        ensures names { result.0 ≡ self.entry.feeding.names }
        ensures sink { result.1 ≡ self.entry.feeding.sink }
    {
        let Reading { decoder, feeding } = self;
        drop(decoder);
        let Feeding {
            names,
            tokenizer,
            sink,
            ..
        } = feeding;
        drop(tokenizer);
        (names, sink)
    }
}
