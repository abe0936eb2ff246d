//! A tokenizer that is fed the text of an input.

ghost use Rattle.std.specs.Prelude.{◌≡◌, ◌+◌, ◌≤◌, List, [], true};
ghost use Rattle.hparse.specs.Vocabulary.{AreNames, Hands, MAX_INPUT, CharItem, bad_each, input_errors, gives_item, HoldsItems, EndsText, Refuses, Manner, Began};

use hmarkup::ErrorSink;
use htext::CharSink;
use htoken::{TokenSink, Tokenizer};
use names::{ErrorCode, Names, ParseError, Refusal};
use std::marker::Model;

/// A tokenizer, the names of its tokens, and the sink that takes them.
#[derive(Drop)]
pub struct Feeding<'t, S> {
    pub names: Names,
    pub tokenizer: Tokenizer<'t>,
    pub sink: S,

    /// Whether the tokenizer or the sink has refused something: what a decoder then returns is that, and no refusal of its own.
    pub stopped: bool,
}

impl<'t, S> Model for Feeding<'t, S> {
    ghost use Rattle.std.specs.Prelude.{[]};
    ghost use Rattle.hparse.specs.Intake.{Intake};

    ghost Value = { Intake S };

    ghost view = { λ f. record { names = f.names; tokenizer = f.tokenizer; sink = f.sink; stopped = f.stopped; unfed = [] } };
}

/// Hands over the errors of this many bad parts of one byte each, the first of which is at `at`.
fn tell_bad<S: ErrorSink>(count: usize, at: u64, sink: &mut S) -> Result<(), Refusal>
    requires { at + count ≤ MAX_INPUT }
    ensures { Hands S.gives sink.old (input_errors (bad_each at count)) result sink.new }
{
    let mut told = 0;
    while told < count {
        sink.take_error(ParseError {
            code: ErrorCode::ReplacedBytes,
            at: at + told as u64,
        })?;
        told += 1;
    }
    Ok(())
}

impl<'t, S: TokenSink> Feeding<'t, S> {
    /// Nothing waits to be fed, as is always so between calls: to be said in a `prove!`.
    pub fn all_fed(&self) -> bool
        ensures holds { result ≡ true }
        ensures fed { self.now.unfed ≡ [] }
    {
        let _names = &self.names;
        true
    }

    /// The texts of its table of names are distinct, the known ones first.
    pub fn are_names(&self) -> bool
        ensures holds { result ≡ true }
        ensures names { AreNames self.now.names }
    {
        self.names.are_names()
    }

    /// Ends the text, at the input's byte `end`.
    pub fn finish(&mut self, end: u64) -> Result<(), Refusal>
        ensures { (m : Manner) (began : Began S) (items : List CharItem) → HoldsItems (gives_item S.gives S.gives_token) m began self.old items
            → EndsText (gives_item S.gives S.gives_token) m began items end result self.new }
    {
        self.tokenizer.finish(&mut self.names, end, &mut self.sink)
    }

    /// The answer once the decoder has refused a byte. The text before it is ended: what that is refused for comes first.
    pub fn refuse(&mut self, refusal: Refusal) -> Refusal
        ensures answer { (m : Manner) (began : Began S) (held : List CharItem) → HoldsItems (gives_item S.gives S.gives_token) m began self.old held
            → Refuses (gives_item S.gives S.gives_token) m began held refusal result self.new }
        ensures stopped { self.old.stopped ≡ true → (result ≡ refusal) × (self.new ≡ self.old) }
        ensures memory { refusal ≡ Refusal.Memory → (result ≡ Refusal.Memory) × (self.new ≡ self.old) }
    {
        if self.stopped {
            return refusal;
        }
        match refusal {
            Refusal::NotUtf8 { at } | Refusal::TooLarge { at } => match self.finish(at) {
                Ok(()) => refusal,
                Err(earlier) => earlier,
            },
            _ => refusal,
        }
    }
}

impl<'t, S: TokenSink> CharSink for Feeding<'t, S> {
    ghost use Rattle.htoken.specs.Token.{gives_item};
    ghost use Rattle.hparse.specs.Holding.{Proceeds};

    ghost gives = { Proceeds (gives_item S.gives S.gives_token) };

    #[inline(always)]
    fn take_char(&mut self, ch: char, at: u64) -> Result<(), Refusal> {
        let answer = self
            .tokenizer
            .feed_char(&mut self.names, ch, at, &mut self.sink);
        self.stopped = answer.is_err();
        answer
    }

    fn take_run(&mut self, run: &str, at: u64) -> Result<(), Refusal> {
        if run.is_empty() {
            return Ok(());
        }
        let answer = self
            .tokenizer
            .feed_run(&mut self.names, run, at, &mut self.sink);
        self.stopped = answer.is_err();
        answer
    }

    fn take_bad(&mut self, count: usize, at: u64) -> Result<(), Refusal> {
        if count == 0 {
            return Ok(());
        }
        if let Err(refusal) = tell_bad(count, at, &mut self.sink) {
            self.stopped = true;
            return Err(refusal);
        }
        let answer = self
            .tokenizer
            .feed_bad(&mut self.names, count, at, &mut self.sink);
        self.stopped = answer.is_err();
        answer
    }

    fn take_error(&mut self, error: ParseError) -> Result<(), Refusal> {
        let answer = self.sink.take_error(error);
        self.stopped = answer.is_err();
        answer
    }
}
