//! The end of the input, in each state (HTML Standard, `#tokenization`).

ghost use Rattle.std.specs.Prelude.{◌≡◌, ◌∷◌, ◌++◌, List, [], ◌&&◌, map, nat_lt};
ghost use Rattle.htoken.specs.Vocabulary.{is_script, level_number, Character, CutsOff, EndsHeld, Entities, Eof, EofBeforeTagName, Event, Finishes, Gives, gives_item, Grows, HandsEvents, HasTaken, IsInTag, Kind, Reports, script_errors, Texts};

use crate::hand::{give, give_faulty, hand_errors, tell_if};
use crate::script::Level;
use crate::sink::TokenSink;
use crate::state::State;
use crate::token::Token;
use crate::tokenizer::{Answer, Tokenizer};
use names::{ErrorCode, Names, ParseError, Placed, RawKind};

impl<'t> Tokenizer<'t> {
    /// Ends what is held, and hands over the end.
    pub(crate) fn end_text<S: TokenSink>(
        &mut self,
        names: &mut Names,
        end: u64,
        sink: &mut S,
    ) -> Answer
        ensures finishes { (table : Entities) (start : Kind) (before : Texts) (text : List Character) (taken : List Event) → Grows before names.old
            → HasTaken table start self.old before text taken
            → Finishes (gives_item S.gives S.gives_token) table start end text taken names.new sink.old result sink.new }
        ensures grows { Grows names.old names.new }
    {
        self.end_held(names, end, sink)?;
        self.give_end(end, sink)
    }

    /// Hands over what is held as what it is where the input ends.
    fn end_held<S: TokenSink>(&mut self, names: &mut Names, end: u64, sink: &mut S) -> Answer
        ensures ends { (table : Entities) (start : Kind) (before : Texts) (text : List Character) (taken : List Event) → Grows before names.old
            → HasTaken table start self.old before text taken
            → EndsHeld (gives_item S.gives S.gives_token) table start end text taken names.new sink.old result self.new sink.new }
        ensures grows { Grows names.old names.new }
    {
        let at = self.at;
        let less = Placed { ch: '<', at };
        match self.state {
            State::Text => Ok(()),
            State::TagOpen => give_faulty(ErrorCode::EofBeforeTagName, end, less, sink),
            State::EndTagOpen(solidus) => {
                give_faulty(ErrorCode::EofBeforeTagName, end, less, sink)?;
                give('/', solidus, sink)
            }
            // What comes after `<!` is read as a comment.
            State::MarkupDeclarationOpen(_) => {
                self.begin_held(ErrorCode::IncorrectlyOpenedComment, end)?;
                self.comment.end(end, &mut self.raised)?;
                self.end_comment(sink)
            }
            State::Comment => {
                self.comment.end(end, &mut self.raised)?;
                self.end_comment(sink)
            }
            State::Doctype => {
                self.doctype.end(end, &mut self.raised)?;
                self.end_doctype(sink)
            }
            // What does not belong to the reference is text.
            State::Reference => {
                let found = self.reference.end();
                self.give_reference(&found, 0, sink)
            }
            State::AmbiguousAmpersand => Ok(()),
            State::Tag => self.cut_off(names, end, sink),
            State::RcdataLessThanSign => self.give_raw(less, sink),
            State::RcdataEndTagName(solidus) => self.give_held(solidus, sink),
        }
    }

    /// A tag that the end cuts off gives no token.
    fn cut_off<S: TokenSink>(&mut self, names: &mut Names, end: u64, sink: &mut S) -> Answer
        ensures cuts { (table : Entities) (body : List Character) → IsInTag table names.old self.old.tag body [] self.old.raised.errors.items
            → CutsOff (gives_item S.gives S.gives_token) table body end sink.old result self.new sink.new }
        ensures grows { Grows names.old names.new }
    {
        self.kind = RawKind::None;
        self.tag.end(names, &mut self.raised.errors)?;
        self.raised.errors.push(ParseError {
            code: ErrorCode::EofInTag,
            at: end,
        })?;
        hand_errors(&self.raised.errors, sink)
    }

    /// Hands over the end, and before it the error of a script that it cuts off in comment-like text.
    fn give_end<S: TokenSink>(&mut self, end: u64, sink: &mut S) -> Answer
        ensures { (names : Texts) → HandsEvents (gives_item S.gives S.gives_token) names sink.old
            (map Reports (script_errors end self.old) ++ Gives (Eof end) ∷ []) result sink.new }
    {
        let code = ErrorCode::EofInScriptHtmlCommentLikeText;
        tell_if(self.is_cut_off(), code, end, sink)?;
        sink.take_token(Token::Eof { at: end })
    }

    /// Whether a script is in comment-like text here.
    fn is_cut_off(&self) -> bool
        ensures { result ≡ (is_script self.now.kind && nat_lt 0 (level_number self.now.script.level)) }
    {
        self.is_in_script() && !matches!(self.script.level, Level::Plain)
    }
}
