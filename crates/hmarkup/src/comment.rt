//! Reads a comment or a bogus comment (HTML Standard, `#bogus-comment-state` and `#comment-start-state` to `#comment-end-bang-state`), one
//! character at a time.

ghost use Rattle.std.specs.Prelude.{◌≡◌, ℕ, List, [], true, IfOk, OnOk, option_map, string_bytes};
ghost use Rattle.std.specs.List.{list_all};
ghost use Rattle.std.specs.Str.{chars};
ghost use Rattle.hmarkup.specs.Vocabulary.{Error, Placed, all, characters, error, placed, Kind, Comment, Bogus, is_only_data, is_plain_in_bogus, BeginsSpans};
ghost use Rattle.hmarkup.specs.Vocabulary.{IsOpenMarkup, ClosedBy, HasMarkupSpan, IsOneSpan, TakesMarkup, TakesRun, EndsMarkup, Progress, comment_begun, HasReadOf, IsCommentSpan};
ghost use Rattle.hmarkup.specs.Vocabulary.{closing_mark, comment_step, is_nested_comment, with_char, with_data};

use crate::sink::ErrorSink;
use crate::tail::{Ending, Opening};
use crate::taking::{push, report, tell, text_of};
use names::{ErrorCode, ParseError, Placed, Refusal};
use std::alloc::{AllocError, Global};
use std::marker::Model;

/// The two kinds of comment.
#[derive(Clone, Copy)]
pub enum CommentKind {
    /// A comment that begins with `<!--` (`#comment-start-state` and the states after it).
    Comment,
    /// A bogus comment (`#bogus-comment-state`): everything up to the first `>`.
    Bogus,
}

/// Reads a comment after its opening mark, one character at a time. Errors go to the sink as they are found, in the order of
/// the text. After an `Ok(true)` only `into_data` may be called; after an `Err` the walk is of no further use.
#[derive(Drop)]
pub struct CommentWalk {
    kind: CommentKind,
    ending: Ending,
    opening: Opening,
    text: String,
}

impl Model for CommentWalk {
    ghost use Rattle.std.specs.Prelude.{string_bytes};
    ghost use Rattle.hmarkup.specs.CommentWalk.{Progress};

    ghost Value = { Progress };

    ghost view = { λ w. record { kind = w.kind; ending = w.ending; opening = w.opening; «data» = string_bytes w.text } };
}

fn fault_at(code: Option<ErrorCode>, at: u64) -> Option<ParseError>
    ensures { result ≡ option_map (λ code. error code at) code }
{
    Some(ParseError { code: code?, at })
}

impl CommentWalk {
    /// A walk with this data so far, none of which may begin a closing mark.
    fn with(kind: CommentKind, text: String) -> CommentWalk
        ensures { result ≡ comment_begun kind (string_bytes text) }
    {
        CommentWalk {
            kind,
            ending: Ending::Plain,
            opening: Opening::Outside,
            text,
        }
    }

    /// A walk for what follows `<!--`, as the markup declaration open state (`#markup-declaration-open-state`) begins it.
    #[tactic(auto, using(crate::proofs::Walking::comment_begins))]
    pub fn comment(alloc: Global) -> CommentWalk
        ensures { HasReadOf Comment result [] [] }
    {
        CommentWalk::with(CommentKind::Comment, String::new(alloc))
    }

    /// A walk in the bogus comment state (`#bogus-comment-state`), which ends at the first `>`.
    pub fn bogus(alloc: Global) -> CommentWalk
        ensures { HasReadOf Bogus result [] [] }
    {
        CommentWalk::with(CommentKind::Bogus, String::new(alloc))
    }

    /// A walk for a bogus comment whose first characters were read before it was known to be one, such as letters after `<!`.
    pub fn bogus_after(alloc: Global, read: &[Placed]) -> Result<CommentWalk, AllocError>
        requires { all is_plain_in_bogus read.now ≡ true }
        ensures { IfOk result (λ walk. HasReadOf Bogus walk read.now []) }
    {
        let text = text_of(alloc, read)?;
        Ok(CommentWalk::with(CommentKind::Bogus, text))
    }

    /// Reads the next character, whose first byte is at offset `at`, and returns whether it ends the comment. An error is
    /// `Memory` or the sink's refusal.
    pub fn take_char<S: ErrorSink>(
        &mut self,
        ch: char,
        at: u64,
        errors: &mut S,
    ) -> Result<bool, Refusal>
        ensures { (kind : Kind) (text : List Placed) (raised : List Error) → HasReadOf kind self.old text raised
            → TakesMarkup S.gives (HasReadOf kind) (IsCommentSpan kind) text raised (record { ch = ch; at = at }) errors.old
            result self.new self.new.data errors.new }
    {
        let (code, ends) = self.step(ch);
        report(fault_at(code, at), ch, at, errors)?;
        if ends {
            return Ok(true);
        }
        self.keep(ch)?;
        Ok(false)
    }

    /// The error of a character, other than the one for NUL, and whether it ends the comment.
    fn step(&self, ch: char) -> (Option<ErrorCode>, bool)
        ensures { result ≡ comment_step self.now.kind self.now ch }
    {
        match self.kind {
            _ if ch != '>' => (
                self.is_nested_comment().then_some(ErrorCode::NestedComment),
                false,
            ),
            CommentKind::Comment => self.ending.closing(self.text.is_empty()),
            CommentKind::Bogus => (None, true),
        }
    }

    /// Whether the text ends with an inner `<!--`.
    fn is_nested_comment(&self) -> bool
        ensures { result ≡ is_nested_comment self.now.kind self.now }
    {
        matches!(self.kind, CommentKind::Comment) && self.opening.is_whole()
    }

    fn keep_run(&mut self, run: &str) -> Result<(), AllocError>
        ensures { OnOk result (self.new ≡ with_data self.old.kind self.old run.now) }
    {
        if matches!(self.kind, CommentKind::Bogus) {
            return self.text.push_str(run);
        }
        if self.ending != Ending::Plain {
            self.text.push_str(self.ending.text())?;
        }
        self.text.push_str(run)?;
        self.ending = Ending::Plain;
        self.opening = Opening::Outside;
        Ok(())
    }

    fn keep(&mut self, ch: char) -> Result<(), AllocError>
        ensures { OnOk result (self.new ≡ with_char self.old.kind self.old ch) }
    {
        if matches!(self.kind, CommentKind::Bogus) {
            return push(&mut self.text, ch);
        }
        let may_close = ch == '-' || ch == '!';
        if may_close || self.ending != Ending::Plain {
            self.text.push_str(self.ending.decided(ch))?;
        }
        if !may_close {
            push(&mut self.text, ch)?;
        }
        self.ending = self.ending.after(ch);
        self.opening = self.opening.after(ch);
        Ok(())
    }

    /// Reads a run of characters, the first of which is at byte offset `at`, as `take_char` would one by one. None of them may
    /// be `-`, `!`, `<`, `>` or NUL. An error is `Memory` or the sink's refusal.
    pub fn take_run<S: ErrorSink>(
        &mut self,
        run: &str,
        at: u64,
        errors: &mut S,
    ) -> Result<(), Refusal>
        requires { list_all is_only_data run.now ≡ true }
        ensures { (kind : Kind) (text : List Placed) (raised : List Error) → HasReadOf kind self.old text raised
            → TakesRun S.gives (HasReadOf kind) (IsCommentSpan kind) text raised (placed at (chars run.now)) errors.old result self.new errors.new }
    {
        if run.is_empty() {
            return Ok(());
        }
        if self.is_nested_comment() {
            tell(ErrorCode::NestedComment, at, errors)?;
        }
        Ok(self.keep_run(run)?)
    }

    /// Tells the walk that the input ends here, at byte offset `end`. An error is the sink's refusal.
    pub fn end<S: ErrorSink>(&self, end: u64, errors: &mut S) -> Result<(), Refusal>
        ensures { (kind : Kind) (text : List Placed) (raised : List Error) → HasReadOf kind self.now text raised
            → EndsMarkup S.gives (IsCommentSpan kind) text raised end self.now.data errors.old result errors.new }
    {
        match self.kind {
            CommentKind::Comment => tell(ErrorCode::EofInComment, end, errors),
            CommentKind::Bogus => Ok(()),
        }
    }

    /// The data of the comment, once it has ended.
    pub fn into_data(self) -> String
        ensures { string_bytes result ≡ self.data }
    {
        self.text
    }
}

/// If a text begins with what a walk has read, then the comment at its front does too, and that comment's errors begin with
/// those reported so far. The comment cannot end there unless the input does.
#[tactic(auto, using(crate::proofs::Outcomes::begins_of, crate::proofs::Outcomes::open_of))]
pub fn goes_on_in_a_span()
    ensures begins { (kind : Kind) (walk : Progress) (text : List Placed) (errors : List Error) → HasReadOf kind walk text errors
        → BeginsSpans (IsCommentSpan kind) text errors }
    ensures is_open { (kind : Kind) (walk : Progress) (text : List Placed) (errors : List Error) → HasReadOf kind walk text errors
        → IsOpenMarkup (IsCommentSpan kind) text }
{}

/// What a walk has read can always be completed: with `-->` after it, or `>` for a bogus comment, it is a whole comment.
#[tactic(auto, using(crate::proofs::Closing::closed_span))]
pub fn closing_mark_ends_a_span()
    ensures { (kind : Kind) (walk : Progress) (text closing : List Placed) (errors : List Error) → HasReadOf kind walk text errors
        → characters closing ≡ closing_mark kind → ClosedBy (IsCommentSpan kind) text closing }
{}

/// Every text begins with a comment, which may extend to the end of the text.
#[tactic(auto, using(crate::proofs::SomeSpan::some_span))]
pub fn some_span()
    ensures { (kind : Kind) (end : ℕ) (text : List Placed) → HasMarkupSpan (IsCommentSpan kind) end text }
{}

/// A text begins with at most one comment.
#[tactic(auto, using(crate::proofs::OneSpan::one_of))]
pub fn one_span()
    ensures { (kind : Kind) → IsOneSpan (IsCommentSpan kind) }
{}
