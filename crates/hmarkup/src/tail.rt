//! How much of a closing mark, and of an inner `<!--`, a comment ends with so far: the tokenizer states of comments (HTML Standard,
//! `#comment-start-state` to `#comment-end-bang-state`).

ghost use Rattle.std.specs.Prelude.{◌≡◌};
ghost use Rattle.hmarkup.specs.Vocabulary.{closing, next_opening, next_ending, decided_text, held_ending_text, is_whole};

use names::ErrorCode;

/// The part of a closing mark that the text ends with: nothing, `-`, `--` or `--!`.
#[derive(Clone, Copy, PartialEq, Eq)]
pub enum Ending {
    /// The comment start state (`#comment-start-state`) or the comment state (`#comment-state`).
    Plain,
    /// The comment start dash state (`#comment-start-dash-state`) or the comment end dash state (`#comment-end-dash-state`).
    Dash,
    /// The comment end state (`#comment-end-state`).
    Dashes,
    /// The comment end bang state (`#comment-end-bang-state`).
    Bang,
}

/// The part of an inner `<!--` that the text ends with: nothing, `<`, `<!`, `<!-` or all of it.
#[derive(Clone, Copy)]
pub enum Opening {
    Outside,
    /// The comment less-than sign state (`#comment-less-than-sign-state`).
    Less,
    /// The comment less-than sign bang state (`#comment-less-than-sign-bang-state`).
    LessBang,
    /// The comment less-than sign bang dash state (`#comment-less-than-sign-bang-dash-state`).
    LessBangDash,
    /// The comment less-than sign bang dash dash state (`#comment-less-than-sign-bang-dash-dash-state`).
    Whole,
}

impl Ending {
    /// The ending after one more character that does not end the comment.
    pub fn after(self, ch: char) -> Ending
        ensures { result ≡ next_ending self ch }
    {
        match (ch, self) {
            ('-', Ending::Plain | Ending::Bang) => Ending::Dash,
            ('-', _) => Ending::Dashes,
            ('!', Ending::Dashes) => Ending::Bang,
            _ => Ending::Plain,
        }
    }

    /// What that character shows to be data: held characters, and the character itself only if it is `-` or `!`.
    pub fn decided(self, ch: char) -> &'static str
        ensures { result.now ≡ decided_text self ch }
    {
        match (ch, self) {
            ('-', Ending::Plain | Ending::Dash) | ('!', Ending::Dashes) => "",
            ('-', Ending::Dashes) => "-",
            ('-', Ending::Bang) => "--!",
            ('!', Ending::Plain) => "!",
            ('!', Ending::Dash) => "-!",
            ('!', Ending::Bang) => "--!!",
            _ => self.text(),
        }
    }

    /// What a `>` is: its error, and whether it ends the comment, which has data or is empty.
    pub fn closing(self, is_empty: bool) -> (Option<ErrorCode>, bool)
        ensures { result ≡ closing self is_empty }
    {
        match self {
            Ending::Dashes => (None, true),
            Ending::Bang => (Some(ErrorCode::IncorrectlyClosedComment), true),
            _ if is_empty => (Some(ErrorCode::AbruptClosingOfEmptyComment), true),
            _ => (None, false),
        }
    }

    pub fn text(self) -> &'static str
        ensures { result.now ≡ held_ending_text self }
    {
        match self {
            Ending::Plain => "",
            Ending::Dash => "-",
            Ending::Dashes => "--",
            Ending::Bang => "--!",
        }
    }
}

impl Opening {
    pub fn is_whole(self) -> bool
        ensures { result ≡ is_whole self }
    {
        matches!(self, Opening::Whole)
    }

    /// The opening after one more character.
    pub fn after(self, ch: char) -> Opening
        ensures { result ≡ next_opening self ch }
    {
        match (ch, self) {
            ('-', Opening::LessBang) => Opening::LessBangDash,
            ('-', Opening::LessBangDash) => Opening::Whole,
            ('!', Opening::Less) => Opening::LessBang,
            ('<', _) => Opening::Less,
            _ => Opening::Outside,
        }
    }
}
