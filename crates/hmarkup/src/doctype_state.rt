//! The states of reading a doctype (HTML Standard, `#doctype-state` to `#bogus-doctype-state`), and what a character does in each.

ghost use Rattle.std.specs.Prelude.{◌≡◌, ◌==◌};
ghost use Rattle.std.specs.Char.{to_ascii_lowercase};
ghost use Rattle.hmarkup.specs.Vocabulary.{is_space, is_greater, is_quote, goes_to, ends_doctype, faulty, refuses, skips, step, before_name, in_name, after_name};
ghost use Rattle.hmarkup.specs.Vocabulary.{in_keyword, after_keyword, in_quotes, after_public, after_system, first_letter, next_letter, end_fault, is_data};

use crate::keyword::{Identifier, Letters};
use names::{ErrorCode, ParseError};

/// The tokenizer state in a doctype; two that differ in whether white space was read are one, with a `bool` for it.
#[derive(Clone, Copy)]
pub enum DoctypeState {
    /// The DOCTYPE state (`#doctype-state`), or after white space the before DOCTYPE name state (`#before-doctype-name-state`).
    BeforeName(bool),
    /// The DOCTYPE name state (`#doctype-name-state`).
    Name,
    /// The after DOCTYPE name state (`#after-doctype-name-state`).
    AfterName,
    /// The same state within `PUBLIC` or `SYSTEM`: the letters so far, and the byte offset of the first.
    Keyword(Letters, u64),
    /// The after DOCTYPE public keyword state (`#after-doctype-public-keyword-state`), or after white space the before DOCTYPE public
    /// identifier state (`#before-doctype-public-identifier-state`); the same two of the system identifier
    /// (`#after-doctype-system-keyword-state`, `#before-doctype-system-identifier-state`).
    AfterKeyword(Identifier, bool),
    /// The DOCTYPE public or system identifier state, double-quoted or single-quoted by the quote that opened it
    /// (`#doctype-public-identifier-(double-quoted)-state`, `#doctype-public-identifier-(single-quoted)-state`,
    /// `#doctype-system-identifier-(double-quoted)-state`, `#doctype-system-identifier-(single-quoted)-state`).
    Quoted(Identifier, char),
    /// The after DOCTYPE public identifier state (`#after-doctype-public-identifier-state`), or after white space the between DOCTYPE
    /// public and system identifiers state (`#between-doctype-public-and-system-identifiers-state`).
    AfterPublic(bool),
    /// The after DOCTYPE system identifier state (`#after-doctype-system-identifier-state`).
    AfterSystem,
    /// The bogus DOCTYPE state (`#bogus-doctype-state`).
    Skipped,
}

/// Which part of the doctype a character belongs to.
#[derive(Clone, Copy)]
pub enum Keeps {
    Nothing,
    /// It is part of the name.
    Name,
    /// It is the quote that opens an identifier.
    Quote(Identifier),
    /// It is part of an identifier.
    Inside(Identifier),
}

/// What a character does.
#[derive(Clone, Copy)]
pub struct Step {
    /// Its error, other than the one for NUL.
    pub fault: Option<ParseError>,
    pub keeps: Keeps,
    /// Whether it forces quirks mode.
    pub forces: bool,
    /// The next state, or none if the character ends the doctype.
    pub next: Option<DoctypeState>,
}

impl Step {
    fn to(next: DoctypeState) -> Step
        ensures { result ≡ goes_to next }
    {
        Step {
            next: Some(next),
            ..Step::end()
        }
    }

    fn end() -> Step
        ensures { result ≡ ends_doctype }
    {
        Step {
            fault: None,
            keeps: Keeps::Nothing,
            forces: false,
            next: None,
        }
    }

    fn refuse(code: ErrorCode, at: u64) -> Step
        ensures { result ≡ refuses code at }
    {
        Step {
            fault: Some(ParseError { code, at }),
            forces: true,
            ..Step::end()
        }
    }

    fn skip(code: ErrorCode, at: u64, forces: bool) -> Step
        ensures { result ≡ skips code at forces }
    {
        Step {
            fault: Some(ParseError { code, at }),
            forces,
            ..Step::to(DoctypeState::Skipped)
        }
    }

    fn keep(keeps: Keeps, spaced: bool, code: ErrorCode, at: u64, next: DoctypeState) -> Step
        ensures { result ≡ faulty keeps spaced code at next }
    {
        Step {
            fault: if spaced {
                None
            } else {
                Some(ParseError { code, at })
            },
            keeps,
            ..Step::to(next)
        }
    }
}

impl DoctypeState {
    pub fn step(self, ch: char, at: u64) -> Step
        ensures { result ≡ step self (record { ch = ch; at = at }) }
    {
        match self {
            DoctypeState::BeforeName(spaced) => Step::before_name(spaced, ch, at),
            DoctypeState::Name => Step::in_name(ch),
            DoctypeState::AfterName => Step::after_name(ch, at),
            DoctypeState::Keyword(letters, first) => Step::in_keyword(letters, first, ch),
            DoctypeState::AfterKeyword(which, spaced) => Step::after_keyword(which, spaced, ch, at),
            DoctypeState::Quoted(which, mark) => Step::in_quotes(which, mark, ch, at),
            DoctypeState::AfterPublic(spaced) => Step::after_public(spaced, ch, at),
            DoctypeState::AfterSystem => Step::after_system(ch, at),
            DoctypeState::Skipped if ch == '>' => Step::end(),
            DoctypeState::Skipped => Step::to(DoctypeState::Skipped),
        }
    }

    /// Whether this byte is only data: it is kept as it is, without an error, and the state stays.
    pub fn is_data(self, byte: u8) -> bool
        ensures { result ≡ is_data self byte }
    {
        match self {
            _ if matches!(byte, b'>' | 0) => false,
            DoctypeState::Name => !byte.is_ascii_whitespace() && !byte.is_ascii_uppercase(),
            DoctypeState::Quoted(_, mark) => char::from(byte) != mark,
            _ => false,
        }
    }

    pub fn end_fault(self, end: u64) -> Option<ParseError>
        ensures { result ≡ end_fault self end }
    {
        match self {
            DoctypeState::Keyword(_, first) => Some(ParseError {
                code: ErrorCode::InvalidCharacterSequenceAfterDoctypeName,
                at: first,
            }),
            DoctypeState::Skipped => None,
            _ => Some(ParseError {
                code: ErrorCode::EofInDoctype,
                at: end,
            }),
        }
    }
}

impl Step {
    fn before_name(spaced: bool, ch: char, at: u64) -> Step
        ensures { result ≡ before_name spaced (is_space ch) (is_greater ch) at }
    {
        if ch.is_ascii_whitespace() {
            return Step::to(DoctypeState::BeforeName(true));
        }
        if ch == '>' {
            return Step::refuse(ErrorCode::MissingDoctypeName, at);
        }
        let code = ErrorCode::MissingWhitespaceBeforeDoctypeName;
        Step::keep(Keeps::Name, spaced, code, at, DoctypeState::Name)
    }

    fn in_name(ch: char) -> Step
        ensures { result ≡ in_name (is_space ch) (is_greater ch) }
    {
        match ch {
            '>' => Step::end(),
            _ if ch.is_ascii_whitespace() => Step::to(DoctypeState::AfterName),
            _ => Step {
                keeps: Keeps::Name,
                ..Step::to(DoctypeState::Name)
            },
        }
    }

    fn after_name(ch: char, at: u64) -> Step
        ensures { result ≡ after_name (is_space ch) (is_greater ch) (first_letter ch) at }
    {
        let code = ErrorCode::InvalidCharacterSequenceAfterDoctypeName;
        match Letters::first(ch) {
            Some(letters) => Step::to(DoctypeState::Keyword(letters, at)),
            None if ch.is_ascii_whitespace() => Step::to(DoctypeState::AfterName),
            None if ch == '>' => Step::end(),
            None => Step::skip(code, at, true),
        }
    }

    fn in_keyword(letters: Letters, first: u64, ch: char) -> Step
        ensures { result ≡ in_keyword letters first (to_ascii_lowercase ch == next_letter letters) (is_greater ch) }
    {
        let code = ErrorCode::InvalidCharacterSequenceAfterDoctypeName;
        if ch.to_ascii_lowercase() == letters.next() {
            return Step::to(match letters.after() {
                Some(letters) => DoctypeState::Keyword(letters, first),
                None => DoctypeState::AfterKeyword(letters.which, false),
            });
        }
        match ch {
            '>' => Step::refuse(code, first),
            _ => Step::skip(code, first, true),
        }
    }

    fn after_keyword(which: Identifier, spaced: bool, ch: char, at: u64) -> Step
        ensures { result ≡ after_keyword which spaced (is_space ch) (is_greater ch) (is_quote ch) ch at }
    {
        let errors = which.errors();
        let quoted = DoctypeState::Quoted(which, ch);
        match ch {
            '>' => Step::refuse(errors.missing, at),
            '"' | '\'' => Step::keep(Keeps::Quote(which), spaced, errors.not_spaced, at, quoted),
            _ if ch.is_ascii_whitespace() => Step::to(DoctypeState::AfterKeyword(which, true)),
            _ => Step::skip(errors.not_quoted, at, true),
        }
    }

    fn in_quotes(which: Identifier, mark: char, ch: char, at: u64) -> Step
        ensures { result ≡ in_quotes which mark (ch == mark) (is_greater ch) at }
    {
        match which {
            Identifier::Public if ch == mark => Step::to(DoctypeState::AfterPublic(false)),
            Identifier::System if ch == mark => Step::to(DoctypeState::AfterSystem),
            _ if ch == '>' => Step::refuse(which.errors().abrupt, at),
            _ => Step {
                keeps: Keeps::Inside(which),
                ..Step::to(DoctypeState::Quoted(which, mark))
            },
        }
    }

    fn after_public(spaced: bool, ch: char, at: u64) -> Step
        ensures { result ≡ after_public spaced (is_space ch) (is_greater ch) (is_quote ch) ch at }
    {
        let code = ErrorCode::MissingWhitespaceBetweenDoctypePublicAndSystemIdentifiers;
        let which = Identifier::System;
        let quoted = DoctypeState::Quoted(which, ch);
        match ch {
            '>' => Step::end(),
            '"' | '\'' => Step::keep(Keeps::Quote(which), spaced, code, at, quoted),
            _ if ch.is_ascii_whitespace() => Step::to(DoctypeState::AfterPublic(true)),
            _ => Step::skip(which.errors().not_quoted, at, true),
        }
    }

    fn after_system(ch: char, at: u64) -> Step
        ensures { result ≡ after_system (is_space ch) (is_greater ch) at }
    {
        let code = ErrorCode::UnexpectedCharacterAfterDoctypeSystemIdentifier;
        match ch {
            '>' => Step::end(),
            _ if ch.is_ascii_whitespace() => Step::to(DoctypeState::AfterSystem),
            _ => Step::skip(code, at, false),
        }
    }
}
