//! The kinds of tokens by which the rules of the insertion modes are chosen.

ghost use Rattle.std.specs.Prelude.{◌≡◌};
ghost use Rattle.hmodes.specs.Vocabulary.{numbers, token_of, character_kind, kind_of};

use crate::family::Family;
use htoken::Token;

/// The kind of a token, by which a rule is chosen.
#[derive(Clone, Copy)]
pub enum TokenKind {
    /// The character NUL.
    Nul,
    /// Tab, LF, FF, CR or space.
    Ws,
    /// Any other character.
    Char,
    Comment,
    Doctype,
    Start(Family),
    End(Family),
    Eof,
}

impl TokenKind {
    /// The kind of a character.
    pub(crate) fn of_char(ch: char) -> TokenKind
        ensures { result ≡ character_kind ch }
    {
        if ch == '\0' {
            TokenKind::Nul
        } else if ch.is_ascii_whitespace() {
            TokenKind::Ws
        } else {
            TokenKind::Char
        }
    }

    /// The kind of a token.
    #[inline(always)]
    pub(crate) fn of(token: &Token) -> TokenKind
        ensures { result ≡ kind_of numbers (token_of token.now) }
    {
        match token {
            Token::Doctype { .. } => TokenKind::Doctype,
            Token::Start { name, .. } => TokenKind::Start(Family::of(name.tag())),
            Token::End { name, .. } => TokenKind::End(Family::of(name.tag())),
            Token::Comment { .. } => TokenKind::Comment,
            Token::Char { ch, .. } => TokenKind::of_char(*ch),
            Token::Eof { .. } => TokenKind::Eof,
        }
    }
}
