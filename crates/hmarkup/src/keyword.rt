//! The keywords of a doctype, and the identifiers they announce.

ghost use Rattle.std.specs.Prelude.{◌≡◌};
ghost use Rattle.hmarkup.specs.Vocabulary.{first_letter, next_letter, letters_after, keyword, no_space_after_keyword, no_identifier, no_quote, abrupt_identifier};

use names::ErrorCode;

/// The two identifiers of a doctype.
#[derive(Clone, Copy)]
pub enum Identifier {
    Public,
    System,
}

/// The errors of what follows the keyword of an identifier.
#[derive(Clone, Copy)]
pub struct IdentifierErrors {
    /// No white space separates the keyword from the identifier.
    pub not_spaced: ErrorCode,
    /// A `>` is in place of the identifier, or any other character.
    pub missing: ErrorCode,
    pub not_quoted: ErrorCode,
    /// A `>` is inside the identifier.
    pub abrupt: ErrorCode,
}

impl Identifier {
    fn keyword(self) -> &'static str
        ensures { result.now ≡ keyword self }
    {
        match self {
            Identifier::Public => "public",
            Identifier::System => "system",
        }
    }

    pub fn errors(self) -> IdentifierErrors
        ensures { result
            ≡ record { not_spaced = no_space_after_keyword self; missing = no_identifier self; not_quoted = no_quote self; abrupt = abrupt_identifier self } }
    {
        match self {
            Identifier::Public => IdentifierErrors {
                not_spaced: ErrorCode::MissingWhitespaceAfterDoctypePublicKeyword,
                missing: ErrorCode::MissingDoctypePublicIdentifier,
                not_quoted: ErrorCode::MissingQuoteBeforeDoctypePublicIdentifier,
                abrupt: ErrorCode::AbruptDoctypePublicIdentifier,
            },
            Identifier::System => IdentifierErrors {
                not_spaced: ErrorCode::MissingWhitespaceAfterDoctypeSystemKeyword,
                missing: ErrorCode::MissingDoctypeSystemIdentifier,
                not_quoted: ErrorCode::MissingQuoteBeforeDoctypeSystemIdentifier,
                abrupt: ErrorCode::AbruptDoctypeSystemIdentifier,
            },
        }
    }
}

/// The letters read so far of a keyword: at least one, and not all.
#[derive(Clone, Copy)]
pub struct Letters {
    /// The identifier that the keyword announces.
    pub which: Identifier,
    /// How many letters were read.
    pub read: u8,
}

impl Letters {
    /// The first letter of a keyword, if `ch` is one in either case.
    pub fn first(ch: char) -> Option<Letters>
        ensures { result ≡ first_letter ch }
    {
        let which = match ch.to_ascii_lowercase() {
            'p' => Identifier::Public,
            's' => Identifier::System,
            _ => return None,
        };
        Some(Letters { which, read: 1 })
    }

    /// The next letter of the keyword, in lower case.
    pub fn next(self) -> char
        ensures { result ≡ next_letter self }
    {
        match self.which.keyword().as_bytes().get(self.read as usize) {
            Some(letter) => char::from(*letter),
            None => '\0',
        }
    }

    /// The letters with the next one added, unless it completes the keyword.
    pub fn after(self) -> Option<Letters>
        ensures { result ≡ letters_after self }
    {
        // Each keyword has six letters.
        if self.read >= 5 {
            return None;
        }
        Some(Letters {
            read: self.read + 1,
            ..self
        })
    }
}
