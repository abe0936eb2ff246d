//! The last character that a walk has read.

ghost use Rattle.std.specs.Prelude.{◌≡◌};
ghost use Rattle.charref.specs.Vocabulary.{last_of, is_letter_or_digit, is_kept_before};

/// What kind of character was read last, as far as the end of a reference depends on it.
#[derive(Clone, Copy)]
pub(crate) enum Last {
    Alphanumeric,
    Semicolon,
    Equals,
    Other,
}

impl Last {
    pub(crate) fn of(ch: char) -> Last
        ensures { result ≡ last_of ch }
    {
        match ch {
            _ if ch.is_ascii_alphanumeric() => Last::Alphanumeric,
            ';' => Last::Semicolon,
            '=' => Last::Equals,
            _ => Last::Other,
        }
    }

    pub(crate) fn is_alphanumeric(self) -> bool
        ensures { result ≡ is_letter_or_digit self }
    {
        matches!(self, Last::Alphanumeric)
    }
}

/// Whether the rule for attribute values keeps a key as text, where `left` characters were read after it
/// (`#named-character-reference-state`): a letter, a digit or `=` right after it does so.
pub(crate) fn is_kept(in_value: bool, semicolon: bool, left: usize, last: Last) -> bool
    ensures { result ≡ is_kept_before in_value semicolon left last }
{
    in_value
        && !semicolon
        && (left > 1 || left == 1 && matches!(last, Last::Alphanumeric | Last::Equals))
}
