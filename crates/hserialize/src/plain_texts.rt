//! Plain texts and comments.

ghost use Rattle.std.specs.Prelude.{◌≡◌};
ghost use Rattle.hserialize.specs.Vocabulary.{has_part, is_among_texts, is_plain_text, is_plain_comment};

use crate::content::Texts;
use hnodes::has_no_null_or_return;

fn has_part(text: &str, part: &str) -> bool
    ensures { result ≡ has_part part.now text.now }
{
    text.contains(part)
}

fn is_white_space(text: &str) -> bool
    ensures { result ≡ is_among_texts Texts.WhiteSpace text.now }
{
    text.bytes().all(|byte| byte.is_ascii_whitespace())
}

fn is_among_texts(allowed: Texts, text: &str) -> bool
    ensures { result ≡ is_among_texts allowed text.now }
{
    match allowed {
        Texts::Any => true,
        Texts::WhiteSpace => is_white_space(text),
        Texts::Raw => !has_part(text, "</"),
        Texts::Script => !has_part(text, "</") && !has_part(text, "<!--"),
        Texts::None => false,
    }
}

pub(crate) fn is_plain_text(allowed: Texts, text: &str) -> bool
    ensures { result ≡ is_plain_text allowed text.now }
{
    !text.is_empty() && has_no_null_or_return(text) && is_among_texts(allowed, text)
}

pub(crate) fn is_plain_comment(text: &str) -> bool
    ensures { result ≡ is_plain_comment text.now }
{
    has_no_null_or_return(text)
        && !has_part(text, "-->")
        && !has_part(text, "--!>")
        && !text.as_bytes().starts_with(b">")
        && !text.as_bytes().starts_with(b"->")
}
