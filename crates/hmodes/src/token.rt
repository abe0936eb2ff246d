//! What the rules of the insertion modes take of a token: its name, attributes, text or character.

ghost use Rattle.std.specs.Prelude.{◌≡◌, IfOk, string_bytes, map};
ghost use Rattle.std.specs.List.{list_any};
ghost use Rattle.hmodes.specs.Vocabulary.{numbers, token_attrs, token_of, attribute_of, token_name, token_text, token_char, renamed, is_hidden};

use hnodes::Attributes;
use htoken::Token;
use names::{Attr, NameId, Tag};
use std::alloc::{AllocError, Global};
use std::mem;

/// The name of a tag; html for any other token, where no rule asks.
pub(crate) fn token_name(token: &Token) -> NameId
    ensures { result ≡ token_name numbers (token_of token.now) }
{
    match token {
        Token::Start { name, .. } | Token::End { name, .. } => *name,
        _ => Tag::Html.number(),
    }
}

/// Takes the attributes out of a start tag; none of any other token.
pub(crate) fn take_attrs(alloc: Global, token: &mut Token) -> Vec<Attr>
    ensures { map attribute_of result.items ≡ token_attrs (token_of token.old) }
{
    match token {
        Token::Start { attrs, .. } => mem::replace(attrs, Vec::new(alloc)),
        _ => Vec::new(alloc),
    }
}

/// The same, to be shared.
pub(crate) fn share_attrs(alloc: Global, token: &mut Token) -> Result<Attributes, AllocError>
    ensures { IfOk result (λ attrs. attrs ≡ token_attrs (token_of token.old)) }
{
    match token {
        Token::Start { attrs, .. } => Attributes::take(attrs, alloc),
        _ => Attributes::take(&mut Vec::new(alloc), alloc),
    }
}

/// Takes the text out of a comment.
pub(crate) fn take_text(alloc: Global, token: &mut Token) -> String
    ensures { string_bytes result ≡ token_text (token_of token.old) }
{
    match token {
        Token::Comment { text, .. } => mem::replace(text, String::new(alloc)),
        _ => String::new(alloc),
    }
}

/// The character of a token; NUL for any other token, where no rule asks.
pub(crate) fn token_char(token: &Token) -> char
    ensures { result ≡ token_char (token_of token.now) }
{
    match token {
        Token::Char { ch, .. } => *ch,
        _ => '\0',
    }
}

/// The same start tag under another name.
pub(crate) fn rename(token: &mut Token, to: NameId)
    ensures { token_of token.new ≡ renamed to (token_of token.old) }
{
    if let Token::Start { name, .. } = token {
        *name = to;
    }
}

/// Whether the token has an attribute type that is `hidden`, in capitals or not.
pub(crate) fn is_hidden(token: &Token) -> bool
    ensures { result ≡ list_any (is_hidden numbers) (token_attrs (token_of token.now)) }
{
    match token {
        Token::Start { attrs, .. } => has_hidden(attrs),
        _ => false,
    }
}

fn has_hidden(attrs: &[Attr]) -> bool
    ensures { result ≡ list_any (λ a. is_hidden numbers (attribute_of a)) attrs.now }
{
    attrs.iter().any(|attr| is_hidden_type(attr))
}

fn is_hidden_type(attr: &Attr) -> bool
    ensures { result ≡ is_hidden numbers (attribute_of attr.now) }
{
    attr.name() == NameId::type_attribute() && attr.value().eq_ignore_ascii_case("hidden")
}
