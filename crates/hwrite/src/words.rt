//! Lines of tokens, and parts of them: words, and texts between quotes.

ghost use Rattle.std.specs.Prelude.{◌≡◌, ◌⊎◌, ◌++◌, ◌<◌, ℕ, [], codes, decimal, encode_utf8, if◌then◌else◌, map, OnOk};
ghost use Rattle.std.specs.List.{flat_map, list_all};
ghost use Rattle.hmarkup.specs.DoctypeWalk.{optional_text as text_if_any};
ghost use Rattle.hwrite.specs.Quoted.{AddsToText, is_unescaped};
ghost use Rattle.hwrite.specs.Vocabulary.{doctype_token, draft_attribute, attribute_words, escaped_byte, quote_escaped, quoted, quoted_or_none, line_of, line_text, draft_table, text_of, tok_of};

use hmarkup::Doctype;
use htoken::Token;
use itoa::Buffer;
use names::{Attr, NameId, Names};
use std::alloc::AllocError;

/// Writes the place at which a line begins, and the words after it.
pub fn begin_line(text: &mut String, at: u64, words: &str) -> Result<(), AllocError>
    ensures { OnOk result (AddsToText text.old text.new (decimal at ++ codes " " ++ words.now)) }
{
    text.push_str(Buffer::new().format(at))?;
    text.push(' ')?;
    text.push_str(words)
}

fn push_optional(text: &mut String, source: &Option<String>) -> Result<(), AllocError>
    ensures { OnOk result (AddsToText text.old text.new (quoted_or_none (text_if_any source.now))) }
{
    match source {
        Some(source) => push_quoted(text, source),
        None => text.push('-'),
    }
}

/// Ends a line, with these words if they are to be there.
fn end_line(text: &mut String, words: &str, has_words: bool) -> Result<(), AllocError>
    ensures { OnOk result (AddsToText text.old text.new ((if has_words then words.now else []) ++ codes "\n")) }
{
    if has_words {
        text.push_str(words)?;
    }
    text.push('\n')
}

fn push_doctype(text: &mut String, doctype: &Doctype, at: u64) -> Result<(), AllocError>
    ensures { OnOk result (AddsToText text.old text.new (line_text (line_of (doctype_token doctype.now at)))) }
{
    begin_line(text, at, "doctype ")?;
    push_optional(text, &doctype.name)?;
    text.push(' ')?;
    push_optional(text, &doctype.public_id)?;
    text.push(' ')?;
    push_optional(text, &doctype.system_id)?;
    end_line(text, " quirks", doctype.forced)
}

fn name_text<'n>(names: Option<&'n Names>, name: NameId) -> &'n str
    ensures { result.now ≡ text_of (draft_table names.entry) name }
{
    names.map_or("", |names| names.text(name))
}

fn push_attributes(
    text: &mut String,
    attrs: &[Attr],
    names: Option<&Names>,
) -> Result<(), AllocError>
    ensures { OnOk result (AddsToText text.old text.new (flat_map attribute_words (map (draft_attribute (draft_table names.entry)) attrs.now))) }
{
    for attr in attrs {
        text.push(' ')?;
        push_quoted(text, name_text(names, attr.name()))?;
        text.push('=')?;
        push_quoted(text, attr.value())?;
    }
    Ok(())
}

fn push_quoted_line(text: &mut String, at: u64, words: &str, source: &str) -> Result<(), AllocError>
    ensures { OnOk result (AddsToText text.old text.new (decimal at ++ codes " " ++ words.now ++ quoted source.now ++ codes "\n")) }
{
    begin_line(text, at, words)?;
    push_quoted(text, source)?;
    text.push('\n')
}

/// Writes the line of a token that is no character, with the table of its names if it is a tag.
pub fn push_line(text: &mut String, token: &Token, names: Option<&Names>) -> Result<(), AllocError>
    requires { (ch at : ℕ) → token.now ≡ Token.Char ch at → ⊥ }
    ensures { OnOk result (AddsToText text.old text.new (line_text (line_of (tok_of (draft_table names.entry) token.now)))) }
{
    match token {
        Token::Doctype { doctype, at } => push_doctype(text, doctype, *at),
        Token::Start {
            name,
            attrs,
            closing,
            at,
        } => {
            begin_line(text, *at, "start ")?;
            push_quoted(text, name_text(names, *name))?;
            push_attributes(text, attrs, names)?;
            end_line(text, " /", *closing)
        }
        Token::End { name, at } => push_quoted_line(text, *at, "end ", name_text(names, *name)),
        Token::Comment { text: comment, at } => push_quoted_line(text, *at, "comment ", comment),
        Token::Eof { at } => begin_line(text, *at, "eof\n"),
        // There is none.
        Token::Char { .. } => Ok(()),
    }
}

#[inline(never)]
fn push_escape(text: &mut String, ch: char) -> Result<(), AllocError>
    requires { (ch < 32) ⊎ (ch ≡ 34) ⊎ (ch ≡ 92) }
    ensures { OnOk result (AddsToText text.old text.new (escaped_byte ch)) }
{
    match ch {
        '"' => text.push_str("\\\""),
        '\\' => text.push_str("\\\\"),
        '\n' => text.push_str("\\n"),
        _ => write!(text, "\\x{:02x}", ch as u32),
    }
}

/// Writes a character as it is between quotes.
#[inline]
pub fn push_escaped(text: &mut String, ch: char) -> Result<(), AllocError>
    ensures { OnOk result (AddsToText text.old text.new (quote_escaped (encode_utf8 ch))) }
{
    if ch >= ' ' && ch != '"' && ch != '\\' {
        text.push(ch)
    } else {
        push_escape(text, ch)
    }
}

fn is_unescaped(byte: u8) -> bool
    ensures { result ≡ is_unescaped byte }
{
    byte >= b' ' && byte != b'"' && byte != b'\\'
}

fn are_unescaped(bytes: &[u8]) -> bool
    ensures { result ≡ list_all is_unescaped bytes.now }
{
    bytes.iter().all(|byte| is_unescaped(*byte))
}

/// Writes a text as it is between quotes: at once, where nothing in it is escaped.
#[tactic(auto, using(std::proofs::lemmas::Grind::common_steps))]
fn push_escaped_text(text: &mut String, source: &str) -> Result<(), AllocError>
    ensures { OnOk result (AddsToText text.old text.new (quote_escaped source.now)) }
{
    if are_unescaped(source.as_bytes()) {
        return text.push_str(source);
    }
    for ch in source.chars() {
        push_escaped(text, ch)?;
    }
    Ok(())
}

fn push_quoted(text: &mut String, source: &str) -> Result<(), AllocError>
    ensures { OnOk result (AddsToText text.old text.new (quoted source.now)) }
{
    text.push('"')?;
    push_escaped_text(text, source)?;
    text.push('"')
}
