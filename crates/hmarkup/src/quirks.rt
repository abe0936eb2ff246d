//! The quirks list (HTML Standard, `#the-initial-insertion-mode`): the doctype identifiers that put a document into quirks mode.

ghost use Rattle.std.specs.Prelude.{◌≡◌, ◌∷◌, ◌<◌, List, length, option_map, MatchOption};
ghost use Rattle.std.specs.Int.{is_in_range};
ghost use Rattle.std.specs.List.{list_all};
ghost use Rattle.std.specs.Str.{IsUtf8};
ghost use Rattle.hmarkup.specs.Vocabulary.{quirk_word, IsWordless, IsQuirkLine, IsNoQuirkLine, lines, HasParts, Lacks, same_as, begins_as, line_matches, list_matches, ReadsQuirks};

use names::Refusal;
use std::alloc::Global;
use std::marker::Model;

/// What a line of the list is matched against.
#[derive(Clone, Copy)]
pub enum QuirkKind {
    /// The public identifier equals the line's text.
    PublicIs,
    /// The public identifier begins with it.
    PublicBegins,
    /// The system identifier equals it.
    SystemIs,
    /// The public identifier begins with it, and the system identifier is missing.
    PublicBeginsWithoutSystem,
}

impl QuirkKind {
    fn named(word: &str) -> Option<QuirkKind>
        ensures { MatchOption result (IsWordless word.now) (λ kind. word.now ≡ quirk_word kind) }
    {
        match word {
            "public-is" => Some(QuirkKind::PublicIs),
            "public-begins" => Some(QuirkKind::PublicBegins),
            "system-is" => Some(QuirkKind::SystemIs),
            "public-begins-without-system" => Some(QuirkKind::PublicBeginsWithoutSystem),
            _ => None,
        }
    }
}

/// A line of the list.
#[derive(Drop)]
struct QuirksLine {
    kind: QuirkKind,
    text: String,
}

impl Model for QuirksLine {
    ghost use Rattle.std.specs.Prelude.{string_bytes};
    ghost use Rattle.hmarkup.specs.Quirks.{QuirkLine};

    ghost Value = { QuirkLine };

    ghost view = { λ l. record { kind = l.kind; text = string_bytes l.text } };
}

/// The quirks list. Each line of its text is `public-is`, `public-begins`, `system-is` or `public-begins-without-system`, one
/// space, and a text of one or more bytes from 20 to 7E (hexadecimal). The last LF may be missing.
#[derive(Drop)]
pub struct Quirks {
    lines: Vec<QuirksLine>,
}

impl Model for Quirks {
    ghost use Rattle.std.specs.Prelude.{List};
    ghost use Rattle.hmarkup.specs.Quirks.{QuirkLine};

    ghost Value = { List QuirkLine };

    ghost view = { λ q. q.lines.items };
}

fn parts(text: &str, mark: char) -> Option<(&str, &str)>
    requires { mark < 128 }
    ensures { MatchOption result (Lacks mark text.now) (λ x. HasParts mark text.now x.0.now x.1.now) }
{
    text.split_once(mark)
}

fn first_line(text: &str) -> (&str, &str)
    requires { 0 < length text.now }
    ensures first { lines text.now ≡ result.0.now ∷ lines result.1.now }
    ensures shorter { length result.1.now < length text.now }
    ensures is_text { IsUtf8 result.1.now }
{
    parts(text, '\n').unwrap_or((text, ""))
}

fn is_printable(text: &str) -> bool
    ensures { result ≡ list_all (is_in_range 0x20 0x7E) text.now }
{
    text.as_bytes()
        .iter()
        .all(|byte| (b' '..=b'~').contains(byte))
}

/// The kind and the text of a line, without its LF, if it has one of the four forms.
fn read_line(line: &str) -> Option<(QuirkKind, &str)>
    ensures { MatchOption result (IsNoQuirkLine line.now) (λ x. IsQuirkLine line.now (record { kind = x.0; text = x.1.now })) }
{
    let (word, text) = parts(line, ' ')?;
    let kind = QuirkKind::named(word)?;
    if text.is_empty() || !is_printable(text) {
        return None;
    }
    Some((kind, text))
}

impl QuirksLine {
    fn matches(&self, public: Option<&str>, system: Option<&str>) -> bool
        ensures { result ≡ line_matches self.now (option_map (λ x. x.now) public.entry) (option_map (λ x. x.now) system.entry) }
    {
        let text = self.text.as_str();
        match self.kind {
            QuirkKind::PublicIs => is_same(public, text),
            QuirkKind::PublicBegins => begins(public, text),
            QuirkKind::SystemIs => is_same(system, text),
            QuirkKind::PublicBeginsWithoutSystem => system.is_none() && begins(public, text),
        }
    }
}

fn is_same(id: Option<&str>, text: &str) -> bool
    ensures { result ≡ same_as (option_map (λ x. x.now) id.entry) text.now }
{
    id.is_some_and(|id| id.eq_ignore_ascii_case(text))
}

fn begins(id: Option<&str>, text: &str) -> bool
    ensures { result ≡ begins_as (option_map (λ x. x.now) id.entry) text.now }
{
    match id.and_then(|id| id.as_bytes().get(..text.len())) {
        Some(front) => front.eq_ignore_ascii_case(text.as_bytes()),
        None => false,
    }
}

impl Quirks {
    /// Parses a list. An error is `Memory`, or `BadQuirks` with the number, from 1, of the first line that has none of these forms.
    pub fn read(alloc: Global, text: &str) -> Result<Quirks, Refusal>
        ensures { ReadsQuirks text.now result }
    {
        let mut lines = Vec::new(alloc);
        let mut rest = text;
        while !rest.is_empty() {
            let (line, after) = first_line(rest);
            let Some((kind, text)) = read_line(line) else {
                return Err(Refusal::BadQuirks {
                    line: lines.len() as u64 + 1,
                });
            };
            let text = String::from_str(alloc, text)?;
            lines.push(QuirksLine { kind, text })?;
            rest = after;
        }
        Ok(Quirks { lines })
    }

    /// Whether some line matches a doctype with these identifiers; `Some("")` is an identifier that is present but empty.
    pub fn matches(&self, public: Option<&str>, system: Option<&str>) -> bool
        ensures { result ≡ list_matches self.now (option_map (λ x. x.now) public.entry) (option_map (λ x. x.now) system.entry) }
    {
        self.lines.iter().any(|line| line.matches(public, system))
    }
}
