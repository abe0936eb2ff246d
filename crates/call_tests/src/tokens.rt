//! What a tokenizer holds of a text that goes on.

use crate::taken::Taken;
use charref::Table;
use htoken::{Start, Tokenizer};
use names::{Keys, Names, Refusal};
use std::alloc::Global;
use std::test::Fail;

const NOT: &str =
    "{\"&notin;\":{\"codepoints\":[8713],\"characters\":\"∉\"},\"&not\":{\"codepoints\":[172],\"characters\":\"¬\"},\"&not;\":{\"codepoints\":[172],\"characters\":\"¬\"}}";

/// A text, from where on it is held, and what was given.
const HELD: [(&str, u64, &str); 12] = [
    ("", 0, ""),
    ("a&not", 1, "a"),
    ("a&noti", 1, "a"),
    ("a&notit", 7, "a!¬it"),
    ("a&z", 3, "a&z"),
    ("a<", 1, "a"),
    ("a</", 1, "a"),
    ("a< ", 3, "a!< "),
    ("<title>x</ti", 8, "Sx"),
    ("<!--a--", 0, ""),
    ("<p a=\"b", 0, ""),
    ("&#6", 0, ""),
];

/// Feeds a text that goes on.
fn feed(
    tokenizer: &mut Tokenizer<'_>,
    names: &mut Names,
    text: &str,
    sink: &mut Taken,
) -> Result<(), Refusal> {
    for (place, ch) in text.char_indices() {
        tokenizer.feed_char(names, ch, place as u64, sink)?;
    }
    Ok(())
}

/// Whether a text is held from there on, and that was given.
fn is_held(alloc: Global, table: &Table, text: &str, from: u64, given: &str) -> bool {
    let mut names = Names::new(alloc, Keys::for_tests());
    let mut sink = Taken::new(alloc, 99);
    let mut tokenizer = Tokenizer::new(alloc, table, Start::Document);
    let answer = feed(&mut tokenizer, &mut names, text, &mut sink);
    answer.is_ok() && tokenizer.held_from() == from && sink.text.as_str() == given
}

/// Whether each text is.
fn all_are_held(alloc: Global, table: &Table) -> bool {
    HELD.iter().all(|(text, from, given)| is_held(alloc, table, text, *from, given))
}

#[test]
fn the_unfinished_span_alone_is_held(rt: HostRuntime) -> Result<(), Fail> {
    let table = Table::read(rt.alloc(), NOT)?;
    assert!(rt; all_are_held(rt.alloc(), &table));
    Ok(())
}
