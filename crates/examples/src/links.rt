//! An example of the library: prints each link of a page that comes in pieces, with its text.
#![tactic(auto)]

use anyhow::Context;
use hwrite::{Keys, Options, Parsed, Parser, Quirks, Refusal, Table, Tag};
use std::alloc::Global;
use std::{env, fs};

pub fn main(rt: HostRuntime) -> anyhow::Result<()> {
    print_links(&rt)
}

/// Prints the links of the page that the command line names, or why it is refused.
pub fn print_links(rt: &HostRuntime) -> anyhow::Result<()> {
    let bytes = fs::read(rt, word(rt, 1)?.as_str())?;
    let entities = fs::read_to_string(rt, word(rt, 2)?.as_str())?;
    let quirks = fs::read_to_string(rt, word(rt, 3)?.as_str())?;
    let keys = Keys::random(rt)?;
    match parse(rt.alloc(), &entities, &quirks, keys, &bytes) {
        Ok(page) => print_each(rt, &page),
        Err(refusal) => Ok(println!(rt; "refused: {refusal}")?),
    }
}

/// A word of the command line.
fn word(rt: &HostRuntime, at: usize) -> anyhow::Result<String> {
    env::args(rt)?.nth(at).context(
        "name a page, the table of character references and the quirks list",
    )
}

/// Parses a page in pieces, as they might come from the network.
fn parse(
    alloc: Global,
    entities: &str,
    quirks: &str,
    keys: Keys,
    bytes: &[u8],
) -> Result<Parsed, Refusal> {
    let table = Table::read(alloc, entities)?;
    let quirks = Quirks::read(alloc, quirks)?;
    let mut parser = Parser::document(alloc, &Options::new(&table, &quirks, keys))?;
    for piece in bytes.chunks(1500) {
        parser.feed(piece)?;
    }
    parser.finish()
}

/// Prints each link of a page, and its text.
fn print_each(rt: &HostRuntime, page: &Parsed) -> anyhow::Result<()> {
    for node in page.tree.descendants(page.tree.document()) {
        if page.tree.is(node, Tag::A) {
            if let Some(link) = page.attribute(node, "href") {
                println!(rt; "{link} {}", page.tree.text_content(rt.alloc(), node)?)?;
            }
        }
    }
    Ok(())
}
