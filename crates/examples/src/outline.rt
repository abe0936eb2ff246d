//! An example of the library: prints the outline of a page: its attributes, its title, its headings, its images without `alt`, the
//! length of its texts, and its parse errors.
#![tactic(auto)]

use anyhow::Context;
use hwrite::{
    Escaping, Keys, Lines, Options, Parsed, Parser, Quirks, Table, Tag, serialize_outer_to_vec,
};
use std::{env, fs};

pub fn main(rt: HostRuntime) -> anyhow::Result<()> {
    print_outline(&rt)
}

/// Prints the outline of the page that the command line names.
pub fn print_outline(rt: &HostRuntime) -> anyhow::Result<()> {
    let bytes = fs::read(rt, word(rt, 1)?.as_str())?;
    let page = read(rt, &bytes)?;
    print_attributes(rt, &page)?;
    print_title(rt, &page)?;
    print_headings(rt, &page)?;
    let lines = Lines::of(rt.alloc(), &bytes)?;
    print_images(rt, &page, &lines)?;
    print_length(rt, &page)?;
    print_errors(rt, &page, &lines)
}

/// A word of the command line.
fn word(rt: &HostRuntime, at: usize) -> anyhow::Result<String> {
    env::args(rt)?.nth(at).context(
        "name a page, the table of character references and the quirks list",
    )
}

/// Reads a page with the lists that the command line names, and keeps where its nodes came from.
fn read(rt: &HostRuntime, bytes: &[u8]) -> anyhow::Result<Parsed> {
    let keys = Keys::random(rt)?;
    let table = Table::read(rt.alloc(), &fs::read_to_string(rt, word(rt, 2)?.as_str())?)?;
    let quirks = Quirks::read(rt.alloc(), &fs::read_to_string(rt, word(rt, 3)?.as_str())?)?;
    let mut options = Options::new(&table, &quirks, keys);
    options.places = true;
    let mut parser = Parser::document(rt.alloc(), &options)?;
    parser.feed(bytes)?;
    Ok(parser.finish()?)
}

/// Prints the attributes of the element that the page is in, such as its language.
fn print_attributes(rt: &HostRuntime, page: &Parsed) -> anyhow::Result<()> {
    if let Some(html) = page.tree.first_element_child(page.root) {
        for (name, value) in page.attributes(html) {
            println!(rt; "{name}: {value}")?;
        }
    }
    Ok(())
}

/// Prints the title of a page, if it has one.
fn print_title(rt: &HostRuntime, page: &Parsed) -> anyhow::Result<()> {
    for node in page.tree.descendants(page.root) {
        if page.tree.is(node, Tag::Title) {
            println!(rt; "title: {}", page.tree.text_content(rt.alloc(), node)?)?;
            break;
        }
    }
    Ok(())
}

/// Prints the headings of a page, in their order.
fn print_headings(rt: &HostRuntime, page: &Parsed) -> anyhow::Result<()> {
    for node in page.tree.descendants(page.root) {
        if let Some(name) = page.tree.name(node) {
            if name.tag().is_heading() {
                let text = page.tree.text_content(rt.alloc(), node)?;
                println!(rt; "{}: {text}", page.names.text(name))?;
            }
        }
    }
    Ok(())
}

/// Prints the images that have no `alt`, each with its line and its column, as HTML.
fn print_images(rt: &HostRuntime, page: &Parsed, lines: &Lines) -> anyhow::Result<()> {
    for node in page.tree.descendants(page.root) {
        if page.tree.is(node, Tag::Img) && page.attribute(node, "alt").is_none() {
            let (tree, names) = (&page.tree, &page.names);
            let html = serialize_outer_to_vec(rt.alloc(), tree, names, node, Escaping::Two)?;
            let (line, column) = lines.line_column(page.place(node).unwrap_or(0));
            println!(rt;
                "image without alt at line {line}, column {column}: {}",
                String::from_utf8(html)?
            )?;
        }
    }
    Ok(())
}

/// Prints how many characters the texts of a page have.
fn print_length(rt: &HostRuntime, page: &Parsed) -> anyhow::Result<()> {
    let mut length = 0usize;
    for node in page.tree.descendants(page.root) {
        if page.tree.is_text(node) {
            let text = page.tree.text(node).unwrap_or("");
            length = length.saturating_add(text.chars().count());
        }
    }
    Ok(println!(rt; "characters of text: {length}")?)
}

/// Prints the parse errors of a page, each with its line and its column.
fn print_errors(rt: &HostRuntime, page: &Parsed, lines: &Lines) -> anyhow::Result<()> {
    for error in &page.errors {
        let (line, column) = lines.line_column(error.at);
        println!(rt;
            "error at line {line}, column {column}: {}",
            error.code.text()
        )?;
    }
    Ok(())
}
