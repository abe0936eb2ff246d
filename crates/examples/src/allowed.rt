//! An example of the library: builds a second tree of a page's texts and of those of its elements that a list allows, and prints its HTML,
//! and whether that would be parsed as the same tree again.
#![tactic(auto)]

use anyhow::Context;
use hwrite::{
    Escaping, Keys, NodeId, Options, Parsed, Parser, Place, Quirks, Refusal, Table, Tag, Tree,
    is_plain, serialize_in_to_vec,
};
use std::alloc::Global;
use std::{env, fs};

pub fn main(rt: HostRuntime) -> anyhow::Result<()> {
    print_allowed(&rt)
}

/// Prints what is allowed of the page that the command line names.
pub fn print_allowed(rt: &HostRuntime) -> anyhow::Result<()> {
    let bytes = fs::read(rt, word(rt, 1)?.as_str())?;
    let entities = fs::read_to_string(rt, word(rt, 2)?.as_str())?;
    let page = parse(rt.alloc(), &entities, Keys::random(rt)?, &bytes)?;
    let tree = allowed(rt.alloc(), &page)?;
    let (names, top) = (&page.names, tree.document());
    let html = serialize_in_to_vec(rt.alloc(), &tree, names, top, "body", Escaping::One)?;
    let plain = is_plain(&tree, names, top, "body");
    println!(rt; "{}\nplain: {plain}", String::from_utf8(html)?)?;
    Ok(())
}

/// A word of the command line.
fn word(rt: &HostRuntime, at: usize) -> anyhow::Result<String> {
    env::args(rt)?
        .nth(at)
        .context("name a page and the table of character references")
}

/// Parses a page.
fn parse(alloc: Global, entities: &str, keys: Keys, bytes: &[u8]) -> Result<Parsed, Refusal> {
    let table = Table::read(alloc, entities)?;
    let quirks = Quirks::read(alloc, "")?;
    let mut parser = Parser::document(alloc, &Options::new(&table, &quirks, keys))?;
    parser.feed(bytes)?;
    parser.finish()
}

/// What becomes of an element.
enum Fate {
    Kept,
    /// What is inside it stays.
    Opened,
    Dropped,
}

fn fate_of(tag: Tag) -> Fate {
    match tag {
        Tag::P | Tag::H1 | Tag::H2 | Tag::Ul | Tag::Li | Tag::B | Tag::I => Fate::Kept,
        Tag::Head | Tag::Script | Tag::Style | Tag::Textarea => Fate::Dropped,
        _ => Fate::Opened,
    }
}

/// The tree of what is allowed of a page.
fn allowed(alloc: Global, page: &Parsed) -> Result<Tree, Refusal> {
    let mut tree = Tree::new(alloc, u32::MAX)?;
    // Of each node of the page, where its children go.
    let mut copies = vec![in alloc; None; page.tree.made() as usize]?;
    if let Some(top) = copies.get_mut(page.root.index()) {
        *top = Some(tree.document());
    }
    for node in page.tree.descendants(page.root) {
        if let Some(parent) = page.tree.parent(node)
            && let Some(Some(into)) = copies.get(parent.index())
        {
            let copied = copy(alloc, page, node, &mut tree, *into)?;
            if let Some(slot) = copies.get_mut(node.index()) {
                *slot = copied;
            }
        }
    }
    Ok(tree)
}

/// Copies a node to the end of another, if it is allowed, and says where its children go.
fn copy(
    alloc: Global,
    page: &Parsed,
    node: NodeId,
    tree: &mut Tree,
    into: NodeId,
) -> Result<Option<NodeId>, Refusal> {
    if !page.tree.has(node) || !tree.has(into) {
        return Ok(None);
    }
    if page.tree.is_text(node)
        && let Some(text) = page.tree.text(node)
    {
        tree.put_text(text, Place::LastIn(into), 0)?;
        return Ok(None);
    }
    let Some(name) = page.tree.name(node) else {
        return Ok(None);
    };
    match fate_of(name.tag()) {
        Fate::Kept => {
            let made = tree.create_element(name, Vec::new(alloc), 0)?;
            tree.append(made, into);
            Ok(Some(made))
        }
        Fate::Opened => Ok(Some(into)),
        Fate::Dropped => Ok(None),
    }
}
