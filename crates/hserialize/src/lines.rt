//! Trees and errors as they are printed.

ghost use Rattle.std.specs.Prelude.{◌≡◌, ◌++◌, ◌<◌, ◌≤◌, ◌^◌, ◌&&◌, ℕ, codes, flat_map, map, vec_capacity, OnOk};
ghost use Rattle.std.specs.String.{string_bytes};
ghost use Rattle.hserialize.specs.Vocabulary.{text_of, children_of, what_of, mapped, pair_of, indented, attribute_line, identifiers, error_lines, tree_text, HoldsBytes, IsFlushed, PutsTo, WritesText, attribute_count, printed_lines, is_empty_text};

use crate::error_line::ErrorLine;
use crate::sorted::{NamedAttr, in_order};
use crate::writer::{Answer, ROOM, Writer, put, put_parts};
use crate::{Gathered, NodeView, Reach, Target, TreeWalk, Visit};
use hnodes::{DocumentType, NodeId, Tree};
use names::{Names, ParseError, Refusal};
use std::alloc::Global;

fn put_line<W: Target>(out: &mut Writer<W>, depth: usize, parts: &[&[u8]]) -> Answer
    ensures { PutsTo W.written W.failed out.old out.new (indented depth (flat_map (λ p. p.now) parts.now)) result }
{
    put(out, b"| ")?;
    for level in 0..depth {
        put(out, b"  ")?;
    }
    put_parts(out, parts)?;
    put(out, b"\n")
}

fn put_attributes<W: Target>(out: &mut Writer<W>, depth: usize, entries: &[NamedAttr]) -> Answer
    ensures { PutsTo W.written W.failed out.old out.new (flat_map (attribute_line depth) (map pair_of entries.now)) result }
{
    for entry in entries {
        let (name, value) = (entry.0.as_bytes(), entry.2.as_bytes());
        put_line(out, depth, &[name, b"=\"", value, b"\""])?;
    }
    Ok(())
}

/// Whether a doctype has no identifier.
fn has_none(public_id: &str, system_id: &str) -> bool
    ensures { result ≡ (is_empty_text public_id.now && is_empty_text system_id.now) }
{
    public_id.is_empty() && system_id.is_empty()
}

fn put_doctype<W: Target>(out: &mut Writer<W>, depth: usize, texts: &DocumentType) -> Answer
    ensures { PutsTo W.written W.failed out.old out.new (indented depth (codes "<!DOCTYPE " ++ string_bytes texts.now.name
        ++ identifiers (string_bytes texts.now.public_id) (string_bytes texts.now.system_id) ++ codes ">")) result }
{
    let (front, name): (&[u8], &[u8]) = (b"<!DOCTYPE ", texts.name.as_bytes());
    if has_none(&texts.public_id, &texts.system_id) {
        return put_line(out, depth, &[front, name, b">"]);
    }
    let (public_id, system_id) = (texts.public_id.as_bytes(), texts.system_id.as_bytes());
    put_line(
        out,
        depth,
        &[front, name, b" \"", public_id, b"\" \"", system_id, b"\">"],
    )
}

fn put_node<'a, W: Target>(
    out: &mut Writer<W>,
    entries: &mut Vec<NamedAttr<'a>>,
    tree: &'a Tree,
    names: &'a Names,
    depth: usize,
    node: NodeId,
) -> Answer
    requires deep { depth < 2 ^ 33 }
    requires room { attribute_count (what_of node tree.now.trees) ≤ vec_capacity entries.old }
    requires made { node < tree.now.made }
    ensures text { PutsTo W.written W.failed out.old out.new (printed_lines (text_of names.now) depth (what_of node tree.now.trees)) result }
    ensures room { vec_capacity entries.old ≤ vec_capacity entries.new }
{
    match NodeView::of(tree, node) {
        NodeView::Document => Ok(()),
        NodeView::Doctype(texts) => put_doctype(out, depth, texts),
        NodeView::Element(name, attrs) => {
            put_line(out, depth, &[b"<", names.text(name).as_bytes(), b">"])?;
            in_order(entries, names, attrs);
            put_attributes(out, depth + 1, entries)
        }
        NodeView::Comment(data) => put_line(out, depth, &[b"<!-- ", data.as_bytes(), b" -->"]),
        NodeView::Text(data) => put_line(out, depth, &[b"\"", data.as_bytes(), b"\""]),
    }
}

fn most_attributes(tree: &Tree) -> usize
    ensures { (n : ℕ) → n < tree.now.made → attribute_count (what_of n tree.now.trees) ≤ result }
{
    let mut most = 0;
    for index in 0..tree.made() as usize {
        if let Some(node) = tree.node(index)
            && let NodeView::Element(_, attrs) = NodeView::of(tree, node)
        {
            most = most.max(attrs.len());
        }
    }
    most
}

/// Writes the nodes inside a node. Nothing is handed on.
fn put_nodes<'a, W: Target>(
    out: &mut Writer<W>,
    entries: &mut Vec<NamedAttr<'a>>,
    tree: &'a Tree,
    names: &'a Names,
    root: NodeId,
) -> Answer
    requires made { root < tree.now.made }
    requires room { (n : ℕ) → n < tree.now.made → attribute_count (what_of n tree.now.trees) ≤ vec_capacity entries.old }
    ensures { PutsTo W.written W.failed out.old out.new (tree_text (mapped (text_of names.now) (children_of root tree.now.trees))) result }
{
    let mut depth = 0;
    for visit in TreeWalk::new(tree, root, Reach::Whole) {
        match visit {
            Visit::Enter(node) => {
                put_node(out, entries, tree, names, depth, node)?;
                depth += 1;
            }
            Visit::Leave(_) => depth = depth.saturating_sub(1),
        }
    }
    Ok(())
}

/// Prints the nodes inside a node, and flushes: a line each, two spaces deeper than the line of its parent, and a line each for
/// the attributes of an element. All memory is taken before the first write: `Memory` comes before it, and nothing is written
/// then. Where a write fails, what was taken before is a beginning of the text, and `Write` is returned; no write follows.
pub fn print_tree<W: Target>(
    alloc: Global,
    tree: &Tree,
    names: &Names,
    root: NodeId,
    target: &mut W,
) -> Result<(), Refusal>
    requires { root < tree.now.made }
    ensures text { WritesText W.written W.failed (tree_text (mapped (text_of names.now) (children_of root tree.now.trees))) target.old target.new result }
    ensures flushed { OnOk result (IsFlushed W.flushes target.new) }
{
    let mut entries = Vec::with_capacity(alloc, most_attributes(tree))?;
    let mut held = Vec::with_capacity(alloc, ROOM)?;
    let mut out = Writer::new(target, &mut held);
    put_nodes(&mut out, &mut entries, tree, names, root)?;
    out.finish()
}

/// The text that [`print_tree`] writes. An error is `Memory`.
#[tactic(auto, using(crate::proofs::Held::held))]
pub fn tree_text(
    alloc: Global,
    tree: &Tree,
    names: &Names,
    root: NodeId,
) -> Result<Vec<u8>, Refusal>
    requires { root < tree.now.made }
    ensures { HoldsBytes result (tree_text (mapped (text_of names.now) (children_of root tree.now.trees))) }
{
    let mut text = Gathered::new(alloc);
    let answer = print_tree(alloc, tree, names, root, &mut text);
    text.into_text(answer)
}

/// Writes the lines of errors. Nothing is handed on.
fn put_errors<W: Target>(out: &mut Writer<W>, errors: &[ParseError]) -> Answer
    ensures { PutsTo W.written W.failed out.old out.new (error_lines errors.now) result }
{
    let Some(first) = errors.first() else {
        return Ok(());
    };
    let mut line = ErrorLine::of(first.code);
    for error in errors {
        line.put(out, error)?;
    }
    Ok(())
}

/// Prints errors, a line each, and flushes. `Memory` comes before the first write, and nothing is written then. Where a write
/// fails, what was taken before is a beginning of the text, and `Write` is returned; no write follows.
pub fn print_errors<W: Target>(
    alloc: Global,
    errors: &[ParseError],
    target: &mut W,
) -> Result<(), Refusal>
    ensures text { WritesText W.written W.failed (error_lines errors.now) target.old target.new result }
    ensures flushed { OnOk result (IsFlushed W.flushes target.new) }
{
    let mut held = Vec::with_capacity(alloc, ROOM)?;
    let mut out = Writer::new(target, &mut held);
    put_errors(&mut out, errors)?;
    out.finish()
}

/// The text that [`print_errors`] writes. An error is `Memory`.
#[tactic(auto, using(crate::proofs::Held::held))]
pub fn error_lines(alloc: Global, errors: &[ParseError]) -> Result<Vec<u8>, Refusal>
    ensures { HoldsBytes result (error_lines errors.now) }
{
    let mut text = Gathered::new(alloc);
    let answer = print_errors(alloc, errors, &mut text);
    text.into_text(answer)
}
