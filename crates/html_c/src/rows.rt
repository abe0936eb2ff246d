//! A tree as rows of numbers and as the bytes of its words, which are counted, and written where there is room; and where its nodes came from.

ghost use Rattle.std.specs.Prelude.{◌≡◌, ◌<◌, ◌≤◌, ◌⊎◌, true, length, flat_map, map, IfErr, MatchResult};
ghost use Rattle.names.specs.Names.{text_of};
ghost use Rattle.html_c.specs.Vocabulary.{Memory, PutsAt, greatest, mapped_attribute, what_of, ended_attribute, ended_word, link_to, parsed_rows, parsed_words, put_over, row_at, words_at, parsed_origins, origin_at};

use crate::answer::{NodeRow, OriginRow};
use crate::room::{put_at, put_one};
use hnodes::{Attrs, NodeId, Tree};
use hparse::{Origin, Parsed};
use hserialize::NodeView;
use names::{Names, Refusal};

/// What ends a word, and what ends the words of a node. Neither is in a UTF-8 text.
const WORD_END: u8 = 0xFF;

const NODE_END: u8 = 0xFE;

/// Puts a word at a place, and returns the place after it, as do the next.
#[inline(always)]
fn put_word(word: &str, room: &mut [u8], at: usize) -> usize
    ensures { PutsAt at (ended_word word.now) room.old room.new result }
{
    let end = put_at(word.as_bytes(), room, at);
    put_one(WORD_END, room, end)
}

#[inline(always)]
fn put_attributes(names: &Names, attrs: Attrs, room: &mut [u8], at: usize) -> usize
    ensures { PutsAt at (flat_map ended_attribute (map (mapped_attribute (text_of names.now)) attrs.entry)) room.old room.new result }
{
    let mut at = at;
    for (name, value) in attrs {
        let end = put_word(names.text(name), room, at);
        at = put_word(value, room, end);
    }
    at
}

#[inline(always)]
fn put_words(tree: &Tree, names: &Names, node: NodeId, room: &mut [u8], at: usize) -> usize
    requires { node < tree.now.made }
    ensures { PutsAt at (words_at (text_of names.now) (what_of node tree.now.trees)) room.old room.new result }
{
    match NodeView::of(tree, node) {
        NodeView::Document => at,
        NodeView::Doctype(texts) => {
            let public_id = put_word(&texts.name, room, at);
            let system_id = put_word(&texts.public_id, room, public_id);
            put_word(&texts.system_id, room, system_id)
        }
        NodeView::Element(name, attrs) => {
            let end = put_word(names.text(name), room, at);
            put_attributes(names, attrs, room, end)
        }
        NodeView::Comment(text) => put_word(text, room, at),
        NodeView::Text(text) => put_word(text, room, at),
    }
}

fn link_to(node: Option<NodeId>) -> u32
    ensures { result ≡ link_to node }
{
    match node {
        Some(node) => node.index() as u32,
        None => u32::MAX,
    }
}

fn row_at(tree: &Tree, node: NodeId) -> NodeRow
    requires { node < tree.now.made }
    ensures { result ≡ row_at node tree.now.trees }
{
    NodeRow {
        number: link_to(Some(node)),
        kind: tree.kind(node) as u32,
        parent: link_to(tree.parent(node)),
        first_child: link_to(tree.first_child(node)),
        next: link_to(tree.next(node)),
    }
}

/// Puts the rows and the words of what was parsed, each at the beginning of a room. Returns the places after them.
/// Compiled for each call by itself, so that with empty rooms it counts and does no more.
#[inline(always)]
fn put_parsed(parsed: &Parsed, rows: &mut [NodeRow], words: &mut [u8]) -> (usize, usize)
    ensures rows { PutsAt 0 (parsed_rows parsed.now) rows.old rows.new result.0 }
    ensures words { PutsAt 0 (parsed_words parsed.now) words.old words.new result.1 }
{
    let tree = &parsed.tree;
    let mut row_end = 0;
    let mut word_end = 0;
    for node in tree.descendants(parsed.root) {
        row_end = put_one(row_at(tree, node), rows, row_end);
        word_end = put_words(tree, &parsed.names, node, words, word_end);
        word_end = put_one(NODE_END, words, word_end);
    }
    (row_end, word_end)
}

/// A tree that was parsed, and how many rows, and how many bytes of words, it has.
#[derive(Drop)]
pub(crate) struct Rows {
    pub(crate) parsed: Parsed,
    pub(crate) nodes: usize,
    pub(crate) words: usize,
    ghost nodes_are: { nodes ≡ length (parsed_rows parsed) },
    ghost words_are: { words ≡ length (parsed_words parsed) },
}

impl Rows {
    /// Counts them, if numbers are large enough for that.
    pub(crate) fn of(parsed: Parsed) -> Result<Rows, Refusal>
        ensures counted { MatchResult result (λ rows. rows.parsed ≡ parsed) (λ refusal. refusal ≡ Memory) }
        ensures too_many { IfErr result (λ e. (greatest ≤ length (parsed_rows parsed)) ⊎ (greatest ≤ length (parsed_words parsed))) }
    {
        let (nodes, words) = put_parsed(&parsed, &mut [], &mut []);
        if nodes == usize::MAX || words == usize::MAX {
            return Err(Refusal::Memory);
        }
        Ok(Rows {
            parsed,
            nodes,
            words,
        })
    }

    /// Writes them to the beginnings of their rooms, if they are to be written.
    pub(crate) fn put(&self, fits: bool, rows: &mut [NodeRow], words: &mut [u8])
        requires rows { fits ≡ true → length (parsed_rows self.now.parsed) ≤ length rows.old }
        requires words { fits ≡ true → length (parsed_words self.now.parsed) ≤ length words.old }
        ensures rows { rows.new ≡ put_over fits (parsed_rows self.now.parsed) rows.old }
        ensures words { words.new ≡ put_over fits (parsed_words self.now.parsed) words.old }
    {
        if fits {
            put_parsed(&self.parsed, rows, words);
        }
    }
}

/// How a node came to be as a row, by a list of how the nodes came to be.
fn origin_at(list: &[Origin], node: NodeId) -> OriginRow
    ensures { result ≡ origin_at list.now node }
{
    match list.get(node.index()) {
        Some(origin) => OriginRow {
            at: origin.at,
            in_source: u32::from(origin.in_source),
            again_of: link_to(origin.again_of),
        },
        None => OriginRow {
            at: 0,
            in_source: 0,
            again_of: u32::MAX,
        },
    }
}

/// Writes the rows of what was parsed to the beginning of a room, if the places were asked for, and the rows are to be written.
pub(crate) fn put_origins(fits: bool, parsed: &Parsed, room: &mut [OriginRow])
    requires { fits ≡ true → length (parsed_origins parsed.now) ≤ length room.old }
    ensures { room.new ≡ put_over fits (parsed_origins parsed.now) room.old }
{
    if fits {
        if let Some(list) = &parsed.places {
            let mut at = 0;
            for node in parsed.tree.descendants(parsed.root) {
                at = put_one(origin_at(list, node), room, at);
            }
        }
    }
}
