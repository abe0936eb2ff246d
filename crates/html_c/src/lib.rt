//! The parser for C, over numbers and bytes alone: a text, a tree or a page of an input into the caller's memory.
//! `include/jeanzircon.h` is its header.
#![tactic(auto)]

ghost use Rattle.std.specs.Prelude.{◌≡◌};
ghost use Rattle.html_c.specs.Vocabulary.{AnswersText, AnswersTree, as_parts, AnswersPage, AnswersTable, version};

mod answer;
mod fault;
mod fitted;
mod given;
mod input;
pub mod laws;
mod page;
mod room;
mod rows;
mod text;
mod tree;

use crate::answer::{Answer, ErrorRow, Given, NodeRow, OriginRow, PageAnswer};
use crate::given::table_of;
use crate::page::page_of;
use crate::room::{fault_answer, page_fault, put_bytes, put_rows, put_text};
use crate::text::text_of;
use crate::tree::rows_of;
use std::alloc::Global;

/// Makes the text of a task of an input, and writes it to the beginning of `output` where it fits. Returns the status, which is that of the answer.
#[unsafe(no_mangle)]
pub extern "C" fn jz_text(
    alloc: Global,
    task: u32,
    input: &[u8],
    given: &Given,
    output: &mut [u8],
    answer: &mut Answer,
) -> u32
    ensures answers { AnswersText task input.now given.now output.old output.new answer.new }
    ensures status { result ≡ answer.new.status }
{
    *answer = match text_of(alloc, task, input, given, output.len()) {
        Ok(text) => put_text(&text, output),
        Err(fault) => fault_answer(fault),
    };
    answer.status
}

/// Makes the tree of an input, and writes its nodes in tree order to `rows` and their words to `words` where all
/// of them fit. Returns the status, which is that of the answer.
#[unsafe(no_mangle)]
pub extern "C" fn jz_tree(
    alloc: Global,
    input: &[u8],
    given: &Given,
    rows: &mut [NodeRow],
    words: &mut [u8],
    answer: &mut Answer,
) -> u32
    ensures answers { AnswersTree input.now given.now rows.old rows.new words.old words.new answer.new }
    ensures status { result ≡ answer.new.status }
{
    *answer = match rows_of(alloc, input, given) {
        Ok(tree) => put_rows(&tree, rows, words),
        Err(fault) => fault_answer(fault),
    };
    answer.status
}

/// Makes the tree of an input, and where they are wanted its parse errors (1) and its HTML (2), and how its nodes came to be (4), by one
/// parse; `wants` is the sum. Each part is written to the beginning of its room, where all of them fit. Returns the status, which is that of the answer.
#[unsafe(no_mangle)]
pub extern "C" fn jz_page(
    alloc: Global,
    wants: u32,
    input: &[u8],
    given: &Given,
    rows: &mut [NodeRow],
    words: &mut [u8],
    errors: &mut [ErrorRow],
    text: &mut [u8],
    origins: &mut [OriginRow],
    answer: &mut PageAnswer,
) -> u32
    ensures answers { AnswersPage wants input.now given.now (as_parts rows.old words.old errors.old text.old origins.old)
        (as_parts rows.new words.new errors.new text.new origins.new) answer.new }
    ensures status { result ≡ answer.new.status }
{
    *answer = match page_of(alloc, wants, input, given, text.len()) {
        Ok(page) => page.put(rows, words, errors, text, origins),
        Err(fault) => page_fault(fault),
    };
    answer.status
}

/// Writes the flat form of a table of character references to the beginning of `output` where it fits: of a JSON text, of a flat form, or
/// of the core table where there are no bytes. Returns the status, which is that of the answer.
#[unsafe(no_mangle)]
pub extern "C" fn jz_table(
    alloc: Global,
    entities: &[u8],
    output: &mut [u8],
    answer: &mut Answer,
) -> u32
    ensures answers { AnswersTable entities.now output.old output.new answer.new }
    ensures status { result ≡ answer.new.status }
{
    *answer = match table_of(alloc, entities, &[]) {
        Ok(table) => put_bytes(table.as_flat(), output),
        Err(fault) => fault_answer(fault),
    };
    answer.status
}

/// The version of the library as a number, `JZ_VERSION_NUMBER` of the header.
#[unsafe(no_mangle)]
pub extern "C" fn jz_version() -> u32
    ensures { result ≡ version }
{
    100
}
