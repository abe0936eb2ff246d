//! The caller's rooms.

ghost use Rattle.std.specs.Prelude.{◌≡◌, ◌≤◌, ◌∷◌, [], true, length, nat_le};
ghost use Rattle.html_c.specs.Vocabulary.{PutsAt, fit, parsed_rows, parsed_words, fitted_text, page_fault, fault_answer, fit_status, put_over, room_answer};

use crate::answer::{Answer, NodeRow, PageAnswer};
use crate::fault::CallFault;
use crate::fitted::Fitted;
use crate::rows::Rows;

/// The status where something does not fit.
const TOO_SHORT: u32 = 13;

pub(crate) fn status(fits: bool) -> u32
    ensures { result ≡ fit_status fits }
{
    if fits { 0 } else { TOO_SHORT }
}

/// The answer where nothing is written.
pub(crate) fn fault_answer(fault: CallFault) -> Answer
    ensures { result ≡ fault_answer fault }
{
    let (status, detail, at) = fault.told();
    Answer {
        status,
        detail,
        at,
        length: 0,
        nodes: 0,
    }
}

/// The same for a page.
pub(crate) fn page_fault(fault: CallFault) -> PageAnswer
    ensures { result ≡ page_fault fault }
{
    let (status, detail, at) = fault.told();
    PageAnswer {
        status,
        detail,
        at,
        nodes: 0,
        words: 0,
        errors: 0,
        text: 0,
    }
}

/// The answer to this many bytes and nodes, which fit or do not.
fn room_answer(fits: bool, length: usize, nodes: usize) -> Answer
    ensures { result ≡ room_answer fits length nodes }
{
    Answer {
        status: status(fits),
        detail: 0,
        at: 0,
        length: length as u64,
        nodes: nodes as u64,
    }
}

/// Puts items at a place of a room, if they fit there. Returns the place after them, or the greatest number.
#[inline(always)]
pub(crate) fn put_at<T: Copy>(items: &[T], room: &mut [T], at: usize) -> usize
    ensures { PutsAt at items.now room.old room.new result }
{
    if at <= room.len() && items.len() <= room.len() - at {
        room[at..at + items.len()].copy_from_slice(items);
    }
    at.saturating_add(items.len())
}

/// The same of one item, which is written where it is made.
#[inline(always)]
#[tactic(auto, using(crate::proofs::Puts::set_over))]
pub(crate) fn put_one<T: Copy>(item: T, room: &mut [T], at: usize) -> usize
    ensures { PutsAt at (item ∷ []) room.old room.new result }
{
    if at < room.len() {
        room[at] = item;
    }
    at.saturating_add(1)
}

/// Writes items to the beginning of a room, where all that an answer writes fits.
pub(crate) fn put<T: Copy>(fits: bool, items: &[T], room: &mut [T])
    requires { fits ≡ true → length items.now ≤ length room.old }
    ensures { room.new ≡ put_over fits items.now room.old }
{
    if fits {
        room[..items.len()].copy_from_slice(items);
    }
}

/// Writes bytes to the beginning of a room, if they fit.
pub(crate) fn put_bytes(bytes: &[u8], room: &mut [u8]) -> Answer
    ensures room { room.new ≡ put_over (nat_le (length bytes.now) (length room.old)) bytes.now room.old }
    ensures answer { result ≡ room_answer (nat_le (length bytes.now) (length room.old)) (length bytes.now) 0 }
{
    let fits = bytes.len() <= room.len();
    put(fits, bytes, room);
    room_answer(fits, bytes.len(), 0)
}

/// Writes a text to the beginning of its room, if it fits.
pub(crate) fn put_text(text: &Fitted, room: &mut [u8]) -> Answer
    requires { text.now.room ≡ length room.old }
    ensures room { room.new ≡ put_over (nat_le (length (fitted_text text.now)) (length room.old)) (fitted_text text.now) room.old }
    ensures answer { result ≡ room_answer (nat_le (length (fitted_text text.now)) (length room.old)) (length (fitted_text text.now)) 0 }
{
    let fits = text.count <= room.len();
    text.put(fits, room);
    room_answer(fits, text.count, 0)
}

/// Writes the rows and the words of a tree to the beginnings of their rooms, if all of them fit.
pub(crate) fn put_rows(tree: &Rows, rows: &mut [NodeRow], words: &mut [u8]) -> Answer
    ensures rows { rows.new ≡ put_over (fit (parsed_rows tree.now.parsed) rows.old (parsed_words tree.now.parsed) words.old)
        (parsed_rows tree.now.parsed) rows.old }
    ensures words { words.new ≡ put_over (fit (parsed_rows tree.now.parsed) rows.old (parsed_words tree.now.parsed) words.old)
        (parsed_words tree.now.parsed) words.old }
    ensures answer { result ≡ room_answer (fit (parsed_rows tree.now.parsed) rows.old (parsed_words tree.now.parsed) words.old)
        (length (parsed_words tree.now.parsed)) (length (parsed_rows tree.now.parsed)) }
{
    let fits = tree.nodes <= rows.len() && tree.words <= words.len();
    tree.put(fits, rows, words);
    room_answer(fits, tree.words, tree.nodes)
}
