//! The lines and the columns of bytes that come in pieces and are not kept.

ghost use Rattle.std.specs.Prelude.{◌≡◌, ◌≢◌, ◌==◌, ◌<◌, ◌≤◌, ◌^◌, ◌-◌, ◌*◌, ◌/◌, ◌+◌, ◌∷◌, ◌++◌, [], List, OnOk, OnErr, length, min, slice_index_or, vec_len, ℕ};
ghost use Rattle.hwrite.specs.ByteKinds.{AreAlikeBytes, kind_at, kind_of};
ghost use Rattle.hwrite.specs.Columns.{column_at, line_at};
ghost use Rattle.hwrite.specs.Indexed.{IndexHasRead};

use crate::columns::{STEP, next_place};
use std::alloc::{AllocError, Global};

/// A byte of each kind: one that continues a character, one that begins a character, LF and CR.
const KINDS: [u8; 4] = [0x80, b'a', b'\n', b'\r'];

/// The lines of a text that comes in pieces and is not kept: an index, of which each question takes at most 256 steps. It has 80 bytes
/// for 256 of the text: two bits for each, and 16 bytes for the line and the column of the first. Since it grows as a `Vec` does, it may take twice that.
#[derive(Drop)]
pub struct LineIndex {
    /// How many bytes were fed.
    length: usize,
    /// The kind of each byte, four in one.
    kinds: Vec<u8>,
    /// The line and the column of each byte at a multiple of STEP.
    marks: Vec<(usize, usize)>,
    /// The byte that was fed last, or one that counts for nothing.
    last: u8,
    /// The line and the column of that byte.
    place: (usize, usize),
}

impl LineIndex {
    /// The lines of a text of which nothing has come yet.
    pub fn new(alloc: Global) -> LineIndex
        ensures { IndexHasRead result [] }
    {
        LineIndex {
            length: 0,
            kinds: Vec::new(alloc),
            marks: Vec::new(alloc),
            last: 0x80,
            place: (1, 1),
        }
    }

    /// Reads the next piece of the text, in as many steps as it has bytes. On an error nothing of it is read: each question has the
    /// answer that it had, and the piece can be fed again.
    pub fn feed(&mut self, piece: &[u8]) -> Result<(), AllocError>
        ensures ok { OnOk result ((bytes : List ℕ) → IndexHasRead self.old bytes → IndexHasRead self.new (bytes ++ piece.now)) }
        ensures err { OnErr result ((bytes : List ℕ) → IndexHasRead self.old bytes → IndexHasRead self.new bytes) }
    {
        self.make_room(piece.len())?;
        for byte in piece {
            self.read(*byte);
        }
        Ok(())
    }

    /// Makes room for this many bytes more, so that no memory is needed to read them.
    fn make_room(&mut self, more: usize) -> Result<(), AllocError>
        ensures same { (bytes : List ℕ) → IndexHasRead self.old bytes → IndexHasRead self.new bytes }
        ensures room { OnOk result ((self.new.length + more < 2 ^ 64 - 1) × (self.new.length + more ≤ 4 * vec_len self.new.kinds)
            × (self.new.length + more ≤ 256 * vec_len self.new.marks)) }
    {
        if more >= usize::MAX - self.length {
            return Err(AllocError);
        }
        let length = self.length + more;
        grow(&mut self.kinds, length.div_ceil(4), 0)?;
        grow(&mut self.marks, length.div_ceil(STEP), (1, 1))
    }

    /// Reads the next byte, for which there is room.
    fn read(&mut self, byte: u8)
        requires fits { self.old.length + 1 < 2 ^ 64 - 1 }
        requires room { (self.old.length < 4 * vec_len self.old.kinds) × (self.old.length < 256 * vec_len self.old.marks) }
        ensures read { (bytes : List ℕ) → IndexHasRead self.old bytes → IndexHasRead self.new (bytes ++ byte ∷ []) }
        ensures length { self.new.length ≡ self.old.length + 1 }
        ensures room { (vec_len self.new.kinds ≡ vec_len self.old.kinds) × (vec_len self.new.marks ≡ vec_len self.old.marks) }
    {
        let at = self.length;
        self.place = next_place(self.place, self.last, byte == b'\n');
        set_mark(&mut self.marks, at, self.place);
        set_kind(&mut self.kinds, at, kind_of(byte));
        self.last = byte;
        self.length = at + 1;
    }

    /// The line and the column of the byte of the text at this offset, as [`line_column`](crate::line_column) has them.
    pub fn line_column(&self, at: u64) -> (usize, usize)
        ensures line { (bytes : List ℕ) → IndexHasRead self.now bytes → result.0 ≡ line_at bytes (min at (length bytes)) }
        ensures column { (bytes : List ℕ) → IndexHasRead self.now bytes → result.1 ≡ column_at bytes (min at (length bytes)) }
    {
        let end = at.min(self.length as u64) as usize;
        let mark = end.saturating_sub(1) / STEP;
        let place = self.marks.get(mark).copied().unwrap_or((1, 1));
        self.place_after(mark * STEP, end, place)
    }

    /// The line and the column of a byte, from those of one before it.
    fn place_after(&self, from: usize, end: usize, mut place: (usize, usize)) -> (usize, usize)
        requires { (from ≤ end) × (end ≤ self.now.length) }
        ensures { (bytes : List ℕ) → IndexHasRead self.now bytes → place.0 ≡ line_at bytes from → place.1 ≡ column_at bytes from
            → (result.0 ≡ line_at bytes end) × (result.1 ≡ column_at bytes end) }
    {
        for index in from..end {
            let byte = byte_at(&self.kinds, index);
            place = next_place(place, byte, self.is_before_lf(index));
        }
        place
    }

    fn is_before_lf(&self, index: usize) -> bool
        requires { index < self.now.length }
        ensures { (bytes : List ℕ) → IndexHasRead self.now bytes → result ≡ (slice_index_or bytes (1 + index) 0 == 10) }
    {
        self.length - index > 1 && byte_at(&self.kinds, index + 1) == b'\n'
    }
}

/// Keeps the line and the column of a byte that is at a multiple of STEP.
fn set_mark(marks: &mut [(usize, usize)], at: usize, place: (usize, usize))
    requires { at < 256 * length marks.old }
    ensures here { (k : ℕ) → k * 256 ≡ at → slice_index_or marks.new k (1, 1) ≡ place }
    ensures others { (k : ℕ) → k * 256 ≢ at → slice_index_or marks.new k (1, 1) ≡ slice_index_or marks.old k (1, 1) }
{
    if at % STEP == 0 {
        marks[at / STEP] = place;
    }
}

/// Grows a list to this length at least, with this value in each new place.
fn grow<T: Copy>(items: &mut Vec<T>, length: usize, value: T) -> Result<(), AllocError>
    ensures same { (k : ℕ) → slice_index_or items.new.items k value ≡ slice_index_or items.old.items k value }
    ensures room { OnOk result (length ≤ vec_len items.new) }
{
    if length <= items.len() {
        return Ok(());
    }
    items.resize(length, value)
}

fn kind_of(byte: u8) -> u8
    ensures { result ≡ kind_of byte }
{
    match byte {
        b'\n' => 2,
        b'\r' => 3,
        0x80..=0xBF => 0,
        _ => 1,
    }
}

fn byte_at(kinds: &[u8], at: usize) -> u8
    ensures { (byte : ℕ) → kind_at kinds.now at ≡ kind_of byte → AreAlikeBytes result byte }
{
    let four = kinds.get(at / 4).copied().unwrap_or(0);
    KINDS[(four >> (at % 4 * 2) & 3) as usize]
}

/// Writes the kind at a place. Kinds at later places are lost.
fn set_kind(kinds: &mut [u8], at: usize, kind: u8)
    requires { (at / 4 < length kinds.old) × (kind < 4) }
    ensures here { kind_at kinds.new at ≡ kind }
    ensures before { (k : ℕ) → k < at → kind_at kinds.new k ≡ kind_at kinds.old k }
{
    let shift = at % 4 * 2;
    let before = kinds[at / 4] & ((1 << shift) - 1);
    kinds[at / 4] = before | kind << shift;
}
