//! The lines and the columns of bytes.

ghost use Rattle.std.specs.Prelude.{◌≡◌, ◌==◌, ◌<◌, ◌≤◌, ◌/◌, ◌+◌, ◌-◌, ◌^◌, if◌then◌else◌, IfOk, length, min};
ghost use Rattle.hwrite.specs.Columns.{AreMarks, begins_character, column_at, is_end, line_at};

use std::alloc::{AllocError, Global};

/// How many bytes have one mark.
pub(crate) const STEP: usize = 256;

/// The line and the column, both from 1, of the byte of a text at this offset from 0, as a [`names::ParseError`] has it. A line ends
/// at LF, CR LF or CR. Columns count characters of UTF-8, by the bytes that begin one. An offset past the end is taken for the end.
/// Takes as many steps as there are bytes before it: for more than one question see [`Lines`].
pub fn line_column(text: &[u8], at: u64) -> (usize, usize)
    ensures line { result.0 ≡ line_at text.now (min at (length text.now)) }
    ensures column { result.1 ≡ column_at text.now (min at (length text.now)) }
{
    let end = at.min(text.len() as u64) as usize;
    place_after(text, 0, end, (1, 1))
}

/// The line and the column of a byte, from those of one before it.
fn place_after(text: &[u8], from: usize, end: usize, mut place: (usize, usize)) -> (usize, usize)
    requires order { (from ≤ end) × (end ≤ length text.now) }
    requires from { (place.0 ≡ line_at text.now from) × (place.1 ≡ column_at text.now from) }
    ensures line { result.0 ≡ line_at text.now end }
    ensures column { result.1 ≡ column_at text.now end }
{
    for index in from..end {
        let before_lf = text.get(index + 1) == Some(&b'\n');
        place = next_place(place, text[index], before_lf);
    }
    place
}

/// The line and the column of the byte after this one, from its own.
pub(crate) fn next_place(place: (usize, usize), byte: u8, before_lf: bool) -> (usize, usize)
    ensures line { place.0 < 2 ^ 64 - 1 → result.0 ≡ (if is_end byte before_lf then 1 else 0) + place.0 }
    ensures column { place.1 < 2 ^ 64 - 1 → result.1 ≡ (if is_end byte before_lf then 1 else (if begins_character byte then 1 else 0) + place.1) }
{
    let (line, column) = place;
    if byte == b'\n' || byte == b'\r' && !before_lf {
        (line.saturating_add(1), 1)
    } else if byte < 0x80 || byte >= 0xC0 {
        (line, column.saturating_add(1))
    } else {
        (line, column)
    }
}

/// The lines of a text: an index, made once, of which each question takes at most 256 steps. It takes 16 bytes for 256 of the text.
#[derive(Drop)]
pub struct Lines<'t> {
    text: &'t [u8],
    /// The line and the column of each byte at a multiple of STEP.
    marks: Vec<(usize, usize)>,
    ghost marked: { AreMarks text.now marks.items },
    ghost whole: { length text.now / 256 < length marks.items },
}

impl<'t> Lines<'t> {
    /// The lines of a text. Takes as many steps as it has bytes.
    pub fn of(alloc: Global, text: &'t [u8]) -> Result<Lines<'t>, AllocError>
        ensures { IfOk result (λ lines. lines.text.now ≡ text.now) }
    {
        let mut marks = Vec::with_capacity(alloc, text.len() / STEP + 1)?;
        let mut place = (1, 1);
        marks.push(place)?;
        let mut from = 0;
        while text.len() - from >= STEP {
            place = place_after(text, from, from + STEP, place);
            from += STEP;
            marks.push(place)?;
        }
        Ok(Lines { text, marks })
    }

    /// The line and the column of a byte, as [`line_column`] has them.
    pub fn line_column(&self, at: u64) -> (usize, usize)
        ensures line { result.0 ≡ line_at self.now.text.now (min at (length self.now.text.now)) }
        ensures column { result.1 ≡ column_at self.now.text.now (min at (length self.now.text.now)) }
    {
        let end = at.min(self.text.len() as u64) as usize;
        let mark = end / STEP;
        place_after(self.text, mark * STEP, end, self.marks[mark])
    }
}
