//! The line and the column of a byte.

use hwrite::{LineIndex, Lines, line_column};
use std::alloc::{AllocError, Global};
use std::test::Fail;

/// Whether a byte of a text has this place: by a walk from its beginning, by its lines, and by an index that is fed pieces of two bytes,
/// which cut its character and its CR LF.
fn is_at(alloc: Global, at: u64, place: (usize, usize)) -> Result<bool, AllocError> {
    let text = b"a\xc3\xa9\r\n\rb".as_slice();
    let lines = Lines::of(alloc, text)?;
    let mut index = LineIndex::new(alloc);
    for piece in text.chunks(2) {
        index.feed(piece)?;
    }
    let walked = line_column(text, at) == place;
    Ok(walked && lines.line_column(at) == place && index.line_column(at) == place)
}

#[test]
fn of_the_last_byte(rt: HostRuntime) -> Result<(), Fail> {
    assert!(rt; is_at(rt.alloc(), 6, (3, 1))?);
    Ok(())
}
