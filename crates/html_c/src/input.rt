//! An input in memory, as a source.

ghost use Rattle.std.specs.Prelude.{Some};
ghost use Rattle.html_c.specs.Input.{left_in};

use hparse::Source;

/// What is left of an input. No read of it fails.
#[derive(Drop)]
pub(crate) struct Input<'a> {
    pub(crate) rest: &'a [u8],
}

impl<'a> Source for Input<'a> {
    ghost left = { λ input. Some (left_in input) };

    ghost failed = { λ input. 0 };

    fn read(&mut self, buffer: &mut [u8]) -> Option<usize> {
        let all = self.rest;
        let count = all.len().min(buffer.len());
        buffer[..count].copy_from_slice(&all[..count]);
        self.rest = &all[count..];
        Some(count)
    }

    fn failures(&self) -> u64 {
        0
    }
}
