//! One call of a reader or a writer.

ghost use Rattle.std.specs.Prelude.{ℕ, List, Option, Result};
ghost use Rattle.std.specs.Io.{ReadsAtMost, WritesAtMost};
ghost use Rattle.std.specs.Io.KnownBytes.{Keeps, ReadConsumes, WriteAppends};
ghost use Rattle.std.specs.declared.io.Error.{Error};

use std::io;
use std::io::{Read, Write};

/// A reader, and what one call of it does. Every `std::io::Read` is one, of which std says no more than its bytes; one of your own may say more.
pub trait ReadDevice {
    // The bytes that reads will give from here on, where it says.
    ghost remaining: { Self → Option (List ℕ) };

    // A read of it as it was, its answer, the buffer as it is then, and the reader.
    ghost reads: { Self → Result ℕ Error → List ℕ → Self → Type 0 };

    /// Reads once, into the beginning of the buffer.
    fn read_once(&mut self, buffer: &mut [u8]) -> io::Result<usize>
        ensures step { reads self.old result buffer.new self.new }
        ensures bound { ReadsAtMost result buffer.new }
        ensures bytes { ReadConsumes (remaining self.old) (remaining self.new) result buffer.new };
}

impl<R: Read> ReadDevice for R {
    ghost remaining = { R.remaining };

    ghost reads = { λ old answer buffer new. ReadsAtMost answer buffer × ReadConsumes (R.remaining old) (R.remaining new) answer buffer };

    fn read_once(&mut self, buffer: &mut [u8]) -> io::Result<usize> {
        self.read(buffer)
    }
}

/// A writer, and what one call of it does. Every `std::io::Write` is one in the same way.
pub trait WriteDevice {
    // The bytes that it holds, where it says.
    ghost contents: { Self → Option (List ℕ) };

    // A write of it as it was, the bytes, the answer, and the writer as it is then.
    ghost writes: { Self → List ℕ → Result ℕ Error → Self → Type 0 };

    // A flush in the same way.
    ghost flushes: { Self → Result (Unit {0}) Error → Self → Type 0 };

    /// Writes once, a beginning of the bytes.
    fn write_once(&mut self, bytes: &[u8]) -> io::Result<usize>
        ensures step { writes self.old bytes.now result self.new }
        ensures bound { WritesAtMost result bytes.now }
        ensures bytes { WriteAppends (contents self.old) (contents self.new) result bytes.now };

    /// Flushes once.
    fn flush_once(&mut self) -> io::Result<()>
        ensures step { flushes self.old result self.new }
        ensures bytes { Keeps (contents self.old) (contents self.new) };
}

impl<W: Write> WriteDevice for W {
    ghost contents = { W.contents };

    ghost writes = { λ old bytes answer new. WritesAtMost answer bytes × WriteAppends (W.contents old) (W.contents new) answer bytes };

    ghost flushes = { λ old _ new. Keeps (W.contents old) (W.contents new) };

    fn write_once(&mut self, bytes: &[u8]) -> io::Result<usize> {
        self.write(bytes)
    }

    fn flush_once(&mut self) -> io::Result<()> {
        self.flush()
    }
}
