//! Readers and writers that count their failed calls.

ghost use Rattle.std.specs.Prelude.{◌≡◌, true, Ok, is_ok};
ghost use Rattle.std.specs.Result.{result_ok};
ghost use Rattle.std.specs.Io.KnownBytes.{Keeps};
ghost use Rattle.hwrite.specs.Vocabulary.{CalledOnce, ReadsCall, Writes, counted_by, counted_unless, counted_failures, inner_of, taken_of};

use crate::devices::{ReadDevice, WriteDevice};
use hparse::Source;
use hserialize::Target;

/// Any reader or writer, with a count of its failed calls. Each call makes one of it: none is tried again, not even an interrupted one.
#[derive(Drop)]
pub struct Counted<T> {
    inner: T,
    failures: u64,
}

impl<T> Counted<T> {
    /// No call has failed yet.
    pub fn new(inner: T) -> Self
        ensures inner { inner_of result ≡ inner }
        ensures none { counted_failures result ≡ 0 }
    {
        Counted { inner, failures: 0 }
    }

    /// The reader or writer, as its calls have left it.
    pub fn into_inner(self) -> T
        ensures { result ≡ inner_of self }
    {
        self.inner
    }
}

impl<D: ReadDevice> Source for Counted<D> {
    ghost left = { λ source. D.remaining (inner_of source) };

    ghost failed = { counted_failures };

    fn read(&mut self, buffer: &mut [u8]) -> Option<usize>
        ensures bytes { ReadsCall (D.remaining (inner_of self.old)) (D.remaining (inner_of self.new)) result buffer.new }
        ensures count { counted_failures self.new ≡ counted_by (counted_failures self.old) result }
        ensures once { CalledOnce (λ answer. D.reads (inner_of self.old) answer buffer.new (inner_of self.new)) result_ok result }
    {
        match self.inner.read_once(buffer) {
            Ok(count) => Some(count),
            Err(_) => {
                self.failures = self.failures.saturating_add(1);
                None
            }
        }
    }

    fn failures(&self) -> u64 {
        self.failures
    }
}

impl<D: WriteDevice> Target for Counted<D> {
    ghost written = { λ target. D.contents (inner_of target) };

    ghost failed = { counted_failures };

    // One flush of what is inside, which succeeded.
    ghost flushes = { λ before after. D.flushes (inner_of before) (Ok tt) (inner_of after) };

    fn write(&mut self, bytes: &[u8]) -> Option<usize>
        ensures bytes { Writes (D.contents (inner_of self.old)) (D.contents (inner_of self.new)) result bytes.now }
        ensures count { counted_failures self.new ≡ counted_by (counted_failures self.old) result }
        ensures once { CalledOnce (λ answer. D.writes (inner_of self.old) bytes.now answer (inner_of self.new)) (taken_of bytes.now) result }
    {
        match self.inner.write_once(bytes) {
            Ok(count) if count > 0 || bytes.is_empty() => Some(count),
            _ => {
                self.failures = self.failures.saturating_add(1);
                None
            }
        }
    }

    fn flush(&mut self) -> bool
        ensures bytes { Keeps (D.contents (inner_of self.old)) (D.contents (inner_of self.new)) }
        ensures flushed { result ≡ true → D.flushes (inner_of self.old) (Ok tt) (inner_of self.new) }
        ensures count { counted_failures self.new ≡ counted_unless (counted_failures self.old) result }
        ensures once { CalledOnce (λ answer. D.flushes (inner_of self.old) answer (inner_of self.new)) is_ok result }
    {
        let is_flushed = self.inner.flush_once().is_ok();
        if !is_flushed {
            self.failures = self.failures.saturating_add(1);
        }
        is_flushed
    }

    fn failures(&self) -> u64 {
        self.failures
    }
}
