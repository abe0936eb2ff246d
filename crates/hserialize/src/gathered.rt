//! A text in memory, as a target.

ghost use Rattle.std.specs.Prelude.{◌≡◌, [], Some};
ghost use Rattle.hserialize.specs.Gathered.{gathered, gathered_failures, text_if};

use crate::target::Target;
use names::Refusal;
use std::alloc::Global;

/// The bytes that were written, and how often there was no memory for some.
#[derive(Drop)]
pub struct Gathered {
    text: Vec<u8>,
    failures: u64,
}

impl Gathered {
    /// Nothing yet.
    pub fn new(alloc: Global) -> Self
        ensures { gathered result ≡ Some [] }
    {
        Gathered {
            text: Vec::new(alloc),
            failures: 0,
        }
    }

    /// The text, if all of it was written: what fails is memory alone.
    pub fn into_text(self, answer: Result<(), Refusal>) -> Result<Vec<u8>, Refusal>
        ensures { result ≡ text_if self answer }
    {
        match answer {
            Ok(()) => Ok(self.text),
            Err(_) => Err(Refusal::Memory),
        }
    }
}

impl Target for Gathered {
    ghost written = { gathered };

    ghost failed = { gathered_failures };

    fn write(&mut self, bytes: &[u8]) -> Option<usize> {
        if self.text.extend_from_slice(bytes).is_err() {
            self.failures = self.failures.saturating_add(1);
            return None;
        }
        Some(bytes.len())
    }

    fn flush(&mut self) -> bool {
        true
    }

    fn failures(&self) -> u64 {
        self.failures
    }
}
