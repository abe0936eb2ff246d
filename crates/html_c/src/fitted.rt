//! A text of which no more is kept than has room.

ghost use Rattle.std.specs.Prelude.{◌≡◌, ◌≤◌, ◌++◌, ℕ, List, [], flat_map, length};
ghost use Rattle.std.specs.Borrow.{ftrue};

use crate::room::put;
use hserialize::Target;
use names::Refusal;
use std::alloc::Global;
use std::marker::Model;
use std::slice::from_ref;

/// The length of a text, and its bytes if they fit into a room.
#[derive(Drop)]
pub(crate) struct Fitted {
    kept: Vec<u8>,
    pub(crate) room: usize,
    pub(crate) count: usize,
    all: History,
    failures: u64,
    ghost counted: { count ≡ length all.bytes },
    ghost whole: { count ≤ room → kept.items ≡ all.bytes },
    ghost within: { length kept.items ≤ room },
}

impl Fitted {
    ghost use Rattle.std.specs.Prelude.{Some, None, true};
    ghost use Rattle.hserialize.specs.Output.{WritesText};
    ghost use Rattle.html_c.specs.Fitted.{fitted_failures, IsFitted, fitted_contents, fitted_text};
    ghost use Rattle.html_c.specs.Room.{put_over};

    pub(crate) fn new(alloc: Global, room: usize) -> Fitted
        ensures empty { fitted_text result ≡ [] }
        ensures room { result.room ≡ room }
    {
        Fitted {
            kept: Vec::new(alloc),
            room,
            count: 0,
            all: History::with(&[], &[]),
            failures: 0,
        }
    }

    /// Adds bytes, unless there is no memory for them.
    fn add(&mut self, bytes: &[u8]) -> Option<()>
        ensures added { result ≡ Some tt → fitted_text self.new ≡ fitted_text self.old ++ bytes.now }
        ensures none { result ≡ None → fitted_text self.new ≡ fitted_text self.old }
        ensures room { self.new.room ≡ self.old.room }
        ensures failures { fitted_failures self.new ≡ fitted_failures self.old }
    {
        let count = self.count.checked_add(bytes.len())?;
        if count <= self.room {
            self.kept.extend_from_slice(bytes).ok()?;
        }
        self.all = History::with(from_ref(&self.all), bytes);
        self.count = count;
        Some(())
    }

    /// The text that was written, if all of it was: what fails is memory alone.
    pub(crate) fn written(self, answer: Result<(), Refusal>) -> Result<Fitted, Refusal>
        ensures { (text : List ℕ) (old : Fitted) → fitted_text old ≡ []
            → WritesText fitted_contents fitted_failures text old self answer → IsFitted old.room text result }
    {
        match answer {
            Ok(()) => Ok(self),
            Err(_) => Err(Refusal::Memory),
        }
    }

    /// Writes it to the beginning of its room, if it is to be written.
    pub(crate) fn put(&self, fits: bool, room: &mut [u8])
        requires room { self.now.room ≡ length room.old }
        requires fits { fits ≡ true → length (fitted_text self.now) ≤ length room.old }
        ensures { room.new ≡ put_over fits (fitted_text self.now) room.old }
    {
        put(fits, &self.kept, room);
    }
}

impl Target for Fitted {
    ghost use Rattle.html_c.specs.Fitted.{fitted_contents, fitted_failures};

    ghost written = { fitted_contents };

    ghost failed = { fitted_failures };

    fn write(&mut self, bytes: &[u8]) -> Option<usize> {
        if self.add(bytes).is_none() {
            self.failures = self.failures.saturating_add(1);
            return None;
        }
        Some(bytes.len())
    }

    fn flush(&mut self) -> bool {
        true
    }

    fn failures(&self) -> u64 {
        self.failures
    }
}

/// All bytes that were written to a text. It takes no memory and does nothing: only proofs read it.
#[derive(Drop)]
struct History {
    ghost bytes: { List ℕ },
}

impl Model for History {
    ghost also_owns = { λ _. ftrue };
}

impl History {
    /// Those of earlier ones, and then these.
    fn with(_earlier: &[History], _bytes: &[u8]) -> History
        ensures { result.bytes ≡ flat_map (λ earlier. earlier.bytes) _earlier.now ++ _bytes.now }
    {
        History {}
    }
}
