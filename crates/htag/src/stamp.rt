//! Keeps which names a tag has had.

ghost use Rattle.std.specs.Prelude.{◌≡◌, ◌∷◌, ◌<◌, ◌^◌, ℕ, List, [], not, IfOk};
ghost use Rattle.htag.specs.Seen.{HasSeen, has_number};

use crate::seen::Seen;
use std::alloc::{AllocError, Global};

impl Seen {
    pub fn new(alloc: Global) -> Seen
        ensures { HasSeen result [] }
    {
        Seen {
            stamps: Vec::new(alloc),
            tag: 1,
        }
    }

    pub fn begin(&mut self)
        ensures { HasSeen self.new [] }
    {
        if self.tag == u32::MAX {
            self.stamps.clear();
            self.tag = 1;
        } else {
            self.tag += 1;
        }
    }

    /// Adds a name; returns whether the tag had none of this number.
    #[inline(always)]
    pub fn add(&mut self, number: usize) -> Result<bool, AllocError>
        requires { number < 2 ^ 63 }
        ensures { IfOk result (λ first. (numbers : List ℕ) → HasSeen self.old numbers
            → (first ≡ not (has_number number numbers)) × HasSeen self.new (number ∷ numbers)) }
    {
        if number < self.stamps.len() {
            let first = self.stamps[number] != self.tag;
            self.stamps[number] = self.tag;
            return Ok(first);
        }
        self.stamps.resize(number + 1, 0)?;
        self.stamps[number] = self.tag;
        Ok(true)
    }
}
