//! What bytes are read from.

ghost use Rattle.std.specs.Prelude.{◌≡◌, ℕ, List, Option};
ghost use Rattle.hparse.specs.Calls.{ReadsCall};
ghost use Rattle.hserialize.specs.Calls.{counted_by};

/// A reader that counts its failed calls.
pub trait Source {
    // The bytes that reads will give from here on, where the reader says.
    ghost left: { Self → Option (List ℕ) };

    // How many calls have failed.
    ghost failed: { Self → ℕ };

    /// Reads into the beginning of the buffer, and returns the number of bytes. None if the call failed.
    fn read(&mut self, buffer: &mut [u8]) -> Option<usize>
        ensures bytes { ReadsCall (left self.old) (left self.new) result buffer.new }
        ensures count { failed self.new ≡ counted_by (failed self.old) result };

    /// The number of failed calls. It stays at the greatest value.
    fn failures(&self) -> u64
        ensures { result ≡ failed self.now };
}
