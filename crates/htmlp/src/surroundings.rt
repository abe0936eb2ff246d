//! What the program runs in.

ghost use Rattle.std.specs.Prelude.{◌≡◌, None, map, IfErr, IfSome, MatchResult, string_bytes, ⊤};
ghost use Rattle.htmlp.specs.Fault.{IsUnread};
ghost use Rattle.htmlp.specs.World.{World};

use crate::fault::Fault;
use hparse::Source;
use names::Keys;
use std::alloc::Global;

/// The words of the program's command line, and its files. The streams are passed next to it.
pub trait Surroundings {
    /// An open file.
    type File: Source + Drop;

    // What the calls have returned.
    ghost world: { World Self Self.File };

    /// The allocator for everything that the program keeps.
    fn alloc(&self) -> Global;

    /// The words of the command line, the first of which is the program's own name.
    fn words(&self) -> Result<Vec<String>, Fault<'static>>
        ensures { MatchResult result (λ words. world.has_words self.now (map string_bytes words.items)) (world.cannot_begin self.now) };

    /// Keys that nobody can know: random bytes of the system.
    fn keys(&self) -> Result<Keys, Fault<'static>>
        ensures { MatchResult result (λ _. ⊤) (world.cannot_begin self.now) };

    /// Whether standard error is a terminal, where a person reads it.
    fn on_terminal(&self) -> bool
        ensures { world.is_terminal self.now result };

    /// Opens a file for reading. None where there is no such file, or it cannot be opened.
    fn open(&self, name: &str) -> Option<Self::File>
        ensures opened { IfSome result (world.opens self.now name.now) }
        ensures not_opened { result ≡ None → world.cannot_open self.now name.now };

    /// The text of a file. The fault is `Memory`, or names the file where there is none, it cannot be read, or it is not UTF-8.
    fn text<'a>(&self, name: &'a str) -> Result<String, Fault<'a>>
        ensures text { MatchResult result (λ text. world.has_text self.now name.now (string_bytes text)) (world.lacks_text self.now name.now) }
        ensures fault { IfErr result (IsUnread name.now) };
}
