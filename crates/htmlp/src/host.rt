//! The system as the program's surroundings.

ghost use Rattle.std.specs.Prelude.{◌≡◌, ◌≢◌, Some};
ghost use Rattle.std.specs.Process.{exit_status};
ghost use Rattle.htmlp.specs.Vocabulary.{IsUnread, HasRun};
ghost use Rattle.htmlp.specs.declared.fault.Fault.TheVariants as fault;

use crate::fault::Fault;
use crate::program::run_program;
use crate::surroundings::Surroundings;
use hparse::Source;
use hwrite::{Counted, Target};
use names::{Keys, Refusal};
use std::alloc::Global;
use std::fs::File;
use std::io::{ErrorKind, IsTerminal, Stderr, Stdin, Stdout};
use std::process::ExitCode;
use std::{env, fs};

// No clause knows what the system holds: stored runs show that these calls hand on its words and files.
impl Surroundings for HostRuntime {
    ghost use Rattle.std.specs.Prelude.{⊤};

    type File = Counted<File>;

    ghost world = { record {
      has_words = λ _ _. ⊤;
      cannot_begin = λ _ _. ⊤;
      opens = λ _ _ _. ⊤;
      cannot_open = λ _ _. ⊤;
      has_text = λ _ _ _. ⊤;
      lacks_text = λ _ _ _. ⊤;
      is_terminal = λ _ _. ⊤;
    } };

    fn alloc(&self) -> Global {
        Alloc::alloc(self)
    }

    fn words(&self) -> Result<Vec<String>, Fault<'static>> {
        let words = env::args(self).map_err(|error| words_fault(error.kind()))?;
        Ok(words.collect(Alloc::alloc(self))?)
    }

    fn keys(&self) -> Result<Keys, Fault<'static>> {
        Keys::random(self).or(Err(Fault::NoRandomBytes))
    }

    fn on_terminal(&self) -> bool {
        self.stderr().is_terminal()
    }

    fn open(&self, name: &str) -> Option<Counted<File>> {
        File::open(self, name).ok().map(Counted::new)
    }

    fn text<'a>(&self, name: &'a str) -> Result<String, Fault<'a>> {
        match fs::read_to_string(self, name) {
            Ok(text) => Ok(text),
            Err(error) => Err(text_fault(error.kind(), name)),
        }
    }
}

fn words_fault(kind: ErrorKind) -> Fault<'static>
    ensures not_text { kind ≡ ErrorKind.InvalidData → result ≡ fault.NotUtf8 }
    ensures memory { kind ≢ ErrorKind.InvalidData → result ≡ fault.Memory }
{
    if kind == ErrorKind::InvalidData {
        Fault::NotUtf8
    } else {
        Fault::Memory
    }
}

fn text_fault<'a>(kind: ErrorKind, name: &'a str) -> Fault<'a>
    ensures memory { kind ≡ ErrorKind.OutOfMemory → result ≡ fault.Memory }
    ensures unread { kind ≢ ErrorKind.OutOfMemory → result ≡ fault.Refused Refusal.Read (Some name.entry) }
    ensures named { IsUnread name.now result }
{
    if kind == ErrorKind::OutOfMemory {
        return Fault::Memory;
    }
    Fault::Refused {
        refusal: Refusal::Read,
        name: Some(name),
    }
}

/// The program over the system's streams.
pub fn start(rt: &HostRuntime) -> ExitCode
    ensures { HasRun ⟦<HostRuntime as Surroundings>⟧.world ⟦<Counted<File> as Source>⟧.left ⟦<Counted<File> as Source>⟧.failed
        ⟦<Counted<Stdin> as Source>⟧.left ⟦<Counted<Stdin> as Source>⟧.failed ⟦<Counted<Stdout> as Target>⟧.written
        ⟦<Counted<Stdout> as Target>⟧.failed ⟦<Counted<Stderr> as Target>⟧.written ⟦<Counted<Stderr> as Target>⟧.failed rt.now (exit_status result) }
{
    let mut input = Counted::new(rt.stdin());
    let mut output = Counted::new(rt.stdout());
    let mut errors = Counted::new(rt.stderr());
    ExitCode::from(run_program(rt, &mut input, &mut output, &mut errors))
}
