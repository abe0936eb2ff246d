//! What a sink has that `read_into` handed a document to, where the reading did not come to its end.

use crate::taken::Taken;
use hwrite::{Counted, Keys, Options, Quirks, Refusal, Table, read_into};
use names::RefusedName;
use std::alloc::Global;
use std::io;
use std::io::Read;
use std::test::Fail;

/// Gives a byte a read, and fails where there is no more.
#[derive(Drop)]
struct Broken<'a>(&'a [u8]);

impl Read for Broken<'_> {
    fn read(&mut self, buffer: &mut [u8]) -> io::Result<usize> {
        let Some((byte, rest)) = self.0.split_first() else {
            return Err(io::ErrorKind::Interrupted.into());
        };
        let Some(place) = buffer.first_mut() else {
            return Ok(0);
        };
        *place = *byte;
        self.0 = rest;
        Ok(1)
    }
}

/// An input, for how many items a sink has room, what it takes, and why the reading ends. A sink that refuses is handed nothing more, and
/// none is handed an end after a read that failed.
const ENDED: [(&str, u32, &str, Refusal); 5] = [
    ("xxx", 99, "xxx", Refusal::Read),
    ("xxx", 1, "x", Refusal::Write),
    ("a\x01€", 2, "a!", Refusal::Write),
    ("<p></p>", 1, "S", Refusal::Write),
    (
        "<p>x<svg>",
        99,
        "Sx",
        Refusal::OutOfProfile {
            name: RefusedName::Svg,
            at: 4,
        },
    ),
];

/// Whether a sink with that room takes this of the input, and refuses one more where that ends the reading.
fn takes(alloc: Global, options: &Options<'_>, it: &(&str, u32, &str, Refusal)) -> bool {
    let (input, left, text, refusal) = *it;
    let mut source = Counted::new(Broken(input.as_bytes()));
    let (sink, answer) = read_into(alloc, 2, options, Taken::new(alloc, left), &mut source);
    let refused = u32::from(refusal == Refusal::Write);
    answer.err() == Some(refusal) && sink.text.as_str() == text && sink.refused == refused
}

/// Whether all do.
fn all_take(alloc: Global) -> Result<bool, Refusal> {
    let table = Table::core(alloc)?;
    let quirks = Quirks::read(alloc, "")?;
    let options = Options::new(&table, &quirks, Keys::for_tests());
    Ok(ENDED.iter().all(|it| takes(alloc, &options, it)))
}

#[test]
fn that_stops(rt: HostRuntime) -> Result<(), Fail> {
    assert!(rt; all_take(rt.alloc())?);
    Ok(())
}
