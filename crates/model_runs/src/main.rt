//! Makes the calls of a script. A line has a structure, a call of it, and how often it is made; its answer is a line: how often all was as
//! it should be after it, or `refused` and why. The file stdin says what the calls are.
//!
//! What the calls are made on, and the room for the answers, is there before the script is read. So after its end memory is asked for by its calls alone.
#![tactic(auto)]

mod hand;
mod list;
mod stack;
mod texts;
mod tree;
mod words;

use crate::hand::Hand;
use crate::texts::Texts;
use crate::words::Call;
use hopen::{Formatting, OpenStack};
use names::{Keys, Refusal};
use std::alloc::{AllocError, Global};
use std::io;

/// How many elements may be open.
const MOST_OPEN: u32 = 1 << 20;
/// How many bytes of answers need no more memory.
const ROOM: usize = 1 << 14;

fn main(rt: HostRuntime) -> io::Result<()> {
    let mut structures = Structures::new(rt.alloc()).map_err(|_| AllocError)?;
    let done = run(&rt, &mut structures);
    drop(structures);
    done
}

/// Reads the script, makes its calls, and prints what they answer.
fn run(rt: &HostRuntime, structures: &mut Structures) -> io::Result<()> {
    let mut answers = String::with_capacity(rt.alloc(), ROOM)?;
    let script = io::read_to_string(rt.alloc(), rt.reader())?;
    structures.play(&script, &mut answers)?;
    rt.print(&answers)
}

/// A stack of open elements, a list of active formatting elements, what pages are read by, and a tree and names for all calls.
#[derive(Drop)]
struct Structures {
    hand: Hand,
    stack: OpenStack,
    list: Formatting,
    texts: Texts,
}

impl Structures {
    /// Empty lists, and the document alone.
    fn new(alloc: Global) -> Result<Self, Refusal> {
        Ok(Structures {
            texts: Texts::new(alloc)?,
            hand: Hand::new(alloc)?,
            stack: OpenStack::new(alloc, MOST_OPEN),
            list: Formatting::new(alloc, Keys::for_tests()),
        })
    }

    /// Makes the calls of each line.
    fn play(&mut self, script: &str, answers: &mut String) -> Result<(), AllocError> {
        for line in script.lines() {
            if !line.is_empty() && !line.starts_with('#') {
                match self.calls(line) {
                    Ok(right) => write!(answers, "{right}\n")?,
                    Err(refusal) => write!(answers, "refused {refusal}\n")?,
                }
            }
        }
        Ok(())
    }

    /// Makes a call as often as a line says, and again where memory was refused: the call that failed has changed nothing. How often all
    /// was as it should be after it.
    fn calls(&mut self, line: &str) -> Result<usize, Refusal> {
        let mut right = 0usize;
        let mut call = Call { line, turn: 0 };
        for turn in 0..call.number(2) {
            call.turn = turn;
            let answer = match self.call(&call) {
                Err(Refusal::Memory) => self.call(&call),
                answer => answer,
            };
            right = right.saturating_add(usize::from(answer?));
        }
        Ok(right)
    }

    /// Makes a call. Whether all is as it should be after it.
    fn call(&mut self, call: &Call) -> Result<bool, Refusal> {
        let hand = &mut self.hand;
        match call.word(0) {
            "tree" => tree::call(hand, call),
            "stack" => stack::call(&mut self.stack, hand, call),
            "list" => list::call(&mut self.list, hand, call),
            "names" => {
                let name = hand.name(call.turn)?;
                Ok(hand.names.get(name).is_some())
            }
            _ => self.texts.call(call),
        }
    }
}
