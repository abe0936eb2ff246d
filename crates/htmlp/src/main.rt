//! The program `htmlp` as a function of its surroundings: its command line, its files, its streams and its status. Without words it
//! ends with the status of a fault; `runs/` has what it does with others.
#![tactic(auto)]

mod commands;
mod ending;
mod fault;
mod host;
mod line;
mod numeric;
mod parts;
mod program;
mod said;
mod surroundings;

use crate::host::start;
use std::process::ExitCode;

fn main(rt: HostRuntime) -> ExitCode {
    start(&rt)
}
