//! Tests by what only calls can show: a sink that refuses, a read that fails, what is held, and calls that nothing else makes. What comes of
//! an input, and of a call after a refusal, is in the stored cases of `data/cases`, what comes of a command line in the stored runs of
//! `htmlp`, what comes of each read and each write that fails in `.ci/refused-calls`.
#![tactic(auto)]

#[cfg(test)]
mod columns;
#[cfg(test)]
mod pages;
#[cfg(test)]
mod reading;
#[cfg(test)]
mod tables;
#[cfg(test)]
mod taken;
#[cfg(test)]
mod tokens;
