//! An example of the library: prints the links of a page that is read in pieces and kept nowhere, as they come, and stops after the
//! first few where a fourth word says how many.
#![tactic(auto)]

use anyhow::Context;
use hwrite::{
    Counted, ErrorSink, Keys, Names, Options, ParseError, Quirks, Refusal, Table, Tag, Token,
    TokenSink, read_into,
};
use std::fs::File;
use std::{env, fs};

/// How many bytes are read at a time.
const PIECE: usize = 65_536;

pub fn main(rt: HostRuntime) -> anyhow::Result<()> {
    print_first_links(&rt)
}

/// Prints the first links of the page that the command line names.
pub fn print_first_links(rt: &HostRuntime) -> anyhow::Result<()> {
    let table = Table::read(rt.alloc(), &fs::read_to_string(rt, word(rt, 2)?.as_str())?)?;
    // The quirks list has no say in tokens.
    let quirks = Quirks::read(rt.alloc(), "")?;
    let options = Options::new(&table, &quirks, Keys::random(rt)?);
    let left = most(rt)?;
    let mut page = Counted::new(File::open(rt, word(rt, 1)?.as_str())?);
    let (links, answer) = read_into(rt.alloc(), PIECE, &options, Links { rt, left }, &mut page);
    // Where no more are wanted, the refusal is that of the sink.
    if links.left > 0 {
        answer?;
    }
    Ok(())
}

/// A word of the command line.
fn word(rt: &HostRuntime, at: usize) -> anyhow::Result<String> {
    env::args(rt)?.nth(at).context(
        "name a page, the table of character references and the quirks list",
    )
}

/// How many links are wanted: all, if no number says so.
fn most(rt: &HostRuntime) -> anyhow::Result<u64> {
    match env::args(rt)?.nth(4) {
        Some(number) => number.parse().context("say how many links by a number"),
        None => Ok(u64::MAX),
    }
}

/// Prints links as their tags come.
#[derive(Drop)]
struct Links<'a> {
    rt: &'a HostRuntime,
    /// How many more are wanted.
    left: u64,
}

impl<'a> Links<'a> {
    /// Prints a link. A refusal ends the reading: no more are wanted, or this one cannot be printed.
    fn print(&mut self, link: &str) -> Result<(), Refusal> {
        let Some(left) = self.left.checked_sub(1) else {
            return Err(Refusal::Write);
        };
        if println!(self.rt; "{link}").is_err() {
            return Err(Refusal::Write);
        }
        self.left = left;
        Ok(())
    }
}

impl<'a> ErrorSink for Links<'a> {
    ghost use Rattle.std.specs.Prelude.{⊤};

    ghost gives = { λ _ _ _ _. ⊤ };

    fn take_error(&mut self, _error: ParseError) -> Result<(), Refusal> {
        Ok(())
    }
}

impl<'a> TokenSink for Links<'a> {
    ghost use Rattle.std.specs.Prelude.{⊤};

    ghost gives_token = { λ _ _ _ _. ⊤ };

    fn take_token(&mut self, _token: Token) -> Result<(), Refusal> {
        Ok(())
    }

    fn take_text(&mut self, _ch: char, _at: u64) -> Result<(), Refusal> {
        Ok(())
    }

    fn take_tag(&mut self, tag: &mut Token, names: &Names) -> Result<(), Refusal> {
        if let Token::Start { name, attrs, .. } = &*tag
            && name.tag() == Tag::A
        {
            for attr in attrs {
                if names.text(attr.name()) == "href" {
                    return self.print(attr.value());
                }
            }
        }
        Ok(())
    }
}
