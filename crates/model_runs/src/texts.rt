//! Calls that read a text: a table of references, a quirks list, or a page by both.

use crate::words::Call;
use charref::Table;
use hadopt::Site;
use hmarkup::Quirks;
use hwrite::{Options, Parser, Refusal, error_lines, token_lines, tokens};
use names::Keys;
use std::alloc::Global;

/// What pages are read by.
#[derive(Drop)]
pub struct Texts {
    alloc: Global,
    table: Table,
    quirks: Quirks,
}

impl Texts {
    /// The core table and an empty list.
    pub fn new(alloc: Global) -> Result<Self, Refusal> {
        Ok(Texts {
            table: Table::core(alloc)?,
            quirks: Quirks::read(alloc, "")?,
            alloc,
        })
    }

    /// Makes a call. Whether all is as it should be after it.
    pub fn call(&mut self, call: &Call) -> Result<bool, Refusal> {
        match call.word(0) {
            "table" => self.table = table(self.alloc, call.number(3))?,
            "quirks" => self.quirks = quirks(self.alloc, call.number(3))?,
            "key" => return self.has_key(call.turn),
            "page" => return self.is_so(call),
            "tokens" => return self.has_tokens(call.after(3)),
            _ => {
                let site = Site::new(self.alloc, Keys::for_tests(), 1, 1)?;
                return Ok(site.errors().is_empty());
            }
        }
        Ok(true)
    }

    /// Whether a text begins with a key: that of a number.
    fn has_key(&self, number: usize) -> Result<bool, Refusal> {
        let text = format!(in self.alloc; "&name{number};x")?;
        Ok(self.table.longest(text.as_bytes()).is_some())
    }

    fn options(&self) -> Options<'_> {
        Options::new(&self.table, &self.quirks, Keys::for_tests())
    }

    /// Whether a page of a part that stands so many times has so many nodes, and so many parse errors, which are listed where there are some.
    fn is_so(&self, call: &Call) -> Result<bool, Refusal> {
        let mut parser = Parser::document(self.alloc, &self.options())?;
        for _ in 0..call.number(3) {
            parser.feed(call.after(6).as_bytes())?;
        }
        let page = parser.finish()?;
        let (nodes, errors) = (page.tree.made() as usize, page.errors.len());
        let lines = error_lines(self.alloc, &page.errors);
        drop(page);
        let counted = nodes == call.number(4) && errors == call.number(5);
        Ok(counted && lines?.is_empty() == (errors == 0))
    }

    /// Whether a page has tokens, as lines.
    fn has_tokens(&self, page: &str) -> Result<bool, Refusal> {
        let run = tokens(self.alloc, &[page.as_bytes()], &self.options())?;
        let lines = token_lines(self.alloc, &run)?;
        Ok(!lines.is_empty())
    }
}

/// A table with so many keys, `&name0;` first.
fn table(alloc: Global, count: usize) -> Result<Table, Refusal> {
    let mut json = String::from_str(alloc, "{")?;
    for number in 0..count {
        let comma = if number > 0 { "," } else { "" };
        write!(
            json,
            "{comma}\"&name{number};\":{{\"codepoints\":[97],\"characters\":\"a\"}}"
        )?;
    }
    json.push_str("}")?;
    Table::read(alloc, &json)
}

/// A quirks list of so many lines.
fn quirks(alloc: Global, count: usize) -> Result<Quirks, Refusal> {
    let mut text = String::new(alloc);
    for number in 0..count {
        write!(text, "public-is {number}\n")?;
    }
    Quirks::read(alloc, &text)
}
