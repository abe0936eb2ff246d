//! What a command line says.

use htext::BadBytes;
use hwrite::Command;

/// What the words of a command line say.
#[derive(Clone, Copy)]
pub struct Line<'a> {
    pub command: Command<'a>,
    /// The name of the file of the table of character references. None is the core table.
    pub entities: Option<&'a str>,
    /// The name of the file of the quirks list. None is the empty list.
    pub quirks: Option<&'a str>,
    /// What becomes of bytes that are not UTF-8.
    pub bad_bytes: BadBytes,
    /// The most nodes.
    pub nodes: u64,
    /// The most open elements.
    pub open: u64,
    /// The name of the input's file. None is the standard input.
    pub file: Option<&'a str>,
}
