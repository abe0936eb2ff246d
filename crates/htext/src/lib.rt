//! The text of an input: bytes in any pieces, read as UTF-8 up to a limit, with newlines normalized and with the errors of
//! the input stream (HTML Standard, `#preprocessing-the-input-stream`).
#![tactic(auto)]

mod character;
pub mod decoder;
pub mod laws;
mod progress;
pub mod run;
pub mod sink;

pub use decoder::{Decoder, MAX_INPUT};
pub use run::{alphanumeric_run, quoted_run, text_run, unquoted_run, word_run};
pub use sink::CharSink;

/// What becomes of a byte order mark (EF BB BF) at the front of an input.
#[derive(Clone, Copy)]
pub enum Bom {
    /// It isn't part of the text, as in a document.
    Drop,
    /// It is the character U+FEFF, as in a fragment.
    Keep,
}

/// What becomes of bytes that are not UTF-8.
#[derive(Clone, Copy)]
pub enum BadBytes {
    /// The input is refused at the first of them.
    Refuse,
    /// Each bad part becomes one U+FFFD, with the error `replaced-bytes` at its first byte (Encoding Standard, "UTF-8 decode").
    Replace,
}
