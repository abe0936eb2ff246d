//! Bytes in any pieces, read as UTF-8 up to a limit.

ghost use Rattle.std.specs.Prelude.{◌≡◌, ◌≤◌, ℕ, List, [], ◌∷◌, ◌++◌, length, drop, None, Some, Ok, Err, OnOk, IfErr, vec_len};
ghost use Rattle.htext.specs.Vocabulary.{Refused, settled, EndsDecoding, Feeds, HasFed, ReadsOn};

use crate::progress::Progress;
use crate::sink::CharSink;
use crate::{BadBytes, Bom};
use names::Refusal;
use std::alloc::Global;
use std::marker::Model;

/// The greatest input limit, in bytes.
pub const MAX_INPUT: u64 = 1_073_741_824;

/// Reads the bytes of an input, which come in pieces, and hands its text to a sink.
#[derive(Drop)]
pub struct Decoder {
    reading: Progress,
    /// The bytes that have been fed and not read: the beginning of a character.
    undecoded: Vec<u8>,
    refused: Option<Refusal>,
}

impl Model for Decoder {
    ghost use Rattle.htext.specs.Decoding.{DecoderState};

    ghost Value = { DecoderState };

    ghost view = { λ d. record {
      how = record { bom = d.reading.bom; bad = d.reading.bad_bytes; limit = d.reading.limit };
      read = d.reading.read;
      after_return = d.reading.after_return;
      undecoded = d.undecoded.items;
      refused = d.refused;
    } };
}

impl Decoder {
    /// A decoder that accepts at most `limit` bytes.
    pub fn new(alloc: Global, bom: Bom, bad_bytes: BadBytes, limit: u64) -> Decoder
        requires { limit ≤ MAX_INPUT }
        ensures fed { HasFed result [] }
        ensures nothing { settled result.how [] ≡ [] }
        ensures how { result.how ≡ record { bom = bom; bad = bad_bytes; limit = limit } }
    {
        Decoder {
            reading: Progress {
                bom,
                bad_bytes,
                limit,
                read: 0,
                after_return: false,
            },
            undecoded: Vec::new(alloc),
            refused: None,
        }
    }

    /// Reads the next piece of the input, and hands its text to the sink. The input is refused as soon as the refusal no
    /// longer depends on what follows: at a byte that no character can have there, unless bad bytes are replaced, and at the
    /// end of the first character or bad part past the limit. After an error, each call returns that error.
    pub fn feed<S: CharSink>(&mut self, bytes: &[u8], sink: &mut S) -> Result<(), Refusal>
        ensures feeds { (fed : List ℕ) → HasFed self.old fed
            → Feeds S.gives self.old.how fed bytes.now sink.old result sink.new }
        ensures fed { OnOk result ((fed : List ℕ) → HasFed self.old fed → HasFed self.new (fed ++ bytes.now)) }

        // A refusal stays.
        ensures refused { IfErr result (λ refusal. self.new.refused ≡ Some refusal) }
        ensures again { (refusal : Refused) → self.old.refused ≡ Some refusal
            → (result ≡ Err refusal) × (self.new ≡ self.old) × (sink.new ≡ sink.old) }
        ensures how { self.new.how ≡ self.old.how }
    {
        if let Some(refusal) = self.refused {
            return Err(refusal);
        }
        let answer = self.read_on(bytes, sink);
        self.refused = answer.err();
        answer
    }

    /// The same for a decoder that has refused nothing yet; a refusal is for the caller to keep. A character that was cut by the end of
    /// the last piece is completed byte by byte; the rest is read without a copy.
    fn read_on<S: CharSink>(&mut self, bytes: &[u8], sink: &mut S) -> Result<(), Refusal>
        ensures { ReadsOn S.gives self.old bytes.now sink.old result self.new sink.new }
    {
        for (index, byte) in bytes.iter().enumerate() {
            if self.undecoded.is_empty() {
                return self.read_piece(&bytes[index..], sink);
            }
            self.read_byte(*byte, sink)?;
        }
        Ok(())
    }

    fn read_byte<S: CharSink>(&mut self, byte: u8, sink: &mut S) -> Result<(), Refusal>
        ensures { ReadsOn S.gives self.old (byte ∷ []) sink.old result self.new sink.new }
    {
        self.undecoded.push(byte)?;
        let count = self.reading.advance(&self.undecoded, sink)?;
        remove_front(&mut self.undecoded, count);
        Ok(())
    }

    fn read_piece<S: CharSink>(&mut self, bytes: &[u8], sink: &mut S) -> Result<(), Refusal>
        requires { self.old.undecoded ≡ [] }
        ensures { ReadsOn S.gives self.old bytes.now sink.old result self.new sink.new }
    {
        let count = self.reading.advance(bytes, sink)?;
        self.undecoded.extend_from_slice(&bytes[count..])?;
        Ok(())
    }

    /// The number of bytes that have been read.
    pub fn read(&self) -> u64
        ensures { result ≡ self.now.read }
    {
        self.reading.read
    }

    /// Ends the input. It must not end inside a character, unless bad bytes are replaced. No byte is held after it, so a second call does
    /// nothing. An error leaves what was read and what is held as it was, and each later call returns the same error.
    pub fn finish<S: CharSink>(&mut self, sink: &mut S) -> Result<(), Refusal>
        ensures ends { (fed : List ℕ) → HasFed self.old fed → EndsDecoding S.gives self.old.how fed sink.old result sink.new }
        ensures whole { OnOk result ((fed : List ℕ) → HasFed self.old fed → self.new.read ≡ length fed) }
        ensures nothing_held { OnOk result ((self.new.undecoded ≡ []) × (self.new.refused ≡ None)) }
        ensures unchanged { self.old.undecoded ≡ [] → self.old.refused ≡ None
            → (result ≡ Ok tt) × (self.new ≡ self.old) × (sink.new ≡ sink.old) }
        ensures how { self.new.how ≡ self.old.how }

        // A refusal stays.
        ensures refused { IfErr result (λ refusal. self.new ≡ record self.old { refused = Some refusal }) }
        ensures again { (refusal : Refused) → self.old.refused ≡ Some refusal
            → (result ≡ Err refusal) × (self.new ≡ self.old) × (sink.new ≡ sink.old) }
    {
        if let Some(refusal) = self.refused {
            return Err(refusal);
        }
        if self.undecoded.is_empty() {
            return Ok(());
        }
        if let Err(refusal) = self.reading.end(&self.undecoded, sink) {
            self.refused = Some(refusal);
            return Err(refusal);
        }
        self.undecoded.clear();
        Ok(())
    }
}

fn remove_front(bytes: &mut Vec<u8>, count: usize)
    requires { count ≤ vec_len bytes.old }
    ensures { bytes.new.items ≡ drop count bytes.old.items }
{
    bytes.rotate_left(count);
    bytes.truncate(bytes.len() - count);
}
