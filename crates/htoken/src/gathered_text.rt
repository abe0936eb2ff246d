//! A text that is gathered in room which is kept.

ghost use Rattle.std.specs.Prelude.{◌≡◌, ◌++◌, ◌≤◌, ◌+◌, [], ◌∷◌, length, take, OnOk, IsUtf8, encode_utf8_all};
ghost use Rattle.std.specs.Char.{encode_utf8};
ghost use Rattle.htoken.specs.Vocabulary.{characters_of, IsCut};

use charref::Characters;
use std::alloc::{AllocError, Global};
use std::marker::Model;
use std::simd::prelude::*;

/// How many bytes are copied at once.
const PIECE: usize = 16;

/// A text at the front of bytes, the rest of which is room for more.
#[derive(Drop)]
pub(crate) struct GatheredText {
    bytes: Vec<u8>,
    len: usize,
}

impl Model for GatheredText {
    ghost use Rattle.std.specs.Prelude.{ℕ, List, ◌≤◌, length, take, IsUtf8};

    ghost Value = { List ℕ };

    ghost view = { λ t. take t.len t.bytes.items };

    ghost invariant = { λ t. (t.len ≤ length t.bytes.items) × ∥ IsUtf8 (take t.len t.bytes.items) ∥₁ };
}

/// Sees to it that so many bytes more are after the first `len`.
#[inline(always)]
fn make_room(bytes: &mut Vec<u8>, len: usize, more: usize) -> Result<(), AllocError>
    requires { len ≤ length bytes.old.items }
    ensures room { OnOk result (len + more ≤ length bytes.new.items) }
    ensures within { len ≤ length bytes.new.items }
    ensures kept { take len bytes.new.items ≡ take len bytes.old.items }
{
    if bytes.len() - len < more {
        return grow(bytes, more);
    }
    Ok(())
}

/// Adds so many bytes or more, as many as its memory then has.
#[inline(never)]
fn grow(bytes: &mut Vec<u8>, more: usize) -> Result<(), AllocError>
    ensures room { OnOk result (length bytes.old.items + more ≤ length bytes.new.items) }
    ensures within { length bytes.old.items ≤ length bytes.new.items }
    ensures kept { take (length bytes.old.items) bytes.new.items ≡ bytes.old.items }
{
    bytes.reserve(more)?;
    bytes.resize(bytes.capacity(), 0)
}

impl GatheredText {
    /// An empty text.
    pub(crate) fn new(alloc: Global) -> GatheredText {
        GatheredText {
            bytes: Vec::new(alloc),
            len: 0,
        }
    }

    /// Makes it empty; the room stays.
    #[inline(always)]
    pub(crate) fn clear(&mut self)
        ensures { self.new ≡ [] }
    {
        self.len = 0;
    }

    /// The text.
    #[inline(always)]
    pub(crate) fn as_str(&self) -> &str
        ensures { result.now ≡ self.now }
    {
        unsafe { str::from_utf8_unchecked(&self.bytes[..self.len]) }
    }

    /// Adds a character.
    #[inline(always)]
    pub(crate) fn push(&mut self, ch: char) -> Result<(), AllocError>
        ensures text { OnOk result (self.new ≡ self.old ++ encode_utf8 ch) }
        ensures utf8 { IsUtf8 self.new }
    {
        let code = ch as u32;
        if code < 0x80 {
            return self.put(&[code as u8], 1);
        }
        if code < 0x800 {
            return self.put(&[(0xC0 + code / 64) as u8, (0x80 + code % 64) as u8], 2);
        }
        let last = (0x80 + code % 64) as u8;
        let third = (0x80 + code / 64 % 64) as u8;
        if code < 0x1_0000 {
            return self.put(&[(0xE0 + code / 4096) as u8, third, last], 3);
        }
        let second = (0x80 + code / 4096 % 64) as u8;
        self.put(&[(0xF0 + code / 262144) as u8, second, third, last], 4)
    }

    /// Adds the characters of a reference.
    #[inline(always)]
    pub(crate) fn push_characters(&mut self, characters: Characters) -> Result<(), AllocError>
        ensures text { OnOk result (self.new ≡ self.old ++ encode_utf8_all (characters_of characters)) }
        ensures utf8 { IsUtf8 self.new }
    {
        match characters {
            Characters::One(only) => self.push(only),
            Characters::Two(first, second) => self.push_two(first, second),
        }
    }

    /// Adds two characters, as few references have.
    #[inline(never)]
    fn push_two(&mut self, first: char, second: char) -> Result<(), AllocError>
        ensures text { OnOk result (self.new ≡ self.old ++ encode_utf8_all (first ∷ second ∷ [])) }
        ensures utf8 { IsUtf8 self.new }
    {
        self.push(first)?;
        self.push(second)
    }

    /// Adds the front of a run.
    #[inline(always)]
    pub(crate) fn push_front(&mut self, run: &str, count: usize) -> Result<(), AllocError>
        requires { IsCut count run.now }
        ensures text { OnOk result (self.new ≡ self.old ++ take count run.now) }
        ensures utf8 { IsUtf8 self.new }
    {
        let bytes = run.as_bytes();
        if count <= PIECE && bytes.len() >= PIECE {
            return self.put(&u8x16::from_slice(bytes).to_array(), count);
        }
        self.put(&bytes[..count], count)
    }

    /// Writes bytes after the text, and adds the first of them to it. The others are room, so that bytes of a fixed number can be written at once.
    #[inline(always)]
    fn put(&mut self, bytes: &[u8], count: usize) -> Result<(), AllocError>
        requires few { count ≤ length bytes.now }
        requires utf8 { IsUtf8 (take count bytes.now) }
        ensures text { OnOk result (self.new ≡ self.old ++ take count bytes.now) }
        ensures utf8 { IsUtf8 self.new }
    {
        let len = self.len;
        make_room(&mut self.bytes, len, bytes.len())?;
        let room = &mut self.bytes[..];
        room[len..len + bytes.len()].copy_from_slice(bytes);
        self.len = len + count;
        Ok(())
    }
}
