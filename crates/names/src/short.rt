//! Texts that lie in the values that have them.

ghost use Rattle.std.specs.Prelude.{◌≡◌, ◌++◌, ◌≤◌, ◌+◌, ◌↔◌, length, nat_le, IsSome, IfSome, if◌then◌else◌};

use std::fmt;
use std::marker::Model;

/// A text of at most `CAP` bytes, without memory of its own.
#[derive(Drop)]
pub struct ShortText<const CAP: usize> {
    len: u8,
    bytes: [u8; CAP],
}

impl<const CAP: usize> Model for ShortText<CAP> {
    ghost use Rattle.std.specs.Prelude.{ℕ, List, ◌≤◌, ◌≡◌, length, take, IsUtf8};

    ghost Value = { List ℕ };

    ghost view = { λ t. take t.len t.bytes };

    ghost invariant = { λ t. (CAP ≤ 255) × (t.len ≤ CAP) × (length t.bytes ≡ CAP) × ∥ IsUtf8 (take t.len t.bytes) ∥₁ };
}

impl<const CAP: usize> ShortText<CAP> {
    /// A text, if it is short.
    #[inline(always)]
    pub fn of(text: &str) -> Option<Self>
        requires { CAP ≤ 255 }
        ensures short { IsSome result ↔ (length text.now ≤ CAP) }
        ensures same { IfSome result (λ short. short ≡ text.now) }
    {
        let mut short = ShortText {
            len: 0,
            bytes: [0; CAP],
        };
        short.push_str(text).then_some(short)
    }

    /// The text.
    #[inline(always)]
    pub fn as_str(&self) -> &str
        ensures { result.now ≡ self.now }
    {
        unsafe { str::from_utf8_unchecked(&self.bytes[..self.len as usize]) }
    }

    /// Adds a text at the end, and says whether there was room for it.
    #[inline(always)]
    pub fn push_str(&mut self, more: &str) -> bool
        ensures room { result ≡ nat_le (length self.old + length more.now) CAP }
        ensures text { self.new ≡ (if result then self.old ++ more.now else self.old) }
    {
        let len = self.len as usize;
        if more.len() > CAP - len {
            return false;
        }
        let end = len + more.len();
        let bytes = &mut self.bytes[..];
        bytes[len..end].copy_from_slice(more.as_bytes());
        self.len = end as u8;
        true
    }
}

impl<const CAP: usize> fmt::Debug for ShortText<CAP> {
    fn fmt<W: fmt::Write>(&self, f: &mut fmt::Formatter<W>) -> fmt::Result {
        fmt::Debug::fmt(self.as_str(), f)
    }
}
