//! The table of named character references: read from its flat form, and asked for the longest key that a text begins with.

ghost use Rattle.std.specs.Prelude.{◌≡◌, ◌↔◌, [], ◌∷◌, length, Some, None, IfOk, IfErr, IsTrue, Contains, MatchOption};
ghost use Rattle.std.specs.List.{All};
ghost use Rattle.charref.specs.Reference.{Entry, Entities, IsTable, HasCore, core, longest};
ghost use Rattle.charref.specs.Table.{IsIndex, IsOpenKey};
ghost use Rattle.charref.specs.Flat.{flat_of, IsReadable, IsRefusedFlat};
ghost use Rattle.charref.specs.Pieces.{characters_of};

use crate::flat::Flat;
use crate::open_keys::OpenKeys;
use crate::reference::Characters;
use crate::search::search_for;
use crate::slots::Slots;
use crate::starts::starts_of;
use names::Refusal;
use std::alloc::Global;
use std::marker::Model;
use std::simd::prelude::*;

/// A table of named character references, sorted by the bytes of the keys, so that the keys with a common beginning are a
/// range. A look-up narrows this range byte by byte until no key goes on with what was read: all keys begin with the `&`, an
/// index has the ranges of the bytes after it, and each further byte takes two binary searches. A key that stands whole, with
/// its `;`, is found by its hash, and one without a `;` by its first two letters. A look-up allocates nothing.
pub struct Table {
    pub(crate) flat: Flat,
    /// By the code of a byte after the `&`, the first entry whose key has at least this code there.
    pub(crate) starts: Vec<usize>,
    pub(crate) slots: Slots,
    pub(crate) open_keys: OpenKeys,
}

// Written out: a derived drop is read anew in the proof of each function that may drop a table.
impl Drop for Table {
    fn drop(self) {
        let Table {
            flat,
            starts,
            slots,
            open_keys,
        } = self;
        drop(flat);
        drop(starts);
        drop(slots);
        drop(open_keys);
    }
}

impl Model for Table {
    ghost Value = { Entities };

    ghost view = { λ table. table.flat };

    ghost invariant = { λ table. IsReadable table.flat × IsIndex table.flat table.starts.items 130
        × All (IsOpenKey table.flat) table.open_keys.read.items };
}

/// A key that a text begins with: its length in bytes, including the `&`, and the characters that it stands for.
#[derive(Clone, Copy)]
pub struct Match {
    pub length: usize,
    pub characters: Characters,
}

/// A text of more bytes than this, or with more `&` than that, is looked up in a table with all its indices: for fewer look-ups they take
/// longer to make than they save.
const SHORT_TEXT: usize = 65_536;

const FEW_REFERENCES: usize = 256;

/// How many `&` there are in a text, by 16 bytes at once. It tells what is faster, and nothing else.
fn count_references(text: &[u8]) -> usize {
    let mut count = 0usize;
    for part in 0..text.len() / 16 {
        let found = u8x16::from_slice(&text[part * 16..])
            .simd_eq(u8x16::splat(b'&'))
            .to_bitmask();
        count = count.wrapping_add(found.count_ones() as usize);
    }
    count
}

/// The flat form of [`Table::core`].
const CORE: &[u8] =
    b"\x01&amp;\x01&\0\0\0&gt;\x01>\0\0\0&lt;\x01<\0\0\0&nbsp;\x01\xA0\0\0\0&quot;\x01\"\0\0\0";

impl Table {
    /// The table of the five entries that the serializer relies on: `&amp;`, `&gt;`, `&lt;`, `&nbsp;` and `&quot;`.
    #[tactic(auto, using(crate::proofs::Forms::reads_table, crate::proofs::Core::core_readable))]
    pub fn core(alloc: Global) -> Result<Table, Refusal>
        ensures ok { IfOk result (λ table. table ≡ core) }
        ensures err { IfErr result (λ e. e ≡ Refusal.Memory) }
    {
        Table::of_flat(alloc, Vec::from_slice(alloc, CORE)?, false)
    }

    /// Reads a table from its flat form ([`Table::as_flat`]), without an allocation for each entry. The error is `Memory`, also
    /// for 4 GB or more, or `BadTable` with the cause `Shape` if these bytes are not what `as_flat` gives of any table.
    pub fn from_flat(alloc: Global, bytes: &[u8]) -> Result<Table, Refusal>
        ensures readable { IfOk result (λ table. IsReadable table) }
        ensures ok { IfOk result (λ table. flat_of table ≡ bytes.now) }
        ensures err { IfErr result (λ e. IsRefusedFlat bytes.now e) }
    {
        Table::of_flat(alloc, Vec::from_slice(alloc, bytes)?, true)
    }

    /// The same, for one text: it is read in less time where the text is short and has few `&`.
    pub fn for_text(alloc: Global, bytes: &[u8], text: &[u8]) -> Result<Table, Refusal>
        ensures readable { IfOk result (λ table. IsReadable table) }
        ensures ok { IfOk result (λ table. flat_of table ≡ bytes.now) }
        ensures err { IfErr result (λ e. IsRefusedFlat bytes.now e) }
    {
        let indexed = text.len() > SHORT_TEXT || count_references(text) > FEW_REFERENCES;
        Table::of_flat(alloc, Vec::from_slice(alloc, bytes)?, indexed)
    }

    /// The same, of bytes that it owns. A table that is not `indexed` looks up every key byte by byte.
    pub(crate) fn of_flat(alloc: Global, bytes: Vec<u8>, indexed: bool) -> Result<Table, Refusal>
        ensures readable { IfOk result (λ table. IsReadable table) }
        ensures ok { IfOk result (λ table. flat_of table ≡ bytes.items) }
        ensures err { IfErr result (λ e. IsRefusedFlat bytes.items e) }
    {
        let flat = Flat::read(alloc, bytes)?;
        let starts = starts_of(alloc, &flat)?;
        let slots = Slots::new(alloc, &flat, indexed)?;
        let open_keys = OpenKeys::new(alloc, &flat, indexed)?;
        Ok(Table {
            flat,
            starts,
            slots,
            open_keys,
        })
    }

    /// The flat form of the table: the byte 1, and each entry, in the order of the keys' bytes, as its key, how many characters
    /// it stands for, and the number of each in four bytes, the lowest first.
    pub fn as_flat(&self) -> &[u8]
        ensures readable { IsReadable self.now }
        ensures flat { result.now ≡ flat_of self.now }
    {
        self.flat.text()
    }

    /// The longest key that this text, which starts at the `&`, begins with.
    pub fn longest(&self, text: &[u8]) -> Option<Match>
        ensures table { IsTable self.now }
        ensures found { MatchOption result (longest self.now text.now ≡ None)
            (λ found. (e : Entry) × (longest self.now text.now ≡ Some e) × (found.length ≡ length e.key) × (characters_of found.characters ≡ e.stands_for)) }
    {
        let best = search_for(self, text)?;
        Some(Match {
            length: self.flat.key(best).len(),
            characters: self.flat.characters(best),
        })
    }

    /// Whether the key stands for this character alone.
    fn has(&self, key: &[u8], character: char) -> bool
        ensures table { IsTable self.now }
        ensures has { IsTrue result ↔ Contains self.now (record { key = key.now; stands_for = character ∷ [] }) }
    {
        match self.longest(key) {
            Some(found) => found.length == key.len() && found.characters.is_only(character),
            None => false,
        }
    }

    /// Whether the table has the five entries of [`Table::core`].
    pub fn has_core(&self) -> bool
        ensures table { IsTable self.now }
        ensures core { IsTrue result ↔ HasCore self.now }
    {
        self.has(b"&amp;", '&')
            && self.has(b"&gt;", '>')
            && self.has(b"&lt;", '<')
            && self.has(b"&nbsp;", '\u{A0}')
            && self.has(b"&quot;", '"')
    }
}
