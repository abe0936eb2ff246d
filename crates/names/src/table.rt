//! Names as numbers.

ghost use Rattle.std.specs.Prelude.{◌≡◌, ◌≢◌, ℕ, ◌<◌, List, ◌++◌, IfOk, IfSome, OnErr, bytes_eq, option_map, length, map, slice_get, Some, true};
ghost use Rattle.std.specs.List.{position};
ghost use Rattle.names.specs.Names.{Texts, text_of, Grows, interned, AreNames};
ghost use Rattle.names.specs.Tags.{known, tags, type_name, tag_of, number_of, tag_named, tag_text};
ghost use Rattle.names.specs.declared.tag.Tag.{Tag as KnownTag};

use crate::keys::Keys;
use crate::known::{KNOWN, known_number, known_text};
use crate::tag::Tag;
use crate::tags::TAGS;
use indexmap::IndexMap;
use std::alloc::{AllocError, Global};
use std::marker::Model;

/// The number of a name, in four bytes. Known names have the same number in every table.
#[derive(Clone, Copy, Debug, PartialEq, Eq)]
pub struct NameId {
    index: u32,
}

impl Model for NameId {
    ghost use Rattle.std.specs.Prelude.{ℕ};

    ghost Value = { ℕ };

    ghost view = { λ a. a.index };

    ghost inverse = { λ n. record { index = n } };
}

impl NameId {
    /// The number itself: the index of the name in the table, from 0.
    pub fn index(self) -> usize
        ensures { result ≡ self }
    {
        self.index as usize
    }

    /// The number of the attribute name `type`, the same in every table.
    pub fn type_attribute() -> NameId
        ensures number { result ≡ length tags }
        ensures text { (names : Texts) → AreNames names → slice_get names result ≡ Some type_name }
        ensures tag { tag_of result ≡ Tag.Other }
    {
        let index = TAGS.len() as u32;
        NameId { index }
    }

    /// The known name with this number, or `Tag::Other`.
    pub fn tag(self) -> Tag
        ensures { result ≡ tag_of self }
    {
        TAGS.get(self.index()).copied().unwrap_or(Tag::Other)
    }
}

impl Tag {
    /// The number of the known name, the same in every table.
    pub fn number(self) -> NameId
        requires known { self ≢ Tag.Other }
        ensures number { result ≡ number_of self }
        ensures tag { tag_of result ≡ self }
    {
        NameId { index: self as u32 }
    }

    /// The known name of a text, or `Tag::Other`.
    pub fn named(text: &str) -> Tag
        ensures { result ≡ tag_named text.now }
    {
        match known_number(text) {
            Some(index) => NameId { index }.tag(),
            None => Tag::Other,
        }
    }
}

/// How many slots there are for the numbers that were found last.
const SLOTS: usize = 256;

/// The slot of a text: by its ends and its length, so that the few names of which most pages consist seldom share one.
#[inline(always)]
fn slot_of(text: &str) -> usize
    ensures { result < SLOTS }
{
    let bytes = text.as_bytes();
    match (bytes.first(), bytes.last()) {
        (Some(first), Some(last)) => {
            (usize::from(*first) * 5 + usize::from(*last) * 11 + bytes.len() % SLOTS) % SLOTS
        }
        _ => 0,
    }
}

/// Whether these are the same bytes, of which there are at most three.
#[inline(always)]
fn few_are_same(a: &[u8], b: &[u8]) -> bool
    ensures { result ≡ true → a.now ≡ b.now }
{
    match (a, b) {
        ([], []) => true,
        ([a], [b]) => a == b,
        ([a, c], [b, d]) => a == b && c == d,
        ([a, c, e], [b, d, f]) => a == b && c == d && e == f,
        _ => false,
    }
}

/// A name with so many bytes is no short one.
const LONG: usize = 8;

/// Whether two names are the same. Most are short: four bytes are compared at once, in less time than a call takes.
#[inline(always)]
fn are_same(a: &str, b: &str) -> bool
    ensures { result ≡ true → a.now ≡ b.now }
{
    if a.len() >= LONG {
        return a == b;
    }
    match (a.as_bytes(), b.as_bytes()) {
        ([a, c, e, g, more @ ..], [b, d, f, h, others @ ..]) => {
            a == b && c == d && e == f && g == h && few_are_same(more, others)
        }
        (a, b) => few_are_same(a, b),
    }
}

/// A table of names: texts in the order in which they were added, the known names first.
pub struct Names {
    /// The names that are not known ones: a set, but the type says less than `IndexSet`, and a library that mentions a table carries all of it.
    others: IndexMap<String, (), Keys>,
    /// The keys under which they are hashed.
    hash_keys: Keys,
    /// In each slot the number that was found last for a text of it; such a text is found again without a hash.
    recent: [u32; SLOTS],
}

// Written out: a derived drop is read anew in the proof of each function that may drop a table.
impl Drop for Names {
    fn drop(self) {
        let Names {
            others,
            hash_keys: _,
            recent: _,
        } = self;
        drop(others);
    }
}

impl Model for Names {
    ghost use Rattle.std.specs.Prelude.{◌≡◌, ℕ, List, ◌++◌, map};
    ghost use Rattle.std.specs.String.{string_bytes};
    ghost use Rattle.indexmap.specs.IndexMap.{hasher_of, keys};
    ghost use Rattle.names.specs.Table.{AreOthers};
    ghost use Rattle.names.specs.Tags.{known};

    ghost Value = { List (List ℕ) };

    ghost view = { λ n. known ++ map string_bytes (keys n.others) };

    ghost invariant = { λ n. AreOthers (keys n.others) × (hasher_of n.others ≡ n.hash_keys) };
}

impl Names {
    /// A table of the known names. They are the same for every table, so nothing is allocated for them.
    pub fn new(alloc: Global, keys: Keys) -> Names
        ensures known { result ≡ known }
        ensures names { AreNames result }
    {
        Names {
            others: IndexMap::with_hasher(alloc, keys),
            hash_keys: keys,
            recent: [0; SLOTS],
        }
    }

    /// Its texts are distinct, the known ones first: always so, to be said in a `prove!`.
    pub fn are_names(&self) -> bool
        ensures holds { result ≡ true }
        ensures names { AreNames self.now }
    {
        let _others = &self.others;
        true
    }

    /// The number of a text. A new text is added to the table, which has room for 2³² texts; beyond that it is out of memory.
    #[inline(always)]
    pub fn intern(&mut self, alloc: Global, text: &str) -> Result<NameId, AllocError>
        ensures number { IfOk result (λ id. slice_get self.new id ≡ Some text.now) }
        ensures tag { IfOk result (λ id. tag_of id ≡ tag_named text.now) }
        ensures grows { Grows self.old self.new }
        ensures added { IfOk result (λ id. self.new ≡ interned text.now id self.old) }
        ensures names { AreNames self.new }
        ensures unchanged { OnErr result (self.new ≡ self.old) }
    {
        if let Some(id) = self.recent(text) {
            return Ok(id);
        }
        let id = self.number_of(alloc, text)?;
        self.recent[slot_of(text)] = id.index;
        Ok(id)
    }

    /// The number of a text, if the table has it. Takes no memory.
    pub fn find(&self, text: &str) -> Option<NameId>
        ensures place { result ≡ position (bytes_eq text.now) self.now }
        ensures names { AreNames self.now }
    {
        prove!(self.are_names());
        let others = &self.others;
        if let Some(index) = known_number(text) {
            return Some(NameId { index });
        }
        let index = (KNOWN + others.get_index_of(text)?) as u32;
        Some(NameId { index })
    }

    /// The number that its slot has for a text, if it is the text's.
    #[inline(always)]
    fn recent(&self, text: &str) -> Option<NameId>
        ensures found { IfSome result (λ id. slice_get self.now id ≡ Some text.now) }
        ensures names { AreNames self.now }
    {
        let index = self.recent[slot_of(text)];
        let found = self.nth(index as usize)?;
        are_same(found, text).then_some(NameId { index })
    }

    /// The number of a text, which is added if it is new.
    fn number_of(&mut self, alloc: Global, text: &str) -> Result<NameId, AllocError>
        ensures number { IfOk result (λ id. slice_get self.new id ≡ Some text.now) }
        ensures added { IfOk result (λ id. self.new ≡ interned text.now id self.old) }
        ensures unchanged { OnErr result (self.new ≡ self.old) }
    {
        if let Some(id) = self.find(text) {
            return Ok(id);
        }
        let Ok(index) = u32::try_from(KNOWN + self.others.len()) else {
            return Err(AllocError);
        };
        self.others.insert(String::from_str(alloc, text)?, ())?;
        Ok(NameId { index })
    }

    /// The text of the name with this number, if the table has so many: 0 is the first.
    pub fn nth(&self, index: usize) -> Option<&str>
        ensures text { option_map (λ t. t.now) result ≡ slice_get self.now index }
        ensures names { AreNames self.now }
    {
        prove!(self.are_names());
        let others = &self.others;
        if index < KNOWN {
            return Some(known_text(index));
        }
        let (text, _) = others.get_index(index - KNOWN)?;
        Some(text.as_str())
    }

    /// The text of a name, if the number is of this table.
    pub fn get(&self, id: NameId) -> Option<&str>
        ensures text { option_map (λ t. t.now) result ≡ slice_get self.now id }
        ensures names { AreNames self.now }
    {
        self.nth(id.index())
    }

    /// The text of a name, or the empty text if the number is not of this table.
    pub fn text(&self, id: NameId) -> &str
        ensures text { result.now ≡ text_of self.now id }
        ensures names { AreNames self.now }
    {
        self.get(id).unwrap_or("")
    }
}

/// In every table the known name of a number is the one of its text.
pub fn known_by_text()
    ensures { (names : Texts) (id : ℕ) (text : List ℕ) → AreNames names → slice_get names id ≡ Some text → tag_of id ≡ tag_named text }
{}

/// A known name and its number determine each other, and in every table the number has the name's text.
pub fn one_number()
    ensures tag { (t : KnownTag) → t ≢ Tag.Other → tag_of (number_of t) ≡ t }
    ensures number { (n : ℕ) → tag_of n ≢ Tag.Other → number_of (tag_of n) ≡ n }
    ensures text { (names : Texts) (t : KnownTag) → AreNames names → t ≢ Tag.Other → slice_get names (number_of t) ≡ Some (tag_text t) }
{}
