//! A walk through a tag.

ghost use Rattle.std.specs.Prelude.{◌≡◌, ◌∷◌, ℕ, List, [], length, true, false, OnOk, string_bytes};
ghost use Rattle.htag.specs.Vocabulary.{Character, Texts, all, begins, is_letter, name_bytes, Entities, Start, End, IsBegun, NoValue, IsInTag, IsTagName, placed};

use crate::kind::TagKind;
use crate::piece::ValueWalk;
use crate::push::kept;
use crate::seen::Seen;
use crate::tag_state::TagState;
use names::Attr;
use std::alloc::{AllocError, Global};
use std::mem;

/// Reads tags after their mark, one after another, a character at a time. What it keeps of a tag stays until the next one begins.
#[derive(Drop)]
pub struct TagWalk<'t> {
    pub(crate) alloc: Global,
    pub(crate) kind: TagKind,
    pub(crate) phase: TagState,
    pub(crate) name: String,
    /// The attribute that is being read: its name, the first byte of it, and its value.
    pub(crate) attribute: String,
    pub(crate) at: u64,
    pub(crate) value: ValueWalk<'t>,
    /// The first attribute of each name.
    pub(crate) attrs: Vec<Attr>,
    pub(crate) seen: Seen,
    /// Whether there was any attribute.
    pub(crate) any: bool,
    pub(crate) closing: bool,
}

impl<'t> TagWalk<'t> {
    /// A walk that has read nothing: it is that of a start tag without a name and without attributes.
    pub fn new(alloc: Global) -> TagWalk<'t>
        ensures begun { IsBegun Start result }
        ensures name { string_bytes result.name ≡ [] }
        ensures attribute { string_bytes result.attribute ≡ [] }
        ensures value { NoValue result.value }
        ensures closing { result.closing ≡ false }
    {
        TagWalk {
            alloc,
            kind: TagKind::Start,
            phase: TagState::TagName,
            name: String::new(alloc),
            attribute: String::new(alloc),
            at: 0,
            value: ValueWalk::new(alloc),
            attrs: Vec::new(alloc),
            seen: Seen::new(alloc),
            any: false,
            closing: false,
        }
    }

    /// Begins a tag with the first letter of its name.
    #[inline(always)]
    pub fn begin(&mut self, kind: TagKind, ch: char) -> Result<(), AllocError>
        ensures kind { OnOk result (self.new.kind ≡ kind) }
        ensures begun { OnOk result ((table : Entities) (names : Texts) (p : Character) → p.ch ≡ ch → is_letter ch ≡ true
            → IsInTag table names self.new (p ∷ []) [] []) }
    {
        self.name.clear();
        self.name.push(kept(ch).to_ascii_lowercase())?;
        self.begin_parts(kind);
        Ok(())
    }

    /// Begins a start tag with this front of its name, the characters of which stand for themselves.
    #[inline(always)]
    pub fn begin_start(&mut self, name: &str) -> Result<(), AllocError>
        ensures kind { OnOk result (self.new.kind ≡ Start) }
        ensures begun { OnOk result ((table : Entities) (names : Texts) (at : ℕ) → IsTagName name.now (length name.now)
            → IsInTag table names self.new (placed at name.now) [] []) }
    {
        self.name.clear();
        self.name.push_str(name)?;
        self.begin_parts(TagKind::Start);
        Ok(())
    }

    /// Begins an end tag that has the name of the last tag, and whose name was read already.
    pub fn begin_end(&mut self)
        ensures kind { self.new.kind ≡ End }
        ensures name { self.new.name ≡ self.old.name }
        ensures begun { (table : Entities) (names : Texts) (letters : List Character) → begins is_letter letters ≡ true → all is_letter letters ≡ true
            → string_bytes self.old.name ≡ name_bytes letters → IsInTag table names self.new letters [] [] }
    {
        self.begin_parts(TagKind::End);
    }

    pub fn kind(&self) -> TagKind
        ensures { result ≡ self.now.kind }
    {
        self.kind
    }

    /// The name of the tag that was read last, lowered.
    pub fn name(&self) -> &str
        ensures { result.now ≡ string_bytes self.now.name }
    {
        &self.name
    }

    /// Whether it ended in `/>`: the self-closing flag (`#self-closing-flag`).
    pub fn is_closing(&self) -> bool
        ensures { result ≡ self.now.closing }
    {
        self.closing
    }

    /// Whether it had any attribute.
    pub fn has_attributes(&self) -> bool
        ensures { result ≡ self.now.any }
    {
        self.any
    }

    /// The first attribute of each name, in order. They are gone from the walk then.
    #[inline(always)]
    pub fn take_attributes(&mut self) -> Vec<Attr>
        ensures attributes { result.items ≡ self.old.attrs.items }
        ensures gone { self.new.attrs.items ≡ [] }
        ensures others { self.new ≡ record self.old { attrs = self.new.attrs } }
        ensures name { self.new.name ≡ self.old.name }
    {
        mem::replace(&mut self.attrs, Vec::new(self.alloc))
    }

    /// Takes back the memory of the attributes for those of the next tag.
    #[inline(always)]
    pub fn give_back(&mut self, attrs: Vec<Attr>)
        ensures others { self.new ≡ record self.old { attrs = attrs } }
        ensures name { self.new.name ≡ self.old.name }
    {
        self.attrs = attrs;
    }

    #[inline(always)]
    fn begin_parts(&mut self, kind: TagKind)
        ensures begun { IsBegun kind self.new }
        ensures name { self.new.name ≡ self.old.name }
    {
        self.kind = kind;
        self.phase = TagState::TagName;
        self.any = false;
        self.attrs.clear();
        self.seen.begin();
    }
}
