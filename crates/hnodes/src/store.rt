//! The store of a tree: the bytes of its texts, and the attributes of its elements.

ghost use Rattle.std.specs.Prelude.{◌≡◌, ◌≤◌, ◌+◌, ◌++◌, length, map, take, IfOk, IfSome, IsTrue, OnErr, OnOk};
ghost use Rattle.hnodes.specs.Vocabulary.{attribute_of, attributes_in_run, run_in, Adds, AreStored, IsGrown, IsLonger, IsText};

use crate::attributes::FEW_ATTRIBUTES;
use crate::attrs_view::Attrs;
use names::{Attr, NameId};
use std::alloc::{AllocError, Global};
use std::marker::Model;

/// Where a part of the store begins, and how long it is.
#[derive(Clone, Copy)]
pub(crate) struct Run {
    start: u32,
    len: u32,
}

impl Run {
    pub(crate) fn empty() -> Run
        ensures { result ≡ record { start = 0; len = 0 } }
    {
        Run { start: 0, len: 0 }
    }

    #[inline(always)]
    fn of(start: usize, len: usize) -> Option<Run>
        ensures { IfSome result (λ run. run ≡ record { start = start; len = len }) }
    {
        Some(Run {
            start: u32::try_from(start).ok()?,
            len: u32::try_from(len).ok()?,
        })
    }

    #[inline(always)]
    fn end(self) -> usize
        ensures { result ≡ self.start + self.len }
    {
        self.start as usize + self.len as usize
    }
}

#[derive(Clone, Copy)]
pub(crate) struct StoredAttr {
    pub(crate) name: NameId,
    pub(crate) value: Run,
}

const _: () = prove!(std::mem::size_of::<StoredAttr>() == 12);

/// So many bytes are filled beyond the texts at a time.
const SPARE: usize = 1024;

/// The bytes of texts, one after another. They lie in a filled vector, into which bytes are copied in fewer steps than to its end.
#[derive(Drop)]
pub(crate) struct Texts {
    filled: Vec<u8>,
    count: usize,
}

impl Model for Texts {
    ghost use Rattle.std.specs.Prelude.{ℕ, List, ◌≤◌, length, take};

    ghost Value = { List ℕ };

    ghost view = { λ t. take t.count t.filled.items };

    ghost invariant = { λ t. t.count ≤ length t.filled.items };
}

impl Texts {
    #[inline(always)]
    fn len(&self) -> usize
        ensures { result ≡ length self.now }
    {
        self.count
    }

    #[inline(always)]
    pub(crate) fn get(&self, run: Run) -> &str
        requires { IsText run self.now }
        ensures { result.now ≡ run_in run self.now }
    {
        unsafe { str::from_utf8_unchecked(&self.filled[run.start as usize..run.end()]) }
    }

    /// Adds a text, and gives its run, unless that has no number.
    #[inline(always)]
    pub(crate) fn add(&mut self, text: &str) -> Result<Option<Run>, AllocError>
        ensures run { IfOk result (λ run. IfSome run (λ r. IsText r self.new × (run_in r self.new ≡ text.now))) }
        ensures grown { IsLonger self.old self.new }
    {
        let run = Run::of(self.len(), text.len());
        if run.is_some() {
            self.push(text)?;
        }
        Ok(run)
    }

    #[inline(always)]
    fn push(&mut self, text: &str) -> Result<(), AllocError>
        ensures ok { OnOk result (self.new ≡ self.old ++ text.now) }
        ensures err { OnErr result (self.new ≡ self.old) }
    {
        let end = self.count + text.len();
        fill(&mut self.filled, end)?;
        let filled = &mut self.filled[..];
        filled[self.count..end].copy_from_slice(text.as_bytes());
        self.count = end;
        Ok(())
    }
}

#[inline(always)]
fn fill(filled: &mut Vec<u8>, end: usize) -> Result<(), AllocError>
    ensures same { take (length filled.old.items) filled.new.items ≡ filled.old.items }
    ensures room { OnOk result (end ≤ length filled.new.items) }
{
    if end > filled.len() {
        return fill_up(filled, end);
    }
    Ok(())
}

#[inline(never)]
fn fill_up(filled: &mut Vec<u8>, end: usize) -> Result<(), AllocError>
    requires { length filled.old.items ≤ end }
    ensures same { take (length filled.old.items) filled.new.items ≡ filled.old.items }
    ensures room { OnOk result (end ≤ length filled.new.items) }
{
    filled.resize(end.saturating_add(SPARE), 0)
}

/// The texts and the attributes of a tree, one after another: a node keeps a run of them.
#[derive(Drop)]
pub(crate) struct Store {
    pub(crate) texts: Texts,
    attrs: Vec<StoredAttr>,
    pub(crate) alloc: Global,
}

impl Store {
    pub(crate) fn new(alloc: Global) -> Self {
        Store {
            texts: Texts {
                filled: Vec::new(alloc),
                count: 0,
            },
            attrs: Vec::new(alloc),
            alloc,
        }
    }

    #[inline(always)]
    pub(crate) fn attrs(&self, run: Run) -> Attrs
        requires { AreStored run self.now }
        ensures { result ≡ attributes_in_run run self.now }
    {
        Attrs::stored(&self.attrs[run.start as usize..run.end()], &self.texts)
    }

    /// Adds attributes at the end, and says whether each of their values has a run.
    fn push_attrs(&mut self, attrs: &[Attr]) -> Result<bool, AllocError>
        ensures added { IfOk result (λ all. IsTrue all → Adds (map attribute_of attrs.now) self.old self.new) }
        ensures grown { IsGrown self.old self.new }
    {
        for attr in attrs {
            let Some(value) = self.texts.add(attr.value())? else {
                return Ok(false);
            };
            self.attrs.push(StoredAttr {
                name: attr.name(),
                value,
            })?;
        }
        Ok(true)
    }

    /// Adds attributes, if they are few, and gives their run, unless that has no number.
    #[inline(always)]
    pub(crate) fn add_attrs(&mut self, attrs: &[Attr]) -> Result<Option<Run>, AllocError>
        ensures run { IfOk result (λ run. IfSome run (λ r. AreStored r self.new × (attributes_in_run r self.new ≡ map attribute_of attrs.now))) }
        ensures grown { IsGrown self.old self.new }
    {
        let run = Run::of(self.attrs.len(), attrs.len());
        if attrs.len() > FEW_ATTRIBUTES || run.is_none() || !self.push_attrs(attrs)? {
            return Ok(None);
        }
        Ok(run)
    }

    /// Adds a text at the end of another, if that is the last one, and gives the longer run, unless that has no number.
    #[inline(always)]
    pub(crate) fn lengthen(&mut self, run: Run, more: &str) -> Result<Option<Run>, AllocError>
        requires { IsText run self.old.texts }
        ensures run { IfOk result (λ longer. IfSome longer (λ r. IsText r self.new.texts × (run_in r self.new.texts ≡ run_in run self.old.texts ++ more.now))) }
        ensures grown { IsGrown self.old self.new }
    {
        if run.end() != self.texts.len() {
            return Ok(None);
        }
        let longer = Run::of(run.start as usize, run.len as usize + more.len());
        if longer.is_some() {
            self.texts.push(more)?;
        }
        Ok(longer)
    }
}
