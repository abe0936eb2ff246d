//! The attributes of an element that has many.

ghost use Rattle.std.specs.Prelude.{◌≡◌, ◌++◌, ◌∷◌, [], suc, length, map, nat_eq, take, OnOk, OnErr, IfOk};
ghost use Rattle.std.specs.List.{list_any};
ghost use Rattle.hnodes.specs.Vocabulary.{are_clean, attribute_of, has_no_null_or_return, names_differ, names_end, attr_numbers};

use crate::attrs_view::Attrs;
use crate::indexed_list::IndexedList;
use names::{Attr, NameId};
use std::alloc::{AllocError, Global};
use std::marker::Model;
use std::mem;

/// So many attributes are looked at one by one; the names of more are numbered or sorted.
pub const FEW_ATTRIBUTES: usize = 16;

/// Attributes, whether their names differ, and the numbers of the names of the first of them, by which one is found in about
/// constant time. The names that came since are taken into the index before the next attribute is sought.
#[derive(Drop)]
pub(crate) struct Indexed {
    attrs: Vec<Attr>,
    names: IndexedList,
    differ: bool,
}

impl Model for Indexed {
    ghost use Rattle.std.specs.Prelude.{ℕ, List};
    ghost use Rattle.hnodes.specs.Forest.{Attribute};

    ghost Value = { List (Attribute ℕ) };

    ghost use Rattle.hnodes.specs.Numbered.{inside_attributes, AreNumbered};

    ghost view = { inside_attributes };

    ghost invariant = { AreNumbered };
}

/// The number of a name in lists of numbers.
pub fn name_number(name: NameId) -> usize
    ensures { result ≡ suc (suc name) }
{
    name.index() + 2
}

pub(crate) fn has_name(attrs: Attrs, name: NameId) -> bool
    ensures { result ≡ list_any (λ a. nat_eq a.0 name) attrs.entry }
{
    for (own, _) in attrs {
        if own == name {
            return true;
        }
    }
    false
}

/// Adds the numbers of the names that are not in the index yet.
fn index_more(names: &mut IndexedList, attrs: &[Attr]) -> Result<(), AllocError>
    requires { names.old ≡ attr_numbers (take (length names.old) attrs.now) }
    ensures all { OnOk result (names.new ≡ attr_numbers attrs.now) }
    ensures first { names.new ≡ attr_numbers (take (length names.new) attrs.now) }
{
    for index in names.len()..attrs.len() {
        names.push(name_number(attrs[index].name()))?;
    }
    Ok(())
}

/// The numbers of the names of attributes, in order, by which those of a name are found.
pub fn index_attrs(attrs: &[Attr], alloc: Global) -> Result<IndexedList, AllocError>
    ensures { IfOk result (λ names. names ≡ attr_numbers attrs.now) }
{
    let mut names = IndexedList::new(alloc);
    index_more(&mut names, attrs)?;
    Ok(names)
}

/// Whether the names of a few attributes differ. Compares each with all that follow it.
pub(crate) fn few_differ(mut attrs: Attrs) -> bool
    ensures { result ≡ names_differ nat_eq attrs.entry }
{
    while let Some((name, _)) = attrs.next() {
        if has_name(attrs.copy(), name) {
            return false;
        }
    }
    true
}

/// Whether the names of attributes differ. Compares a few with one another, and sorts more.
pub(crate) fn differ(attrs: Attrs, alloc: Global) -> Result<bool, AllocError>
    ensures { IfOk result (λ differ. differ ≡ names_differ nat_eq attrs.entry) }
{
    if attrs.len() <= FEW_ATTRIBUTES {
        return Ok(few_differ(attrs));
    }
    let mut names = Vec::new(alloc);
    for (name, _) in attrs {
        names.push(name.index())?;
    }
    names.sort_unstable();
    Ok(names.is_sorted_by(|name, next| name < next))
}

/// Whether a text has neither NUL nor CR.
pub fn has_no_null_or_return(text: &str) -> bool
    ensures { result ≡ has_no_null_or_return text.now }
{
    text.bytes().all(|byte| byte != 0 && byte != b'\r')
}

pub(crate) fn are_clean(attrs: Attrs) -> bool
    ensures { result ≡ are_clean attrs.entry }
{
    for (_, value) in attrs {
        if !has_no_null_or_return(value) {
            return false;
        }
    }
    true
}

pub(crate) fn names_end(attrs: Attrs) -> usize
    ensures { result ≡ names_end attrs.entry }
{
    let mut end = 0;
    for (name, _) in attrs {
        end = end.max(name.index() + 1);
    }
    end
}

/// Takes attributes out of a list. Few are moved to memory for as many, and the list keeps its own.
pub(crate) fn taken(attrs: &mut Vec<Attr>, alloc: Global) -> Result<Vec<Attr>, AllocError>
    ensures { IfOk result (λ taken. taken.items ≡ attrs.old.items) }
{
    if attrs.len() > FEW_ATTRIBUTES {
        return Ok(mem::replace(attrs, Vec::new(alloc)));
    }
    let mut taken = Vec::with_capacity(alloc, attrs.len())?;
    taken.append(attrs)?;
    Ok(taken)
}

impl Indexed {
    pub(crate) fn of(attrs: Vec<Attr>, alloc: Global) -> Result<Self, AllocError>
        ensures { IfOk result (λ indexed. indexed ≡ map attribute_of attrs.items) }
    {
        let differ = differ(Attrs::listed(&attrs), alloc)?;
        Ok(Indexed {
            attrs,
            names: IndexedList::new(alloc),
            differ,
        })
    }

    pub(crate) fn attrs(&self) -> Attrs
        ensures { result ≡ self.now }
    {
        Attrs::listed(&self.attrs)
    }

    pub(crate) fn differ(&self) -> bool
        ensures { result ≡ names_differ nat_eq self.now }
    {
        self.differ
    }

    pub(crate) fn index(&mut self) -> Result<(), AllocError>
        ensures { self.new ≡ self.old }
    {
        index_more(&mut self.names, &self.attrs)
    }

    pub(crate) fn has(&self, name: NameId) -> bool
        ensures { result ≡ list_any (λ a. nat_eq a.0 name) self.now }
    {
        self.names.last(name_number(name)) > 0
            || has_name(Attrs::listed(&self.attrs[self.names.len()..]), name)
    }

    pub(crate) fn push(&mut self, attr: Attr) -> Result<(), AllocError>
        ensures ok { OnOk result (self.new ≡ self.old ++ attribute_of attr ∷ []) }
        ensures err { OnErr result (self.new ≡ self.old) }
    {
        self.index()?;
        let differ = self.differ && !self.has(attr.name());
        self.attrs.push(attr)?;
        self.differ = differ;
        Ok(())
    }
}
