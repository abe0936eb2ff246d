//! Attributes that are stored once, for all elements and entries that have them.

ghost use Rattle.std.specs.Prelude.{◌≡◌, IfOk, IfSome, Some, map};
ghost use Rattle.hnodes.specs.Shared.{IsFound};
ghost use Rattle.hnodes.specs.Vocabulary.{attribute_of};

use crate::attributes::{FEW_ATTRIBUTES, are_clean, differ, names_end, taken};
use crate::attrs_view::Attrs;
use names::Attr;
use std::alloc::{AllocError, Global};
use std::marker::Model;
use std::rc::Rc;
use std::slice;

/// What is found once of attributes.
#[derive(Clone, Copy, Debug)]
pub(crate) struct Found {
    pub(crate) differ: bool,
    pub(crate) clean: bool,
    /// One more than the greatest number among their names.
    pub(crate) names_end: usize,
}

/// A value of at most this many bytes is short.
const SHORT_VALUE: usize = 64;

/// What is found of attributes, unless there are only a few with short values: those are looked at in constant time.
fn look_at(attrs: &[Attr], alloc: Global) -> Result<Option<Box<Found>>, AllocError>
    ensures { IfOk result (λ found. IfSome found (λ f. IsFound f.value (Some (map attribute_of attrs.now)))) }
{
    let is_short = attrs.iter().all(|attr| attr.value().len() <= SHORT_VALUE);
    if is_short && attrs.len() <= FEW_ATTRIBUTES {
        return Ok(None);
    }
    let found = Found {
        differ: differ(Attrs::listed(attrs), alloc)?,
        clean: are_clean(Attrs::listed(attrs)),
        names_end: names_end(Attrs::listed(attrs)),
    };
    Ok(Some(Box::new(alloc, found)?))
}

#[derive(Debug, Drop)]
enum Held {
    /// One with a short value.
    One(Attr),
    Others(Vec<Attr>, Option<Box<Found>>),
}

/// Attributes that are looked at once.
#[derive(Debug, Drop)]
pub(crate) struct Listed {
    held: Held,
}

impl Model for Listed {
    ghost use Rattle.std.specs.Prelude.{ℕ, List};
    ghost use Rattle.hnodes.specs.Forest.{Attribute};

    ghost Value = { List (Attribute ℕ) };

    ghost use Rattle.hnodes.specs.Shared.{listed_in, IsListed};

    ghost view = { λ l. listed_in l.held };

    ghost invariant = { λ l. IsListed l.held };
}

impl Listed {
    fn take(attrs: &mut Vec<Attr>, alloc: Global) -> Result<Self, AllocError>
        ensures { IfOk result (λ listed. listed ≡ map attribute_of attrs.old.items) }
    {
        let found = look_at(attrs, alloc)?;
        if found.is_none() && attrs.len() == 1 {
            let held = Held::One(attrs.pop().unwrap());
            return Ok(Listed { held });
        }
        let held = Held::Others(taken(attrs, alloc)?, found);
        Ok(Listed { held })
    }

    pub(crate) fn as_slice(&self) -> &[Attr]
        ensures { map attribute_of result.now ≡ self.now }
    {
        match &self.held {
            Held::One(attr) => slice::from_ref(attr),
            Held::Others(attrs, _) => attrs,
        }
    }

    pub(crate) fn attrs(&self) -> Attrs
        ensures { result ≡ self.now }
    {
        Attrs::listed(self.as_slice())
    }

    /// What was found of them when they were looked at.
    pub(crate) fn found(&self) -> Option<&Found>
        ensures { IfSome result (λ found. IsFound found.now (Some self.now)) }
    {
        match &self.held {
            Held::One(_) => None,
            Held::Others(_, found) => found.as_deref(),
        }
    }
}

/// A list of attributes that is stored once, however many share it. An empty one takes no memory of its own.
#[derive(Debug, Drop)]
pub struct Attributes {
    pub(crate) list: Option<Rc<Listed>>,
}

impl Model for Attributes {
    ghost use Rattle.std.specs.Prelude.{ℕ, List};
    ghost use Rattle.hnodes.specs.Forest.{Attribute};

    ghost Value = { List (Attribute ℕ) };

    ghost use Rattle.hnodes.specs.Shared.{shared_in};

    ghost view = { shared_in };
}

impl Attributes {
    /// These attributes, to be shared.
    pub fn new(mut attrs: Vec<Attr>, alloc: Global) -> Result<Self, AllocError>
        ensures { IfOk result (λ shared. shared ≡ map attribute_of attrs.items) }
    {
        Attributes::take(&mut attrs, alloc)
    }

    /// Attributes that are taken out of a list, to be shared.
    pub fn take(attrs: &mut Vec<Attr>, alloc: Global) -> Result<Self, AllocError>
        ensures { IfOk result (λ shared. shared ≡ map attribute_of attrs.old.items) }
    {
        if attrs.is_empty() {
            return Ok(Attributes { list: None });
        }
        let listed = Listed::take(attrs, alloc)?;
        let list = Some(Rc::new(alloc, listed)?);
        Ok(Attributes { list })
    }

    /// The same attributes for one more. Takes the same time however many there are.
    pub fn share(&self) -> Result<Self, AllocError>
        ensures { IfOk result (λ shared. shared ≡ self.now) }
    {
        let list = match &self.list {
            Some(list) => Some(list.clone()?),
            None => None,
        };
        Ok(Attributes { list })
    }

    /// The attributes.
    pub fn as_slice(&self) -> &[Attr]
        ensures { map attribute_of result.now ≡ self.now }
    {
        match &self.list {
            Some(list) => list.as_slice(),
            None => &[],
        }
    }
}
