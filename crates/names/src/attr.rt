//! Attributes of tags and elements.

ghost use Rattle.std.specs.Prelude.{◌≡◌, IfOk};

use crate::short::ShortText;
use crate::table::NameId;
use std::alloc::{AllocError, Global};
use std::marker::Model;

/// A value of at most this many bytes is kept in its attribute.
const SHORT: usize = 23;

#[derive(Debug, Drop)]
enum Named {
    Short(NameId, ShortText<SHORT>),
    Long(NameId, String),
}

/// An attribute: the number of its name, and its value.
#[derive(Debug, Drop)]
pub struct Attr {
    named: Named,
}

const _: () = prove!(std::mem::size_of::<Attr>() == 32);

impl Model for Attr {
    ghost use Rattle.names.specs.Attr.{AttrParts};

    ghost Value = { AttrParts };

    ghost use Rattle.names.specs.AttrView.{attr_parts};

    ghost view = { λ a. attr_parts a.named };
}

impl Attr {
    /// The attribute of a name and a value.
    #[inline(always)]
    pub fn new(name: NameId, value: &str, alloc: Global) -> Result<Attr, AllocError>
        ensures { IfOk result (λ attr. attr ≡ record { name = name; value = value.now }) }
    {
        let named = match ShortText::of(value) {
            Some(value) => Named::Short(name, value),
            None => Named::Long(name, String::from_str(alloc, value)?),
        };
        Ok(Attr { named })
    }

    /// The number of its name.
    #[inline(always)]
    pub fn name(&self) -> NameId
        ensures { result ≡ self.now.name }
    {
        match &self.named {
            Named::Short(name, _) => *name,
            Named::Long(name, _) => *name,
        }
    }

    /// Its value.
    #[inline(always)]
    pub fn value(&self) -> &str
        ensures { result.now ≡ self.now.value }
    {
        match &self.named {
            Named::Short(_, value) => value.as_str(),
            Named::Long(_, value) => value.as_str(),
        }
    }

    /// A copy of the attribute.
    pub fn copy(&self, alloc: Global) -> Result<Attr, AllocError>
        ensures { IfOk result (λ copy. copy ≡ self.now) }
    {
        Attr::new(self.name(), self.value(), alloc)
    }
}
