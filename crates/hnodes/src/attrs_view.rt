//! The attributes of an element, as its tree lends them.

ghost use Rattle.std.specs.Prelude.{◌≡◌, [], length, map};
ghost use Rattle.std.specs.Iterator.{YieldsFirstBy, item_count};
ghost use Rattle.hnodes.specs.Vocabulary.{attribute_of, stored_attribute, AreTexts};

use crate::store::{StoredAttr, Texts};
use names::{Attr, NameId};
use std::marker::Model;

/// Where attributes lie.
#[derive(Clone, Copy)]
pub(crate) enum Lent<'a> {
    /// In the store of a tree, with the texts of their values.
    Stored(&'a [StoredAttr], &'a Texts),
    /// In a list of their own.
    Listed(&'a [Attr]),
}

/// The attributes of an element, in their order: the name and the value of each. From `Tree::attrs`.
#[derive(Drop)]
pub struct Attrs<'a> {
    lent: Lent<'a>,
}

impl<'a> Model for Attrs<'a> {
    ghost use Rattle.std.specs.Prelude.{ℕ, List};
    ghost use Rattle.hnodes.specs.Forest.{Attribute};

    ghost Value = { List (Attribute ℕ) };

    ghost use Rattle.hnodes.specs.AttrsView.{lent_attributes, AreLent};

    ghost view = { λ a. lent_attributes a.lent };

    ghost invariant = { λ a. AreLent a.lent };
}

impl<'a> Attrs<'a> {
    #[inline(always)]
    pub(crate) fn stored(attrs: &'a [StoredAttr], texts: &'a Texts) -> Self
        requires { AreTexts texts.now attrs.now }
        ensures { result ≡ map (stored_attribute texts.now) attrs.now }
    {
        let lent = Lent::Stored(attrs, texts);
        Attrs { lent }
    }

    #[inline(always)]
    pub(crate) fn listed(attrs: &'a [Attr]) -> Self
        ensures { result ≡ map attribute_of attrs.now }
    {
        let lent = Lent::Listed(attrs);
        Attrs { lent }
    }

    /// No attributes.
    pub fn empty() -> Self
        ensures { result ≡ [] }
    {
        Attrs::listed(&[])
    }

    /// The same once more.
    pub fn copy(&self) -> Attrs<'a>
        ensures { result ≡ self.now }
    {
        Attrs { lent: self.lent }
    }

    /// How many there are.
    pub fn len(&self) -> usize
        ensures { result ≡ length self.now }
    {
        match self.lent {
            Lent::Stored(attrs, _) => attrs.len(),
            Lent::Listed(attrs) => attrs.len(),
        }
    }
}

impl<'a> Iterator for Attrs<'a> {
    type Item = (NameId, &'a str);

    ghost next_gives = { YieldsFirstBy (λ attr. (attr.0, attr.1.now)) (λ s. s) };

    ghost remaining = { item_count (λ s. s) };

    #[inline(always)]
    fn next(&mut self) -> Option<(NameId, &'a str)> {
        match self.lent {
            Lent::Stored(attrs, texts) => {
                let (attr, rest) = attrs.split_first()?;
                self.lent = Lent::Stored(rest, texts);
                Some((attr.name, texts.get(attr.value)))
            }
            Lent::Listed(attrs) => {
                let (attr, rest) = attrs.split_first()?;
                self.lent = Lent::Listed(rest);
                Some((attr.name(), attr.value()))
            }
        }
    }
}
