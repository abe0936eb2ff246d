//! A table in its flat form.

ghost use Rattle.std.specs.Prelude.{◌≡◌, ◌<◌, drop, length, nat_eq, slice_get, Some, IfOk, IfErr};
ghost use Rattle.std.specs.List.{All, starts_with};
ghost use Rattle.charref.specs.Reference.{Entry, Entities};
ghost use Rattle.charref.specs.Front.{IsEntity};
ghost use Rattle.charref.specs.Table.{entries};
ghost use Rattle.charref.specs.Flat.{flat_of, IsReadable, IsRefusedFlat};
ghost use Rattle.charref.specs.Pieces.{characters_of};

use crate::entries::{Entity, characters_at_front, entities_of};
use crate::key::{AT_ONCE, begin_at_once};
use crate::reference::Characters;
use names::Refusal;
use std::alloc::Global;
use std::marker::Model;

/// The flat form of a table, and where its entries are in it.
#[derive(Drop)]
pub(crate) struct Flat {
    pub(crate) text: Vec<u8>,
    pub(crate) entities: Vec<Entity>,
}

impl Model for Flat {
    ghost Value = { Entities };

    ghost view = { λ flat. entries flat.text.items flat.entities.items };

    ghost invariant = { λ flat. (flat_of (entries flat.text.items flat.entities.items) ≡ flat.text.items)
        × All (IsEntity flat.text.items) flat.entities.items };
}

impl Flat {
    /// Reads a flat form.
    pub(crate) fn read(alloc: Global, text: Vec<u8>) -> Result<Flat, Refusal>
        ensures readable { IfOk result (λ flat. IsReadable flat) }
        ensures flat { IfOk result (λ flat. flat_of flat ≡ text.items) }
        ensures err { IfErr result (λ e. IsRefusedFlat text.items e) }
    {
        let entities = entities_of(alloc, &text)?;
        Ok(Flat { text, entities })
    }

    pub(crate) fn text(&self) -> &[u8]
        ensures { result.now ≡ flat_of self.now }
    {
        &self.text
    }

    #[inline(always)]
    pub(crate) fn len(&self) -> usize
        ensures { result ≡ length self.now }
    {
        self.entities.len()
    }

    #[inline(always)]
    pub(crate) fn key(&self, index: usize) -> &[u8]
        requires { index < length self.now }
        ensures { (e : Entry) × (slice_get self.now index ≡ Some e) × (result.now ≡ e.key) }
    {
        let entity = &self.entities[index];
        &self.text[entity.start as usize..entity.end as usize]
    }

    #[inline(always)]
    pub(crate) fn characters(&self, index: usize) -> Characters
        requires { index < length self.now }
        ensures { (e : Entry) × (slice_get self.now index ≡ Some e) × (characters_of result ≡ e.stands_for) }
    {
        let end = self.entities[index].end as usize;
        match characters_at_front(&self.text[end..]) {
            Some(characters) => characters,
            None => unreachable!(),
        }
    }

    /// Whether these bytes begin with all of the key of an entry after its `&`.
    #[inline(always)]
    pub(crate) fn opens(&self, index: usize, bytes: &[u8]) -> bool
        requires { index < length self.now }
        ensures { (e : Entry) × (slice_get self.now index ≡ Some e) × (result ≡ starts_with nat_eq bytes.now (drop 1 e.key)) }
    {
        let entity = &self.entities[index];
        let name = &self.text[entity.start as usize + 1..];
        let count = (entity.end - entity.start) as usize - 1;
        if count <= AT_ONCE && name.len() >= AT_ONCE && bytes.len() >= AT_ONCE {
            return begin_at_once(bytes, name, count);
        }
        bytes.starts_with(&name[..count])
    }
}
