//! Where the keys that end in a `;` are, by the hash of their names.

ghost use Rattle.std.specs.Prelude.{◌<◌, ◌≤◌, length, IfSome, IsTrue};
ghost use Rattle.charref.specs.Vocabulary.{IsTable, HasWhole};

use crate::flat::Flat;
use crate::walking::ends_in_semicolon;
use std::alloc::{AllocError, Global};
use std::simd::prelude::*;

/// A table of no more entries than this has no slots.
const FEW: usize = 16;

/// A table of more entries than this has no more slots.
const MANY: usize = 32_768;

const SLOTS_TRIED: u32 = 8;

/// The `;` of a name is looked for among so many bytes: the longest name of HTML's table has one letter less.
const LONGEST: usize = 32;

/// For each name of two letters or more before a `;`, at one of the slots from its hash on, the ordinal of its key in the table, counted
/// from 1; 0 in a slot that is free. What is found here is compared with the key, and what is not found is looked up byte by byte.
#[derive(Drop)]
pub(crate) struct Slots {
    ordinals: Vec<u16>,
}

/// How many slots a table of so many entries has.
fn slots_for(entries: usize) -> usize {
    if entries <= FEW {
        return 0;
    }
    (2 * entries.min(MANY)).next_power_of_two()
}

/// The hash of a name, of 16 bits: of its length, its first two letters, its last two and the one in the middle. The shifts are such that the
/// names of HTML's table of which pages have most are at their first slot.
#[inline(always)]
fn hash_of(name: &[u8]) -> u32
    requires { 2 ≤ length name.now }
{
    let len = name.len();
    let first = u32::from(u16::from_le_bytes([name[0], name[1]]));
    let last = u32::from(u16::from_le_bytes([name[len - 2], name[len - 1]])) << 16;
    let middle = u32::from(name[len / 2]) << 8;
    let hash = (first ^ last ^ middle ^ ((len & 31) as u32) << 6).wrapping_mul(0x9E37_79B1);
    hash >> 16
}

/// Where a `;` is that may end the name at the front of these bytes. What is found by it is compared with the key.
#[inline(always)]
fn semicolon_index(bytes: &[u8]) -> Option<usize> {
    if bytes.len() < LONGEST {
        return bytes.iter().position(|byte| *byte == b';');
    }
    let found = u8x32::from_slice(bytes)
        .simd_eq(u8x32::splat(b';'))
        .to_bitmask();
    if found == 0 {
        return None;
    }
    Some(found.trailing_zeros() as usize)
}

/// Whether the key at this index ends in a `;`, and these bytes begin with all of it after its `&`.
#[inline(always)]
pub(crate) fn is_whole(flat: &Flat, index: usize, bytes: &[u8]) -> bool
    requires table { IsTable flat.now }
    requires within { index < length flat.now }
    ensures { IsTrue result → HasWhole flat.now bytes.now index }
{
    ends_in_semicolon(flat.key(index)) && flat.opens(index, bytes)
}

impl Slots {
    /// The slots of a table, or none, in which nothing is found.
    pub(crate) fn new(alloc: Global, flat: &Flat, indexed: bool) -> Result<Slots, AllocError> {
        let mut slots = Slots {
            ordinals: Vec::new(alloc),
        };
        if !indexed {
            return Ok(slots);
        }
        slots.ordinals.resize(slots_for(flat.len()), 0)?;
        for index in 0..flat.len() {
            let Ok(ordinal) = u16::try_from(index + 1) else {
                return Ok(slots);
            };
            let key = flat.key(index);
            if key.len() > 3 && ends_in_semicolon(key) {
                slots.put(hash_of(&key[1..key.len() - 1]), ordinal);
            }
        }
        Ok(slots)
    }

    /// The slot for a hash, after so many others.
    #[inline(always)]
    fn slot(&self, hash: u32, tried: u32) -> usize {
        hash.wrapping_add(tried) as usize & self.ordinals.len().wrapping_sub(1)
    }

    /// Puts the ordinal of a key into the first free slot for this hash, if one is near.
    fn put(&mut self, hash: u32, ordinal: u16) {
        for tried in 0..SLOTS_TRIED {
            let slot = self.slot(hash, tried);
            if slot < self.ordinals.len() && self.ordinals[slot] == 0 {
                self.ordinals[slot] = ordinal;
                return;
            }
        }
    }

    /// The index of a key that ends in a `;` and with all of which, after its `&`, these bytes begin, if a slot has it.
    #[inline(always)]
    pub(crate) fn index_of(&self, flat: &Flat, bytes: &[u8]) -> Option<usize>
        requires { IsTable flat.now }
        ensures { IfSome result (HasWhole flat.now bytes.now) }
    {
        let count = semicolon_index(bytes)?;
        if count < 2 || count >= bytes.len() {
            return None;
        }
        let hash = hash_of(&bytes[..count]);
        for tried in 0..SLOTS_TRIED {
            let ordinal = *self.ordinals.get(self.slot(hash, tried))?;
            if ordinal == 0 {
                return None;
            }
            let index = usize::from(ordinal) - 1;
            if index < flat.len() && is_whole(flat, index, bytes) {
                return Some(index);
            }
        }
        None
    }
}
