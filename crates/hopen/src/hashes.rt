//! Numbers by which equal entries find each other.

ghost use Rattle.std.specs.Prelude.{◌≡◌, suc, IfOk, map};
ghost use Rattle.hopen.specs.Vocabulary.{attribute_of, distinct, entry_hash, entry_is, fed_name, hash_of};

use crate::entry::Entry;
use hnodes::name_number;
use names::{Attr, Keys, NameId};
use std::alloc::{AllocError, Global};
use std::hash::{BuildHasher, DefaultHasher, Hash, Hasher};

/// How many hashes there are.
const HASHES: u64 = 1 << 32;

fn feed_name(keys: Keys, name: NameId) -> DefaultHasher
    ensures { result ≡ fed_name keys name }
{
    let mut hasher = keys.build_hasher();
    hasher.write_usize(name.index());
    hasher
}

fn hash_attrs(alloc: Global, keys: Keys, attrs: &[Attr]) -> Result<Vec<u64>, AllocError>
    ensures { IfOk result (λ hashes. hashes.items ≡ distinct (map (hash_of keys) (map attribute_of attrs.now))) }
{
    let mut hashes = Vec::new(alloc);
    for attr in attrs {
        let mut hasher = feed_name(keys, attr.name());
        hasher.write(attr.value().as_bytes());
        hashes.push(hasher.finish())?;
    }
    hashes.sort_unstable();
    hashes.dedup();
    Ok(hashes)
}

/// The number of the hash of an entry. Equal entries have the same, and few others have it; without keys all entries of a name have it.
#[inline(always)]
pub(crate) fn find_hash(alloc: Global, keys: Option<Keys>, new: &Entry) -> Result<usize, AllocError>
    ensures { IfOk result (λ n. n ≡ suc (suc (entry_hash keys (entry_is new.now)))) }
{
    let Some(keys) = keys else {
        return Ok(name_number(new.name));
    };
    let hashes = hash_attrs(alloc, keys, new.attrs.as_slice())?;
    let mut hasher = feed_name(keys, new.name);
    u64::hash_slice(&hashes, &mut hasher);
    Ok((hasher.finish() % HASHES) as usize + 2)
}
