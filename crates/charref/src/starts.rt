//! The index of the bytes after the `&`.

ghost use Rattle.std.specs.Prelude.{◌≡◌, ◌<◌, [], ◌∷◌, length, Some, slice_get, IfOk};
ghost use Rattle.charref.specs.Vocabulary.{Entities, Entry, code_at, IsSortedTable, IsIndex, IsRange};

use crate::flat::Flat;
use crate::search::{code_at, first_from};
use std::alloc::{AllocError, Global};

/// The codes that are indexed: of the end of a key, of each ASCII byte, and the one after them, which ends the last range.
const CODES: u16 = 130;

/// The code after the `&` of the key at this index; past all keys one that is above all others.
#[inline(always)]
fn code_from(flat: &Flat, index: usize) -> u16
    ensures { (e : Entry) → slice_get flat.now index ≡ Some e → result ≡ code_at e.key 1 }
{
    if index < flat.len() {
        code_at(flat.key(index), 1)
    } else {
        CODES
    }
}

/// For each code, the first entry whose key has at least this code after the `&`.
pub(crate) fn starts_of(alloc: Global, flat: &Flat) -> Result<Vec<usize>, AllocError>
    requires sorted { IsSortedTable flat.now }
    ensures { IfOk result (λ starts. IsIndex flat.now starts.items CODES) }
{
    let mut starts = Vec::with_capacity(alloc, usize::from(CODES))?;
    let mut index = 0;
    let mut here = code_from(flat, index);
    for code in 0..CODES {
        if here < code {
            index = first_from(flat, index, flat.len(), 1, code);
            here = code_from(flat, index);
        }
        starts.push_reserved(index);
    }
    Ok(starts)
}

/// The range of the keys that begin with an `&` and this byte, by the index of their table.
#[inline(always)]
pub(crate) fn starting(starts: &[usize], byte: u8) -> (usize, usize)
    requires index { length starts.now ≡ CODES }
    requires ascii { byte < 128 }
    ensures { (table : Entities) → IsSortedTable table → IsIndex table starts.now CODES
        → IsRange table (38 ∷ byte ∷ []) result.0 result.1 }
{
    let code = usize::from(byte) + 1;
    (starts[code], starts[code + 1])
}
