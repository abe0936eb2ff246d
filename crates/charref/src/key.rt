//! The keys of a table.

ghost use Rattle.std.specs.Prelude.{◌≡◌, ◌≤◌, length, nat_eq, take, MatchOption};
ghost use Rattle.charref.specs.Vocabulary.{starts_with, nat_cmp, is_lt, slice_cmp, is_key, IsOnlyKey, HasNoKey};

use htext::alphanumeric_run;
use std::simd::prelude::*;

/// The length of the key that these bytes begin with: the only one after which they end, or a count comes.
#[inline(always)]
pub(crate) fn key_at_front(bytes: &[u8]) -> Option<usize>
    ensures { MatchOption result (HasNoKey bytes.now) (IsOnlyKey bytes.now) }
{
    let [b'&', name @ ..] = bytes else {
        return None;
    };
    let end = alphanumeric_run(name);
    if end == 0 {
        return None;
    }
    if end < name.len() && name[end] == b';' {
        return Some(end + 2);
    }
    Some(end + 1)
}

/// Whether this is a key: `&`, one or more letters and digits, and at most one `;`.
#[tactic(auto, using(crate::proofs::Fronts::whole_key, crate::proofs::Fronts::none_whole))]
pub(crate) fn is_key(key: &[u8]) -> bool
    ensures { result ≡ is_key key.now }
{
    match key_at_front(key) {
        Some(size) => size == key.len(),
        None => false,
    }
}

pub(crate) const AT_ONCE: usize = 16;

/// Whether the key of so many bytes at the front of some bytes is before that at the front of other bytes: 16 bytes of each are compared at once.
#[inline(always)]
pub(crate) fn is_key_before(bytes: &[u8], size: usize, others: &[u8], other_size: usize) -> bool
    requires key { size ≤ length bytes.now }
    requires other { other_size ≤ length others.now }
    requires longer { length others.now ≤ length bytes.now }
    ensures { result ≡ is_lt (slice_cmp nat_cmp (take size bytes.now) (take other_size others.now)) }
{
    if others.len() >= AT_ONCE {
        let differ = u8x16::from_slice(bytes)
            .simd_ne(u8x16::from_slice(others))
            .to_bitmask();
        if differ != 0 {
            let same = differ.trailing_zeros() as usize;
            if same < size && same < other_size {
                return bytes[same] < others[same];
            }
            return size < other_size;
        }
    }
    bytes[..size].cmp(&others[..other_size]).is_lt()
}

/// Whether these bytes begin with this many bytes of a name: 16 are compared at once.
#[inline(always)]
#[tactic(auto, using(crate::proofs::Begins::all_alike))]
pub(crate) fn begin_at_once(bytes: &[u8], name: &[u8], count: usize) -> bool
    requires bytes { AT_ONCE ≤ length bytes.now }
    requires name { AT_ONCE ≤ length name.now }
    requires few { count ≤ AT_ONCE }
    ensures { result ≡ starts_with nat_eq bytes.now (take count name.now) }
{
    let differ = u8x16::from_slice(bytes)
        .simd_ne(u8x16::from_slice(name))
        .to_bitmask();
    differ == 0 || differ.trailing_zeros() as usize >= count
}
