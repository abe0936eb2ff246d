//! Which names a tag has had.

ghost use Rattle.std.specs.Prelude.{◌<◌, ◌≤◌, ℕ, slice_index_or};

/// By a name's number the last tag that had it, so that one question takes constant time, and a new tag none. A tag's stamp is
/// its count since the stamps were cleared.
#[derive(Drop)]
pub(crate) struct Seen {
    pub stamps: Vec<u32>,
    pub tag: u32,
    ghost begun: { 0 < tag },
    ghost older: { (n : ℕ) → slice_index_or stamps.items n 0 ≤ tag },
}
