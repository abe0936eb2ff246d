//! The options of a parse.

ghost use Rattle.std.specs.Prelude.{◌≡◌, false};
ghost use Rattle.htext.specs.declared.BadBytes.TheVariants as bad;
ghost use Rattle.hparse.specs.Vocabulary.{MAX_INPUT, options_of};

use charref::Table;
use hmarkup::Quirks;
use hmodes::Limits;
use htext::BadBytes;
use names::Keys;

/// The table of character references, the quirks list, what becomes of bytes that are not UTF-8, how long an input and how large
/// its tree may be, and whether it is asked where the tree's nodes came from: see [`Origin`](crate::Origin).
/// The quirks list has a say in documents alone. No result depends on the keys: see [`Keys`].
#[derive(Clone, Copy)]
pub struct Options<'t> {
    pub table: &'t Table,
    pub quirks: &'t Quirks,
    pub bad_bytes: BadBytes,
    pub limits: Limits,
    pub keys: Keys,
    pub places: bool,
}

impl<'t> Options<'t> {
    /// Bad bytes are refused, with the greatest limits, and no places are asked for. The keys are [`Keys::random`] wherever the input
    /// may be a stranger's.
    pub fn new(table: &'t Table, quirks: &'t Quirks, keys: Keys) -> Options<'t>
        ensures { options_of result ≡ record {
          table = table.now;
          quirks = quirks.now;
          bad = bad.Refuse;
          input = MAX_INPUT;
          limits =
              record { nodes = 16777216; depth = 1048576 };
          places = false;
        } }
    {
        Options {
            table,
            quirks,
            bad_bytes: BadBytes::Refuse,
            limits: Limits::greatest(),
            keys,
            places: false,
        }
    }
}
