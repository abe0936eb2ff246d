//! The options whose values are numbers.

ghost use Rattle.std.specs.Prelude.{◌≡◌};
ghost use Rattle.htmlp.specs.Numeric.{accepted, numeric_name, range_of, range_text};

use hmodes::{LEAST, MAX_DEPTH, MAX_NODES};

/// An option whose value is a number.
#[derive(Clone, Copy, Debug)]
pub enum Numeric {
    Piece,
    Nodes,
    Open,
    Escape,
}

impl Numeric {
    /// What stands after `--`.
    pub fn name<'a>(self) -> &'a str
        ensures { result.now ≡ numeric_name self }
    {
        match self {
            Numeric::Piece => "piece",
            Numeric::Nodes => "nodes",
            Numeric::Open => "open",
            Numeric::Escape => "escape",
        }
    }

    /// The least and the greatest number.
    pub fn range(self) -> (u64, u64)
        ensures { result ≡ range_of self }
    {
        match self {
            Numeric::Piece => (1, 65_536),
            Numeric::Nodes => (LEAST, MAX_NODES),
            Numeric::Open => (LEAST, MAX_DEPTH),
            Numeric::Escape => (1, 2),
        }
    }

    /// The range, as the program says it.
    pub fn range_text<'a>(self) -> &'a str
        ensures { result.now ≡ range_text self }
    {
        match self {
            Numeric::Piece => "a number from 1 to 65536",
            Numeric::Nodes => "a number from 16 to 16777216",
            Numeric::Open => "a number from 16 to 1048576",
            Numeric::Escape => "a number from 1 to 2",
        }
    }

    /// The numbers that are read: a limit that is out of its range is refused later.
    pub fn accepted(self) -> (u64, u64)
        ensures { result ≡ accepted self }
    {
        match self {
            Numeric::Nodes | Numeric::Open => (0, u64::MAX),
            Numeric::Piece | Numeric::Escape => self.range(),
        }
    }
}
