//! How long an input may be, and how large its tree may become.

ghost use Rattle.std.specs.Prelude.{◌≡◌, ◌≤◌, MatchResult};
ghost use Rattle.hmodes.specs.Vocabulary.{BadLimits, MAX_INPUT, AreLimits, Bounds};

use htext::MAX_INPUT;
use names::Refusal;
use std::marker::Model;

/// The least number of nodes, and of open elements, that may be allowed.
pub const LEAST: u64 = 16;
/// The most nodes that may be allowed.
pub const MAX_NODES: u64 = 16_777_216;
/// The most open elements that may be allowed.
pub const MAX_DEPTH: u64 = 1_048_576;

/// How many bytes an input may have, how many nodes may be made, the document and a fragment's root among them, and how many
/// elements may be open at a time.
#[derive(Clone, Copy, Debug, PartialEq, Eq)]
pub struct Limits {
    input: u64,
    nodes: u32,
    depth: u32,
}

impl Model for Limits {
    ghost use Rattle.hmodes.specs.Bounds.{AreLimits, Bounds};

    ghost Value = { Bounds };

    ghost view = { λ l. record { input = l.input; tree = record { nodes = l.nodes; depth = l.depth } } };

    ghost inverse = { λ b. record { input = b.input; nodes = b.tree.nodes; depth = b.tree.depth } };

    ghost invariant = { λ l. AreLimits (record { input = l.input; tree = record { nodes = l.nodes; depth = l.depth } }) };
}

impl Limits {
    /// At most 1,073,741,824 bytes of input, from 16 to 16,777,216 nodes, and from 16 to 1,048,576 open elements. An error is
    /// `BadLimits`.
    pub fn new(input: u64, nodes: u64, depth: u64) -> Result<Limits, Refusal>
        ensures { let said : Bounds = record { input = input; tree = record { nodes = nodes; depth = depth } } in
            MatchResult result (λ l. AreLimits said × (l ≡ said)) (λ e. (e ≡ BadLimits) × (AreLimits said → ⊥)) }
    {
        if MAX_INPUT < input {
            return Err(Refusal::BadLimits);
        }
        if nodes < LEAST || MAX_NODES < nodes || depth < LEAST || MAX_DEPTH < depth {
            return Err(Refusal::BadLimits);
        }
        Ok(Limits {
            input,
            nodes: nodes as u32,
            depth: depth as u32,
        })
    }

    /// The greatest ones.
    pub fn greatest() -> Limits
        ensures { result ≡ record { input = MAX_INPUT; tree = record { nodes = 16777216; depth = 1048576 } } }
    {
        Limits {
            input: MAX_INPUT,
            nodes: MAX_NODES as u32,
            depth: MAX_DEPTH as u32,
        }
    }

    /// How many bytes an input may have.
    pub fn input(self) -> u64
        ensures value { result ≡ self.input }
        ensures most { result ≤ MAX_INPUT }
    {
        self.input
    }

    /// How many nodes may be made.
    pub fn nodes(self) -> u32
        ensures value { result ≡ self.tree.nodes }
        ensures some { 16 ≤ result }
    {
        self.nodes
    }

    /// How many elements may be open.
    pub fn depth(self) -> u32
        ensures value { result ≡ self.tree.depth }
        ensures some { 16 ≤ result }
    {
        self.depth
    }
}
