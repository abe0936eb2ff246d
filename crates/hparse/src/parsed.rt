//! What a parse gives.

ghost use Rattle.std.specs.Prelude.{◌≡◌, ◌<◌, option_map, slice_get};
ghost use Rattle.std.specs.Option.{option_and_then};

use crate::origins::Origin;
use hnodes::{NodeId, Tree};
use names::{Names, ParseError};

/// The tree of a document or a fragment and the parse errors, with the table of the tree's names. The root is the document, or
/// a fragment's root element: the fragment is what is in it. The root is a node of the tree, so a walk can begin there.
pub struct Parsed {
    pub tree: Tree,
    pub root: NodeId,
    pub names: Names,
    pub errors: Vec<ParseError>,

    /// How each node came to be, by its number, where the options ask for places.
    pub places: Option<Vec<Origin>>,
    pub ghost made: { root < tree.made },
}

// Written out, as that of a parser.
impl Drop for Parsed {
    fn drop(self) {
        let Parsed {
            tree,
            root: _,
            names,
            errors,
            places,
        } = self;
        drop(tree);
        drop(names);
        drop(errors);
        drop(places);
    }
}

impl Parsed {
    /// The byte at which the token begins in whose step a node was made; of a text, its first character. None where the options ask
    /// for no places. The document, and a fragment's root, came from byte 0.
    pub fn place(&self, node: NodeId) -> Option<u64>
        requires { node < self.now.tree.made }
        ensures { result ≡ option_and_then (λ places. option_map (λ m. m.at) (slice_get places.items node)) self.now.places }
    {
        Some(self.places.as_ref()?.get(node.index())?.at)
    }

    /// How a node came to be; none where the options ask for no places.
    pub fn origin(&self, node: NodeId) -> Option<Origin>
        requires { node < self.now.tree.made }
        ensures { result ≡ option_and_then (λ places. slice_get places.items node) self.now.places }
    {
        Some(*self.places.as_ref()?.get(node.index())?)
    }
}
