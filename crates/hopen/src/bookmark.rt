//! The bookmark of the adoption agency (HTML Standard, `#parsing-main-inbody`).

use hnodes::NodeId;

/// A place in the list of active formatting elements.
#[derive(Clone, Copy, Debug, PartialEq, Eq)]
pub enum Bookmark {
    /// Where the entry of the formatting element is.
    InPlace,
    /// Right after the entry of a node.
    After(NodeId),
}
