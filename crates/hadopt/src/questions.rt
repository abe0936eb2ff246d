//! What the rules ask of the open nodes and of the formatting elements.

ghost use Rattle.std.specs.Prelude.{◌≡◌, ◌<◌, ◌-◌, IfSome, length, nat_eq, take};
ghost use Rattle.std.specs.List.{find, list_all};
ghost use Rattle.std.specs.Option.{option_map};
ghost use Rattle.hadopt.specs.Vocabulary.{find_entry, open_of, is_named, is_of, is_node, is_open, furthest_block, Default, tag_of, is_fostering, stack, from_top, stops_node, stops_item, current_of, is_in_scope};
ghost use Rattle.hadopt.specs.Vocabulary.{may_stay_open, current_is};

use crate::places::fosters;
use crate::site::Site;
use hnodes::NodeId;
use hopen::{Group, Open, Scope};
use names::NameId;

impl Site {
    /// The current node.
    pub fn current(&self) -> Option<Open>
        ensures node { option_map open_of result ≡ current_of (stack self.now) }
        ensures made { IfSome result (λ x. (0 < x.node) × (x.node < self.now.nodes.made)) }
    {
        self.stack.current()
    }

    /// The open node with `down` nodes above it: 0 is html.
    pub fn from_top(&self, down: usize) -> Option<Open>
        ensures node { option_map open_of result ≡ from_top down self.now }
        ensures made { IfSome result (λ x. (0 < x.node) × (x.node < self.now.nodes.made)) }
    {
        self.stack.from_top(down)
    }

    /// Whether a node is open.
    pub fn is_open(&self, node: NodeId) -> bool
        ensures { result ≡ is_open node (stack self.now) }
    {
        self.stack.contains(node)
    }

    /// Whether a node is the current one.
    pub fn is_current(&self, node: NodeId) -> bool
        ensures { result ≡ current_is (is_node node) self.now }
    {
        matches!(self.stack.current(), Some(top) if top.node == node)
    }

    /// Whether the current node has a name.
    pub fn current_is(&self, name: NameId) -> bool
        ensures { result ≡ current_is (is_named nat_eq name) self.now }
    {
        matches!(self.stack.current(), Some(top) if top.name == name)
    }

    /// Whether the name of the current node is of a group.
    pub fn current_is_of(&self, group: Group) -> bool
        ensures { result ≡ current_is (is_of tag_of group) self.now }
    {
        matches!(self.stack.current(), Some(top) if group.has(top.name.tag()))
    }

    /// Whether the current node is a table, tbody, tfoot, thead or tr.
    pub fn current_fosters(&self) -> bool
        ensures { result ≡ current_is (λ x. is_fostering (tag_of x.name)) self.now }
    {
        matches!(self.stack.current(), Some(top) if fosters(top.name.tag()))
    }

    /// Whether an element of a name is in a scope.
    pub fn in_scope(&self, scope: Scope, name: NameId) -> bool
        ensures { result ≡ is_in_scope (stops_node tag_of scope) (is_named nat_eq name) (stack self.now) }
    {
        self.stack.in_scope(scope, name)
    }

    /// Whether an element of a group is in a scope.
    pub fn group_in_scope(&self, scope: Scope, group: Group) -> bool
        ensures { result ≡ is_in_scope (stops_node tag_of scope) (is_of tag_of group) (stack self.now) }
    {
        self.stack.group_in_scope(scope, group)
    }

    /// The nearest open node of a group below html.
    pub fn nearest_below_first(&self, group: Group) -> Option<Open>
        ensures node { option_map open_of result ≡ find (is_of tag_of group) (take (length (stack self.now) - 1) (stack self.now)) }
        ensures made { IfSome result (λ x. (0 < x.node) × (x.node < self.now.nodes.made)) }
    {
        self.stack.nearest_below_first(group)
    }

    /// Whether a node is in scope.
    pub fn node_in_scope(&self, node: NodeId) -> bool
        ensures { result ≡ is_in_scope (stops_node tag_of Default) (is_node node) (stack self.now) }
    {
        self.stack.node_in_scope(node)
    }

    /// Whether, going up from the current node, an element of a name comes before a special one other than address, div and p: what
    /// the start tags li, dd and dt ask.
    pub fn item_is_near(&self, name: NameId) -> bool
        ensures { result ≡ is_in_scope (λ x. stops_item (tag_of x.name)) (is_named nat_eq name) (stack self.now) }
    {
        self.stack.item_is_near(name)
    }

    pub(crate) fn furthest_block(&self, formatting: NodeId) -> Option<Open>
        ensures { option_map open_of result ≡ furthest_block tag_of formatting (stack self.now) }
    {
        self.stack.furthest_block(formatting)
    }

    /// Whether each open node may be open at the end of the body.
    pub fn all_may_stay_open(&self) -> bool
        ensures { result ≡ list_all (λ x. may_stay_open (tag_of x.name)) (stack self.now) }
    {
        self.stack.all_may_stay_open()
    }

    /// The node of the last entry of a name after the last marker.
    pub fn find(&self, name: NameId) -> Option<NodeId>
        ensures { result ≡ option_map (λ e. e.node) (find_entry nat_eq name self.now.items) }
    {
        Some(self.list.find(name)?.node)
    }
}
