//! Calls of a tree.

ghost use Rattle.std.specs.Prelude.{◌<◌};

use crate::hand::{Hand, PLACE};
use crate::words::Call;
use hnodes::{DocumentType, NodeId, Place, Tree};
use hwrite::{Escaping, serialize_to_vec, tree_text};
use names::Refusal;

/// Makes a call. Whether all is as it should be after it.
pub fn call(hand: &mut Hand, call: &Call) -> Result<bool, Refusal> {
    let (node, last) = (hand.node(1), hand.tree.made() as usize - 1);
    match call.word(1) {
        "new" => hand.tree = Tree::new(hand.alloc, call.number(3).clamp(1, 1 << 24) as u32)?,
        "fill" => return grow(hand, 0),
        "nest" => return grow(hand, last),
        "element" => {
            let name = hand.name(call.turn)?;
            let attrs = hand.attrs(call.turn, 0)?;
            hand.tree.create_element(name, attrs, PLACE)?;
        }
        "doctype" => make_doctype(hand)?,
        "append" | "move" => return Ok(move_nodes(hand, call)),
        "attr" | "missing" => return add(hand, node, call),
        "nodes" => return has_nodes(hand, node),
        "char" => hand.tree.put_char('c', Place::LastIn(node), PLACE)?,
        "text" => hand.tree.put_text("text", Place::LastIn(node), PLACE)?,
        _ => return is_written(hand, node),
    }
    Ok(true)
}

/// Makes a comment below a node. Whether it is its last child.
fn grow(hand: &mut Hand, parent: usize) -> Result<bool, Refusal> {
    let parent = hand.node(parent);
    let tree = &mut hand.tree;
    let child = tree.create_comment(String::from_str(hand.alloc, "text")?, PLACE)?;
    tree.append(child, parent);
    Ok(tree.last_child(parent) == Some(child))
}

fn make_doctype(hand: &mut Hand) -> Result<(), Refusal> {
    let alloc = hand.alloc;
    let doctype = DocumentType {
        name: String::from_str(alloc, "html")?,
        public_id: String::from_str(alloc, "public")?,
        system_id: String::from_str(alloc, "system")?,
    };
    hand.tree.create_doctype(doctype, PLACE)?;
    Ok(())
}

/// Moves a node, or the children of one. Whether it may be.
fn move_nodes(hand: &mut Hand, call: &Call) -> bool {
    let (node, to) = (hand.node(call.number(3)), hand.node(call.number(4)));
    let tree = &mut hand.tree;
    if tree.is_inside(to, node) {
        return false;
    }
    match call.word(1) {
        "move" => tree.move_children(node, to),
        _ if node != tree.document() => tree.append(node, to),
        _ => return false,
    }
    true
}

/// Gives a node an attribute that it has not, or may have. Whether it has as many as names were given.
fn add(hand: &mut Hand, node: NodeId, call: &Call) -> Result<bool, Refusal>
    requires { node < hand.old.tree.made }
{
    let attr = hand.attr(call.turn, 1)?;
    match call.word(1) {
        "attr" => hand.tree.add_attr(node, attr)?,
        _ => hand.tree.add_missing_attr(node, attr)?,
    }
    let attrs = hand.tree.attrs(node);
    Ok(attrs.is_some_and(|attrs| call.turn < attrs.len()))
}

/// Whether what is in a node is written, as HTML and as a printed tree.
fn is_written(hand: &Hand, node: NodeId) -> Result<bool, Refusal>
    requires { node < hand.now.tree.made }
{
    let text = tree_text(hand.alloc, &hand.tree, &hand.names, node)?;
    let html = serialize_to_vec(hand.alloc, &hand.tree, &hand.names, node, Escaping::One)?;
    Ok(!text.is_empty() && !html.is_empty())
}

/// Whether there are nodes in a node, no more of them elements, and nodes that it is in.
fn has_nodes(hand: &Hand, node: NodeId) -> Result<bool, Refusal>
    requires { node < hand.now.tree.made }
{
    let children: Vec<NodeId> = hand.tree.children(node).collect(hand.alloc)?;
    let elements: Vec<NodeId> = hand.tree.child_elements(node).collect(hand.alloc)?;
    let above: Vec<NodeId> = hand.tree.ancestors(node).collect(hand.alloc)?;
    Ok(elements.len() <= children.len() && !children.is_empty() && !above.is_empty())
}
