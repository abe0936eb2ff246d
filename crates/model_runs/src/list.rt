//! Calls of the list of active formatting elements.

use crate::hand::Hand;
use crate::words::Call;
use hnodes::Attributes;
use hopen::{Formatting, Open};
use names::{Attr, Refusal};
use std::alloc::AllocError;

/// Makes a call. Whether the entry that it is of is then found, or is not.
pub fn call(list: &mut Formatting, hand: &mut Hand, call: &Call) -> Result<bool, Refusal> {
    match call.word(1) {
        "marker" => list.marker()?,
        "clear" => list.clear(),
        "get" => {
            list.reach(call.turn);
            return Ok(list.get(call.turn).is_some());
        }
        "remove" | "replace" => return edit(list, hand, call),
        _ => return push(list, hand, call),
    }
    Ok(true)
}

fn push(list: &mut Formatting, hand: &mut Hand, call: &Call) -> Result<bool, Refusal> {
    let turn = call.turn;
    let named = call.word(1) == "push";
    let Open { node, name } = hand.open(turn, if named { turn } else { 0 })?;
    let attrs = match call.word(1) {
        "alike" => alike(hand, turn)?,
        "wide" => hand.attrs(call.number(3), turn)?,
        _ => Vec::new(hand.alloc),
    };
    list.push(node, name, Attributes::new(attrs, hand.alloc)?)?;
    Ok(list.entry_of(node).is_some() && list.find(name).is_some())
}

/// Two attributes: what the value of one gains from list to list the other loses. Four lists after one another are equal.
fn alike(hand: &mut Hand, turn: usize) -> Result<Vec<Attr>, AllocError> {
    let mut attrs = Vec::new(hand.alloc);
    attrs.push(hand.attr(1, turn / 4)?)?;
    attrs.push(hand.attr(2, 999_999usize.saturating_sub(turn / 4))?)?;
    Ok(attrs)
}

/// Takes out the entry of a node, or gives it to another: the numbers of the first nodes are in the line.
fn edit(list: &mut Formatting, hand: &mut Hand, call: &Call) -> Result<bool, Refusal> {
    let from = call.number(3).saturating_add(call.turn);
    let Open { node, name } = hand.open(from, from)?;
    let to = hand.node(call.number(4).saturating_add(call.turn));
    let replaced = call.word(1) == "replace";
    if replaced {
        list.replace(node, to);
    } else {
        list.remove(node);
    }
    Ok(list.entry_of(node).is_none() && list.find(name).is_some() == replaced)
}
