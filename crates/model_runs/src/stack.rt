//! Calls of the stack of open elements.

use crate::hand::{Hand, PLACE};
use crate::words::Call;
use hopen::{Group, Open, OpenStack, Scope};
use names::Refusal;

/// Makes a call. Whether the topmost node is then found, and no heading.
pub fn call(stack: &mut OpenStack, hand: &mut Hand, call: &Call) -> Result<bool, Refusal> {
    let turn = call.turn;
    match call.word(1) {
        "push" => stack.push(hand.open(turn, turn)?, PLACE)?,
        "pop" => drop(stack.pop()),
        "exchange" => exchange(stack, hand, turn)?,
        word => change(stack, hand, word, turn)?,
    }
    Ok(match stack.from_top(0) {
        Some(top) => is_found(stack, top),
        None => stack.len() == 0,
    })
}

/// A node gives way to a new one of its name below the node that was right below it.
fn exchange(stack: &mut OpenStack, hand: &mut Hand, turn: usize) -> Result<(), Refusal> {
    let leaving = turn.saturating_mul(2).saturating_add(1);
    let new = hand.open(stack.len().saturating_add(turn), leaving)?;
    let (leaving, above) = (hand.node(leaving), hand.node(leaving.saturating_add(1)));
    if stack.contains(leaving) {
        stack.exchange(leaving, above, new)?;
    }
    Ok(())
}

/// Changes what is right above the current node.
fn change(stack: &mut OpenStack, hand: &mut Hand, word: &str, turn: usize) -> Result<(), Refusal> {
    let number = stack.len().saturating_add(turn);
    let new = hand.open(number, number)?;
    let near = match stack.current() {
        Some(current) => stack.above(current.node).map_or(new.node, |open| open.node),
        None => new.node,
    };
    match word {
        "replace" => stack.replace(near, new)?,
        _ => stack.remove(near),
    }
    Ok(())
}

/// What is asked of the topmost node, of its name, which no other has, and of all.
fn is_found(stack: &OpenStack, top: Open) -> bool {
    stack.contains(top.node)
        && stack.above(top.node).is_none()
        && stack.node_in_scope(top.node)
        && stack.in_scope(Scope::Table, top.name)
        && stack.before_special(top.name)
        && stack.item_is_near(top.name)
        && stack.nearest(top.name).is_some()
        && stack.current().is_some()
        && stack.all_may_stay_open() == (stack.len() == 1)
        && !stack.group_in_scope(Scope::Default, Group::Heading)
        && stack.nearest_below_first(Group::TellsMode).is_none()
}
