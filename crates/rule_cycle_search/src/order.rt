//! The order in which nodes are best put into parts.
ghost use Rattle.std.specs.Prelude.{◌≤◌, ◌+◌, length, OnOk};
ghost use Rattle.rule_cycle_search.specs.Order.{to_enter};

use crate::graph::listed;
use std::alloc::{AllocError, Global};

/// A step of a depth-first search.
#[derive(Clone, Copy)]
pub(crate) enum Visit {
    Enter(usize),
    Leave(usize),
}

/// Enters a node if it was not entered before: what it refers to is visited, then it is left.
fn enter(
    references: &[Vec<usize>],
    node: usize,
    entered: &mut [bool],
    pending: &mut Vec<Visit>,
) -> Result<(), AllocError>
    ensures { OnOk result (to_enter entered.new references.now + length pending.new.items ≤ to_enter entered.old references.now + length pending.old.items) }
{
    if node >= entered.len() || entered[node] {
        return Ok(());
    }
    entered[node] = true;
    pending.push(Visit::Leave(node))?;
    for next in listed(references, node) {
        pending.push(Visit::Enter(*next))?;
    }
    Ok(())
}

/// The nodes in the order in which a depth-first search leaves them: if one leads to another that does not lead back,
/// the other comes first.
pub(crate) fn finishing_order(
    alloc: Global,
    references: &[Vec<usize>],
) -> Result<Vec<usize>, AllocError> {
    let mut order = Vec::new(alloc);
    let mut entered = Vec::new(alloc);
    let mut pending = Vec::new(alloc);
    for node in 0..references.len() {
        entered.push(false)?;
        pending.push(Visit::Enter(node))?;
    }
    while let Some(visit) = pending.pop() {
        match visit {
            Visit::Enter(node) => enter(references, node, &mut entered, &mut pending)?,
            Visit::Leave(node) => order.push(node)?,
        }
    }
    Ok(order)
}
