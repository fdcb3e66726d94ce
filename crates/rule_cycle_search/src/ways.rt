//! Paths along the steps of a part.
ghost use Rattle.std.specs.Prelude.{◌≡◌, ℕ, IfOk, OnOk, Contains};
ghost use Rattle.rule_cycle_search.specs.Ways.{Follows, Joins};

use crate::steps::{Step, via_at};
use std::alloc::{AllocError, Global};

/// Follows the steps from a node to the first of these, which is the last of the path. None if so many others come
/// before that more than the bound are of one kind.
pub(crate) fn follow(
    alloc: Global,
    steps: &[Step],
    start: usize,
    stops: &[usize],
    bound: u32,
) -> Result<Option<Vec<usize>>, AllocError>
    ensures { IfOk result (λ found. Follows steps.now stops.now bound start found) }
{
    let too_many = 2 * bound as usize + 1;
    let mut way = Vec::new(alloc);
    let mut node = start;
    for _ in 0..too_many {
        way.push(node)?;
        if stops.contains(&node) {
            return Ok(Some(way));
        }
        node = via_at(steps, node);
    }
    Ok(None)
}

/// Makes the whole cycle of a path and one that leads back to a node of it, given from its last node to its first.
pub(crate) fn join(ahead: &mut Vec<usize>, following: &mut [usize]) -> Result<(), AllocError>
    requires { (n : ℕ) × (Contains ahead.old.items n × Contains following.old n) }
    ensures { OnOk result (Joins ahead.old.items following.old ahead.new.items) }
{
    while let Some(node) = ahead.pop() {
        if following.contains(&node) {
            break;
        }
    }
    following.reverse();
    ahead.extend_from_slice(following)
}
