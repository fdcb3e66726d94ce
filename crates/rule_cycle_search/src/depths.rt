//! How many nodes of a kind are on the paths from a node of which each step leads to another part.
ghost use Rattle.std.specs.Prelude.{◌≡◌, ℕ, Bool, IfOk};
ghost use Rattle.rule_cycle_search.specs.Graph.{is_of};
ghost use Rattle.rule_cycle_search.specs.Parts.{IsDivided};
ghost use Rattle.rule_cycle_search.specs.Depths.{HasWay, AreCounted};

use crate::graph::listed;
use crate::parts::Divided;
use crate::steps::is_in;
use std::alloc::{AllocError, Global};

/// How many nodes of a kind are on a path that goes from a node to another part; the node counts if it is of that kind.
fn depth_of(divided: &Divided<'_>, node: usize, counts: bool, depths: &[usize]) -> usize
    requires { IsDivided divided.now }
    ensures { (kind : ℕ → Bool) → kind node ≡ counts → AreCounted divided.now.graph.now kind depths.now → HasWay divided.now.graph.now kind node result }
{
    let from = &divided.parts.from;
    let Some(step) = from.get(node) else {
        return 0;
    };
    let mut most = 0;
    for next in listed(&divided.graph.references, node) {
        if *next < depths.len() && depths[*next] > most && !is_in(from, step.center, *next) {
            most = depths[*next];
        }
    }
    if counts && most <= divided.graph.bound as usize {
        most += 1;
    }
    most
}

/// Counts for each node of the order. It is best if what a node refers to comes before the node.
fn deepen(divided: &Divided<'_>, order: &[usize], first: bool, depths: &mut [usize])
    requires whole { IsDivided divided.now }
    requires counted { AreCounted divided.now.graph.now (is_of divided.now.graph.now first) depths.old }
    ensures { AreCounted divided.now.graph.now (is_of divided.now.graph.now first) depths.new }
{
    for node in order {
        if *node < depths.len() {
            let counts = (*node < divided.graph.first_kind) == first;
            depths[*node] = depth_of(divided, *node, counts, depths);
        }
    }
}

/// For each node, how many nodes of the first kind, or of the other, a path from it has, counted to one beyond the bound.
pub(crate) fn find_depths(
    alloc: Global,
    divided: &Divided<'_>,
    order: &[usize],
    first: bool,
) -> Result<Vec<usize>, AllocError>
    requires { IsDivided divided.now }
    ensures { IfOk result (λ depths. AreCounted divided.now.graph.now (is_of divided.now.graph.now first) depths.items) }
{
    let mut depths = Vec::new(alloc);
    for _ in &divided.graph.references {
        depths.push(0)?;
    }
    deepen(divided, order, first, &mut depths);
    Ok(depths)
}
