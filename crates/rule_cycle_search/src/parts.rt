//! Parts of a graph: nodes that lead to each other.
ghost use Rattle.std.specs.Prelude.{◌≡◌, replicate, IfOk, OnOk};
ghost use Rattle.rule_cycle_search.specs.Referrers.{AreReferrers};
ghost use Rattle.rule_cycle_search.specs.Parts.{IsParted, IsWhole, Settles};

use crate::graph::Graph;
use crate::spread::{Area, spread};
use crate::steps::{Step, is_in};
use std::alloc::{AllocError, Global};

/// The steps of nodes to the centers of their parts, and back from there.
#[derive(Drop)]
pub(crate) struct Parts {
    pub(crate) toward: Vec<Step>,
    pub(crate) from: Vec<Step>,
}

/// A graph, and the parts into which it is divided.
#[derive(Clone, Copy)]
pub(crate) struct Divided<'a> {
    pub(crate) graph: &'a Graph,
    pub(crate) parts: &'a Parts,
}

/// Finds the part of a node, if it is in none yet: all that leads to the node, and to which the node leads.
fn settle(
    alloc: Global,
    graph: &Graph,
    referrers: &[Vec<usize>],
    node: usize,
    parts: &mut Parts,
) -> Result<(), AllocError>
    requires referrers { AreReferrers graph.now.references.items referrers.now }
    requires parted { IsParted graph.now parts.old.toward.items parts.old.from.items }
    ensures { OnOk result (Settles graph.now node parts.old.from.items parts.new.toward.items parts.new.from.items) }
{
    let unsettled = graph.references.len();
    if !is_in(&parts.from, unsettled, node) {
        return Ok(());
    }
    let left = Area {
        steps: &parts.from,
        key: unsettled,
    };
    spread(alloc, referrers, &left, node, &mut parts.toward)?;
    let leading = Area {
        steps: &parts.toward,
        key: node,
    };
    spread(alloc, &graph.references, &leading, node, &mut parts.from)
}

/// No step is known yet.
fn no_steps(alloc: Global, nodes: usize) -> Result<Vec<Step>, AllocError>
    ensures { IfOk result (λ r. r.items ≡ replicate nodes (record { center = nodes; via = nodes })) }
{
    let mut steps = Vec::new(alloc);
    for _ in 0..nodes {
        steps.push(Step {
            center: nodes,
            via: nodes,
        })?;
    }
    Ok(steps)
}

/// Finds the part of every node, first in this order, from last to first. In the order in which a depth-first search
/// leaves them, what leads to a node is no more than its part, so that each reference is followed a few times in all.
pub(crate) fn find_parts(
    alloc: Global,
    graph: &Graph,
    referrers: &[Vec<usize>],
    order: &[usize],
) -> Result<Parts, AllocError>
    requires { AreReferrers graph.now.references.items referrers.now }
    ensures { IfOk result (λ parts. IsWhole graph.now parts.toward.items parts.from.items) }
{
    let nodes = graph.references.len();
    let toward = no_steps(alloc, nodes)?;
    let from = no_steps(alloc, nodes)?;
    let mut parts = Parts { toward, from };
    for node in order.iter().rev() {
        settle(alloc, graph, referrers, *node, &mut parts)?;
    }
    for node in 0..nodes {
        settle(alloc, graph, referrers, node, &mut parts)?;
    }
    Ok(parts)
}
