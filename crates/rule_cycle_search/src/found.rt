//! What is found of the roots.
ghost use Rattle.std.specs.Prelude.{◌≡◌, ◌<◌, ℕ, [], true, false, Contains, IfOk, IsTrue, replicate, slice_get, Some};
ghost use Rattle.rule_cycle_search.specs.Graph.{listed, references, AreTooMany, IsDeep};
ghost use Rattle.rule_cycle_search.specs.NodeSteps.{is_in, FindsIn};
ghost use Rattle.rule_cycle_search.specs.Referrers.{AreReferrers};
ghost use Rattle.rule_cycle_search.specs.Parts.{IsDivided};
ghost use Rattle.rule_cycle_search.specs.Found.{Finds, AreFound};
ghost use Rattle.rule_cycle_search.specs.declared.found.Found.TheVariants.{Nothing};

use crate::depths::find_depths;
use crate::graph::{Graph, listed};
use crate::order::finishing_order;
use crate::parts::{Divided, find_parts};
use crate::referrers::referrers;
use crate::steps::{Step, is_in};
use crate::ways::{follow, join};
use std::alloc::{AllocError, Global};

/// What is found of a root.
#[derive(Drop)]
pub enum Found {
    /// It does not lead back to itself.
    Nothing,
    /// These references lead from it back to it.
    Cycle(Vec<usize>),
    /// A path from it has more nodes of a kind than the bound.
    Deep,
}

/// Whether the path has more nodes of a kind than the bound.
fn is_long(graph: &Graph, way: &[usize]) -> bool
    ensures { result ≡ true → AreTooMany graph.now way.now }
{
    let bound = graph.bound as usize;
    let mut firsts = 0;
    for node in way {
        if *node < graph.first_kind {
            firsts += 1;
        }
    }
    firsts > bound || way.len() - firsts > bound
}

/// The first of these nodes that is in the part of this center.
fn first_in(steps: &[Step], center: usize, nodes: &[usize]) -> Option<usize>
    ensures { FindsIn steps.now center nodes.now result }
{
    for node in nodes {
        if is_in(steps, center, *node) {
            return Some(*node);
        }
    }
    None
}

/// The cycle from a root over a node that refers to it, where both are in the part of this center.
fn way_round(
    alloc: Global,
    divided: &Divided<'_>,
    center: usize,
    root: usize,
    last: usize,
) -> Result<Found, AllocError>
    requires whole { IsDivided divided.now }
    requires root_in { is_in divided.now.parts.now.from.items center root ≡ true }
    requires last_in { is_in divided.now.parts.now.from.items center last ≡ true }
    requires refers { Contains (references divided.now.graph.now last) root }
    ensures { IfOk result (λ found. Finds divided.now.graph.now root found) }
{
    let graph = divided.graph;
    let parts = divided.parts;
    let Some(mut ahead) = follow(alloc, &parts.toward, root, &[center], graph.bound)? else {
        return Ok(Found::Deep);
    };
    let Some(mut following) = follow(alloc, &parts.from, last, &ahead, graph.bound)? else {
        return Ok(Found::Deep);
    };
    join(&mut ahead, &mut following)?;
    if is_long(graph, &ahead) {
        return Ok(Found::Deep);
    }
    ahead.rotate_left(1);
    Ok(Found::Cycle(ahead))
}

/// What is found of a root: a cycle is over a node of its own part that refers to it. Where there is none, some
/// other path from it may be too long.
fn look_back(
    alloc: Global,
    divided: &Divided<'_>,
    referrers: &[Vec<usize>],
    root: usize,
    is_deep: bool,
) -> Result<Found, AllocError>
    requires referrers { AreReferrers divided.now.graph.now.references.items referrers.now }
    requires whole { IsDivided divided.now }
    requires deep { is_deep ≡ true → IsDeep divided.now.graph.now root }
    ensures { IfOk result (λ found. Finds divided.now.graph.now root found) }
{
    let from = &divided.parts.from;
    let Some(step) = from.get(root) else {
        return Ok(Found::Nothing);
    };
    match first_in(from, step.center, listed(referrers, root)) {
        None if is_deep => Ok(Found::Deep),
        None => Ok(Found::Nothing),
        Some(last) => way_round(alloc, divided, step.center, root, last),
    }
}

/// Whether the nodes on paths from a node were counted beyond the bound.
fn is_beyond(depths: &[usize], node: usize, bound: u32) -> bool
    ensures { result ≡ true → (n : ℕ) × ((slice_get depths.now node ≡ Some n) × (bound < n)) }
{
    match depths.get(node) {
        Some(depth) => *depth > bound as usize,
        None => false,
    }
}

/// Whether no node refers to another.
fn refer_to_nothing(references: &[Vec<usize>]) -> bool
    ensures { IsTrue result → (n : ℕ) → listed references.now n ≡ [] }
{
    for targets in references {
        if !targets.is_empty() {
            return false;
        }
    }
    true
}

/// Nothing is found of so many roots.
fn nothing(alloc: Global, roots: usize) -> Result<Vec<Found>, AllocError>
    ensures { IfOk result (λ all. all.items ≡ replicate roots Nothing) }
{
    let mut all = Vec::new(alloc);
    for _ in 0..roots {
        all.push(Found::Nothing)?;
    }
    Ok(all)
}

/// For each root, in order, whether it leads back to itself, and by which references; or that a path from it is too
/// long. It takes time linear in the references, and for each root no more than paths of bounded length take. It
/// fails only where memory is refused.
pub fn find_cycles(alloc: Global, graph: &Graph) -> Result<Vec<Found>, AllocError>
    ensures { IfOk result (λ all. AreFound graph.now all.items) }
{
    if refer_to_nothing(&graph.references) {
        return nothing(alloc, graph.roots);
    }
    let referrers = referrers(alloc, &graph.references)?;
    let order = finishing_order(alloc, &graph.references)?;
    let parts = find_parts(alloc, graph, &referrers, &order)?;
    let divided = Divided {
        graph,
        parts: &parts,
    };
    let firsts = find_depths(alloc, &divided, &order, true)?;
    let others = find_depths(alloc, &divided, &order, false)?;
    let mut all = Vec::new(alloc);
    for root in 0..graph.roots {
        let is_deep = is_beyond(&firsts, root, graph.bound)
            || is_beyond(&others, root, graph.bound);
        let found = look_back(alloc, &divided, &referrers, root, is_deep)?;
        all.push(found)?;
    }
    Ok(all)
}
