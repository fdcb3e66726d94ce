//! What nodes refer to, and the first reference from one node to another.
ghost use Rattle.std.specs.Prelude.{◌≡◌, ◌++◌, [], ◌∷◌, map, IfOk, OnOk};
ghost use Rattle.std.specs.Option.{option_copied};
ghost use Rattle.rule_cycles.specs.Labels.{targets};
ghost use Rattle.rule_cycles.specs.References.{reference_view, AreFirsts, AddsNode, between};

use indexmap::IndexMap;
use rule_cycle_search::Graph;
use std::alloc::{AllocError, Global};

/// The most directives, or types, on a path.
pub(crate) const BOUND: u32 = 32;

/// A reference to a node by its number, and what makes it (its label).
#[derive(Drop)]
pub struct Reference<L> {
    pub to: usize,
    pub by: L,
}

/// What nodes refer to, and the label of the first reference from each node to each other.
#[derive(Drop)]
pub struct References<L> {
    pub graph: Graph,
    firsts: Vec<IndexMap<usize, L>>,
}

/// The targets of these references.
fn targets_of<L>(alloc: Global, references: &[Reference<L>]) -> Result<Vec<usize>, AllocError>
    ensures { IfOk result (λ r. r.items ≡ targets (map reference_view references.now)) }
{
    let mut targets = Vec::new(alloc);
    for reference in references {
        targets.push(reference.to)?;
    }
    Ok(targets)
}

/// Notes a reference, if it is the first to its node.
fn note_first<L: Drop>(
    firsts: &mut IndexMap<usize, L>,
    reference: Reference<L>,
) -> Result<(), AllocError>
    ensures { (before : _) → AreFirsts firsts.old before → OnOk result (AreFirsts firsts.new (before ++ reference_view reference ∷ [])) }
{
    if firsts.contains_key(&reference.to) {
        return Ok(());
    }
    firsts.insert(reference.to, reference.by)?;
    Ok(())
}

/// For each node the label of the first of these references to it.
fn firsts_of<L: Drop>(
    alloc: Global,
    references: Vec<Reference<L>>,
) -> Result<IndexMap<usize, L>, AllocError>
    ensures { IfOk result (λ m. AreFirsts m (map reference_view references.items)) }
{
    let mut firsts = IndexMap::new(alloc);
    for reference in references {
        note_first(&mut firsts, reference)?;
    }
    Ok(firsts)
}

impl<L: Drop> References<L> {
    /// No node yet, in a graph with so many nodes of the first kind and so many roots, and this bound on paths.
    pub fn new(alloc: Global, first_kind: usize, roots: usize, bound: u32) -> Self
        ensures references { result.graph.references.items ≡ [] }
        ensures firsts { result.firsts.items ≡ [] }
        ensures first_kind { result.graph.first_kind ≡ first_kind }
        ensures roots { result.graph.roots ≡ roots }
        ensures bound { result.graph.bound ≡ bound }
    {
        References {
            graph: Graph {
                references: Vec::new(alloc),
                first_kind,
                roots,
                bound,
            },
            firsts: Vec::new(alloc),
        }
    }

    /// Adds the next node, which has these references.
    pub fn push(&mut self, alloc: Global, references: Vec<Reference<L>>) -> Result<(), AllocError>
        ensures { OnOk result (AddsNode self.old self.new (map reference_view references.items)) }
    {
        let targets = targets_of(alloc, &references)?;
        let firsts = firsts_of(alloc, references)?;
        self.graph.references.push(targets)?;
        self.firsts.push(firsts)?;
        Ok(())
    }

    /// The label of the first reference from one node to another, if there is one.
    pub fn first(&self, from: usize, to: usize) -> Option<&L>
        ensures { option_copied result ≡ between self.now from to }
    {
        self.firsts.get(from)?.get(&to)
    }
}
