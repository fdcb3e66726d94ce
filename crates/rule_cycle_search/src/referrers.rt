//! References in reverse.
ghost use Rattle.std.specs.Prelude.{IfOk, OnOk};
ghost use Rattle.rule_cycle_search.specs.Referrers.{AddsReferrer, AreReferrers};

use crate::graph::listed;
use std::alloc::{AllocError, Global};

/// Adds a node to the list of each target to which it refers.
fn add_referrer(
    node: usize,
    targets: &[usize],
    referrers: &mut [Vec<usize>],
) -> Result<(), AllocError>
    ensures { OnOk result (AddsReferrer node targets.now referrers.old referrers.new) }
{
    for target in targets {
        if *target < referrers.len() {
            referrers[*target].push(node)?;
        }
    }
    Ok(())
}

/// What refers to each node.
pub(crate) fn referrers(
    alloc: Global,
    references: &[Vec<usize>],
) -> Result<Vec<Vec<usize>>, AllocError>
    ensures { IfOk result (λ r. AreReferrers references.now r.items) }
{
    let mut referrers = Vec::new(alloc);
    for _ in references {
        referrers.push(Vec::new(alloc))?;
    }
    for node in 0..references.len() {
        add_referrer(node, listed(references, node), &mut referrers)?;
    }
    Ok(referrers)
}
