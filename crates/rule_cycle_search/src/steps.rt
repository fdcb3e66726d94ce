//! Steps to and from the centers of parts.
ghost use Rattle.std.specs.Prelude.{◌≡◌};
ghost use Rattle.rule_cycle_search.specs.NodeSteps.{is_in, via_at};

/// One step on a path to or from the center of a part.
#[derive(Clone, Copy)]
pub(crate) struct Step {
    /// The center; the number of all nodes if it is not known yet.
    pub(crate) center: usize,
    /// The next node on the path.
    pub(crate) via: usize,
}

/// Whether the step of a node has this center; what is no node has no step.
pub(crate) fn is_in(steps: &[Step], center: usize, node: usize) -> bool
    ensures { result ≡ is_in steps.now center node }
{
    match steps.get(node) {
        Some(step) => step.center == center,
        None => false,
    }
}

/// Where the step of a node leads.
pub(crate) fn via_at(steps: &[Step], node: usize) -> usize
    ensures { result ≡ via_at steps.now node }
{
    match steps.get(node) {
        Some(step) => step.via,
        None => node,
    }
}
