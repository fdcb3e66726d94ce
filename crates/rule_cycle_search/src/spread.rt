//! All that a node leads to.
ghost use Rattle.std.specs.Prelude.{◌≡◌, ◌<◌, ℕ, length, OnOk, true, false};
ghost use Rattle.rule_cycle_search.specs.Graph.{listed};
ghost use Rattle.rule_cycle_search.specs.NodeSteps.{is_in};
ghost use Rattle.rule_cycle_search.specs.Spread.{Reaches, Spreads};

use crate::graph::listed;
use crate::steps::{Step, is_in};
use std::alloc::{AllocError, Global};

/// The nodes that a search may visit: those whose step among these has the key as its center.
#[derive(Clone, Copy)]
pub(crate) struct Area<'a> {
    pub(crate) steps: &'a [Step],
    pub(crate) key: usize,
}

/// Visits those listed in the area that have no step to the center yet, and gives each of them this step.
fn reach(
    targets: &[usize],
    area: &Area<'_>,
    step: Step,
    steps: &mut [Step],
    reached: &mut Vec<usize>,
) -> Result<(), AllocError>
    requires { length area.now.steps.now ≡ length steps.old }
    ensures { OnOk result (Reaches area.now.steps.now area.now.key step.center step.via targets.now steps.old steps.new reached.old.items reached.new.items) }
{
    for next in targets {
        if is_in(area.steps, area.key, *next) && !is_in(steps, step.center, *next) {
            steps[*next] = step;
            reached.push(*next)?;
        }
    }
    Ok(())
}

/// Gives all nodes to which these lists lead from the center, through nodes of the area, a step back to it.
pub(crate) fn spread(
    alloc: Global,
    lists: &[Vec<usize>],
    area: &Area<'_>,
    center: usize,
    steps: &mut [Step],
) -> Result<(), AllocError>
    requires within { center < length steps.old }
    requires same { length area.now.steps.now ≡ length steps.old }
    requires fresh { (n : ℕ) → is_in steps.old center n ≡ false }
    ensures { OnOk result (Spreads lists.now area.now.steps.now area.now.key center steps.old steps.new) }
{
    steps[center] = Step {
        center,
        via: center,
    };
    // Most nodes refer to nothing.
    if listed(lists, center).is_empty() {
        return Ok(());
    }
    let mut reached = Vec::new(alloc);
    reached.push(center)?;
    let mut at = 0;
    while at < reached.len() {
        let node = reached[at];
        let step = Step { center, via: node };
        reach(listed(lists, node), area, step, steps, &mut reached)?;
        at += 1;
    }
    Ok(())
}
