//! The plans that a row asks for, and what it wants by each.

use crate::case::{Case, Tally, Way, compare};
use crate::lines::Lines;
use crate::plan::{Plan, endings, whole};
use crate::problem::Problem;
use crate::row_file::Row;
use crate::settings::{number, says};
use std::alloc::{AllocError, Global};

/// Adds the plans of the row: at each number of bytes a call and for each ending, the writer ends where the output,
/// which has this length, does; and if the row says `write: each`, also after each smaller number of bytes.
pub(crate) fn push_plans(
    row: Row<'_>,
    steps: &[usize],
    out: usize,
    list: &mut Vec<Plan>,
) -> Result<(), Problem> {
    let text = number(row, "following", "most")?;
    let is_each = says(row, "write", "each")?;
    let least = if is_each { 0 } else { out };
    for step in steps {
        let plan = Plan {
            text,
            step: *step,
            ..whole()
        };
        push_cuts(list, plan, least, out)?;
    }
    Ok(())
}

/// Adds the plan with each ending, and with a writer that ends after each number of bytes from the least to the most.
fn push_cuts(
    list: &mut Vec<Plan>,
    plan: Plan,
    least: usize,
    most: usize,
) -> Result<(), AllocError> {
    for write in least..=most {
        for ending in endings() {
            list.push(Plan {
                write,
                ending,
                ..plan
            })?;
        }
    }
    Ok(())
}

/// Compares the answer with a plan: if its writer ends before the output does, so many bytes are written.
pub fn compare_cut(
    alloc: Global,
    case: Case<'_>,
    way: Way<'_>,
    tally: &mut Tally,
) -> Result<(), Problem> {
    let write = way.plan.write;
    match case.out.get(..write) {
        Some(out) if out.len() < case.out.len() => {
            let mut status = Lines::new(alloc);
            status.show_between("3 output failed ", &write, "");
            let status = status.as_str();
            let wanted = Case {
                status,
                out,
                ..case
            };
            compare(wanted, way, tally)
        }
        _ => compare(case, way, tally),
    }
}
