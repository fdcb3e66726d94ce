//! Merging by itself, operation by operation.

use crate::judged::Judged;
use crate::rules::Rules;
use crate::told::{push_returned, push_told};
use graphql_documents::ExecutableDocument;
use graphql_faults::DiagnosticList;
use row_building::Schema;
use row_files::{Answer, Case, Problem, number, says};

/// Adds what does not merge in each operation, in order, then whether the value that judges them is clean after each, and
/// how often it compared shapes, if the row wants another number.
pub(crate) fn push_merging<R: Rules>(
    judged: &Judged<'_, R>,
    schema: &Schema,
    document: &ExecutableDocument,
    answer: &mut Answer,
) -> Result<(), Problem> {
    let (alloc, case) = (judged.alloc, judged.case);
    let mut list = DiagnosticList::new(alloc);
    let mut cleans = Vec::new(alloc);
    let comparisons = judged
        .rules
        .merging(schema, document, &mut cleans, &mut list)?;
    if says(case.row, "returns", "yes")? {
        return push_returned(alloc, case, &list, answer);
    }
    push_told(alloc, case, &list, answer)?;
    push_cleans(&cleans, answer);
    push_comparisons(case, comparisons, answer)
}

/// Adds to the status whether the value is clean after each operation.
fn push_cleans(cleans: &[bool], answer: &mut Answer) {
    for is_clean in cleans {
        answer
            .status
            .put(if *is_clean { " clean" } else { " unclean" });
    }
}

/// Adds how often shapes were compared, if that is less or more than the row says.
fn push_comparisons(case: Case<'_>, comparisons: u128, answer: &mut Answer) -> Result<(), Problem> {
    let least = number(case.row, "at_least", "0")? as u128;
    let most = number(case.row, "at_most", "most")? as u128;
    if comparisons < least || comparisons > most {
        answer
            .text
            .show_between("comparisons: ", &comparisons, "\n");
    }
    Ok(())
}
