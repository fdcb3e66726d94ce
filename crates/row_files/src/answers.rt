//! Answers that tell faults, and how an answer is judged.

use crate::case::{Answer, Case, Tally, Way, compare};
use crate::lines::Lines;
use crate::problem::Problem;
use graphql_names::SourceSpan;
use std::fmt::Display;

/// Judges what the row's call answers, for an input if it has one.
pub fn judge(case: Case<'_>, input: &[u8], tally: &mut Tally) -> Result<(), Problem> {
    compare(case, Way::whole(case.call, input, 500), tally)
}

/// Adds a line for each fault, in order. The status tells whether there is one.
pub fn push_faults<T: Display + Drop>(faults: &[(Option<SourceSpan>, T)], answer: &mut Answer) {
    for (place, error) in faults {
        push_place(*place, &mut answer.text);
        answer.text.show_between(": ", error, "\n");
    }
    let status = if faults.is_empty() { "0" } else { "1" };
    answer.status.put(status);
}

/// Adds where a fault is.
fn push_place(place: Option<SourceSpan>, lines: &mut Lines) {
    match place {
        None => lines.put("-"),
        Some(span) => {
            lines.show_between("", &span.file_id.0, ":");
            lines.show(&span.offset);
        }
    }
}
