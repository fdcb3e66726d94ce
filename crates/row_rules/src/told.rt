//! What is told, in the order of places: in which order a call tells faults is not tested.

use crate::copies::push_copies;
use graphql_documents::BuildError;
use graphql_faults::DiagnosticList;
use graphql_names::SourceSpan;
use row_files::{Answer, Case, Problem, says};
use std::alloc::{AllocError, Global};
use std::fmt::Display;

/// A line that is told: the numbers of its file and its offset, and its text. Without a place both are 0.
type Told = (u64, usize, String);

/// Adds a line for each definition or selection without a meaning, in order.
pub(crate) fn push_typing(
    alloc: Global,
    faults: &[(Option<SourceSpan>, BuildError)],
    answer: &mut Answer,
) -> Result<(), AllocError> {
    for (place, error) in faults {
        let (_, _, text) = line_of(alloc, *place, "without a meaning: ", error)?;
        answer.text.show_between("", &text, "\n");
    }
    Ok(())
}

/// Adds a line for each fault, in the order of places. The status tells whether there is one, and before that whether the
/// copy of one differs.
pub(crate) fn push_told(
    alloc: Global,
    case: Case<'_>,
    list: &DiagnosticList,
    answer: &mut Answer,
) -> Result<(), Problem> {
    push_copies(alloc, list, answer);
    let lines = lines_of(alloc, list)?;
    answer.status.put(if lines.is_empty() { "0" } else { "1" });
    if says(case.row, "some", "yes")? && !lines.is_empty() && are_wanted(case, &lines) {
        push_wanted(case, answer);
    } else {
        push_lines(&lines, answer);
    }
    Ok(())
}

/// Adds that the call returned, and what the row wants if each fault is one of those.
pub(crate) fn push_returned(
    alloc: Global,
    case: Case<'_>,
    list: &DiagnosticList,
    answer: &mut Answer,
) -> Result<(), Problem> {
    let lines = lines_of(alloc, list)?;
    answer.status.put("returned");
    if are_wanted(case, &lines) {
        push_wanted(case, answer);
    } else {
        push_lines(&lines, answer);
    }
    Ok(())
}

/// Adds lines.
fn push_lines(lines: &[Told], answer: &mut Answer) {
    for (_, _, text) in lines {
        answer.text.show_between("", text, "\n");
    }
}

/// The lines of the faults, in the order of places.
fn lines_of(alloc: Global, list: &DiagnosticList) -> Result<Vec<Told>, AllocError> {
    let mut lines = Vec::new(alloc);
    for (place, details) in list.iter() {
        lines.push(line_of(alloc, *place, "", details)?)?;
    }
    lines.sort()?;
    Ok(lines)
}

/// The line of a fault, with these words in front of its message.
fn line_of<T: Display>(
    alloc: Global,
    place: Option<SourceSpan>,
    words: &str,
    fault: &T,
) -> Result<Told, AllocError> {
    match place {
        None => Ok((0, 0, format!(in alloc; "-: {words}{fault}")?)),
        Some(span) => {
            let file = span.file_id.0;
            let offset = span.offset;
            let text = format!(in alloc; "{file}:{offset}: {words}{fault}")?;
            Ok((file, offset, text))
        }
    }
}

/// The output that the row wants.
fn wanted_of(case: Case<'_>) -> &str {
    str::from_utf8(case.out).unwrap_or("")
}

/// Whether each line is one that the row wants.
fn are_wanted(case: Case<'_>, lines: &[Told]) -> bool {
    for (_, _, text) in lines {
        if !is_wanted(case, text) {
            return false;
        }
    }
    true
}

/// Whether the row wants the line.
fn is_wanted(case: Case<'_>, text: &str) -> bool {
    for line in wanted_of(case).lines() {
        if line == text {
            return true;
        }
    }
    false
}

/// Adds what the row wants, some of which is told.
fn push_wanted(case: Case<'_>, answer: &mut Answer) {
    answer.text.put(wanted_of(case));
}
