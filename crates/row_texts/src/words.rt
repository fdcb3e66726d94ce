//! Answers in words.

use checker_calls::{CheckError, Layout, Refusal, Verdict};
use graphql_faults::DiagnosticList;
use graphql_names::{FileId, SourceSpan};
use row_files::{Answer, Lines};
use std::alloc::AllocError;

/// Adds a text that is written under the layout, ended as a line if it is on one line.
pub(crate) fn push_text(
    written: Result<String, AllocError>,
    layout: Layout<'_>,
    answer: &mut Answer,
) {
    let end = match layout {
        Layout::OneLine => "\n",
        Layout::Indented(_) => "",
    };
    match written {
        Ok(text) => answer.text.show_between("", &text, end),
        Err(_) => answer.status.put("4 out of memory"),
    }
}

/// Adds the answer of `check_texts`.
pub(crate) fn push_verdict(verdict: &Result<Verdict, CheckError>, answer: &mut Answer) {
    match verdict {
        Ok(Verdict::Accepted) => answer.show("0", &"accepted\n"),
        Ok(Verdict::Refused(list)) => push_refused(list, answer),
        Err(CheckError::Memory) => answer.status.put("4 out of memory"),
    }
}

/// Adds the answer of a refusal.
pub(crate) fn push_refusal(refusal: &Refusal, answer: &mut Answer) {
    match refusal {
        Refusal::Faults(list) => push_refused(list, answer),
        Refusal::Memory => answer.status.put("4 out of memory"),
        Refusal::Failed => answer.status.put("4 failed"),
    }
}

/// Adds the answer that tells these faults.
fn push_refused(list: &DiagnosticList, answer: &mut Answer) {
    answer.text.put("refused\n");
    for (place, details) in list.iter() {
        push_place(*place, &mut answer.text);
        answer.text.show_between(": ", details, "\n");
    }
    answer.status.put("1");
}

/// Adds where a fault is; what is built in has no place.
fn push_place(place: Option<SourceSpan>, lines: &mut Lines) {
    match place {
        Some(span) if span.file_id != FileId::BUILT_IN => {
            lines.show_between("", &span.file_id.0, ":");
            lines.show(&span.offset);
        }
        _ => lines.put("-"),
    }
}
