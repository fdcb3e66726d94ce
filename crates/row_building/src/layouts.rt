//! Rows of documents that are printed under each layout, read again and printed again.

use crate::copies::{document_is_copied, hash_of};
use crate::print::{Form, form_named, laid_out};
use graphql_names::FileId;
use graphql_read::parse_document;
use row_files::{Answer, Case, Lines, Problem, Tally, Way, compare, text_of};
use std::alloc::Global;
use tree_definitions::Document;

/// The layouts, by their words.
const LAYOUTS: [&str; 4] = ["line", "two", "four", "tab"];

/// Judges the row: each of its inputs, under each layout.
pub(crate) fn by_layouts(alloc: Global, case: Case<'_>, tally: &mut Tally) -> Result<(), Problem> {
    for input in &case.given.inputs {
        for layout in &LAYOUTS {
            by_layout(alloc, case, layout, input, tally)?;
        }
    }
    Ok(())
}

/// Judges the input under a layout. On one line it is to print the row's `flat`, or itself if there is none; under two
/// spaces what the row wants.
fn by_layout(
    alloc: Global,
    case: Case<'_>,
    layout: &str,
    input: &[u8],
    tally: &mut Tally,
) -> Result<(), Problem> {
    push_answer(alloc, text_of(case, input)?, layout, &mut tally.answer);
    let out = match layout {
        "line" => match case.given.flat.first() {
            Some(flat) => flat.as_slice(),
            None => input,
        },
        "two" => case.out,
        _ => {
            tally.answer.text.clear();
            &[]
        }
    };
    let wanted = Case { out, ..case };
    compare(wanted, Way::whole(layout, input, usize::MAX), tally)
}

/// Adds what is printed of the text under the layout, and whether that reads as the same document and is printed alike.
fn push_answer(alloc: Global, text: &str, layout: &str, answer: &mut Answer) {
    let form = form_named(layout).unwrap_or(Form::Unsaid);
    match parse_document(alloc, text, FileId(1), usize::MAX) {
        Ok(document) => push_printed(alloc, &document, form, answer),
        Err(_) => answer.status.put("1 the input is not read"),
    }
}

/// Adds what is printed of the document, and whether it is copied, and whether the printed text reads as the document and
/// is printed alike.
fn push_printed(alloc: Global, document: &Document, form: Form, answer: &mut Answer) {
    answer.text.show(&laid_out(document, form, 0));
    let status = if document_is_copied(document) {
        read_again(alloc, document, form, answer.text.as_str())
    } else {
        "1 a copy is another"
    };
    answer.status.put(status);
}

/// Whether the printed text reads as the document, apart from places and with its hash, and is printed alike.
fn read_again(alloc: Global, document: &Document, form: Form, printed: &str) -> &'static str {
    match parse_document(alloc, printed, FileId(2), usize::MAX) {
        Ok(again) if again == *document && hash_of(&again) == hash_of(document) => {
            printed_twice(alloc, &again, form, printed)
        }
        Ok(_) => "1 what is printed reads as another document",
        Err(_) => "1 what is printed is not read",
    }
}

/// Whether the document that was read again is printed alike.
fn printed_twice(alloc: Global, again: &Document, form: Form, printed: &str) -> &'static str {
    let mut twice = Lines::new(alloc);
    twice.show(&laid_out(again, form, 0));
    if twice.as_str() == printed {
        "0"
    } else {
        "1 what was read again is printed otherwise"
    }
}
