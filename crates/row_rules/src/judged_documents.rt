//! Documents that are judged over a schema, or without one.

use crate::input::Input;
use crate::judged::Judged;
use crate::made::push_made;
use crate::merging::push_merging;
use crate::rules::Rules;
use crate::told::{push_told, push_typing};
use graphql_documents::{ExecutableDocument, ExecutableDocumentExt};
use graphql_faults::DiagnosticList;
use graphql_names::FileId;
use row_building::{Schema, parse_document};
use row_files::{Answer, Problem, read_of};

/// Adds what has no meaning in the input, a document that must be readable, and then what the call tells of what is
/// kept.
pub(crate) fn push_document<R: Rules>(
    judged: &Judged<'_, R>,
    schema: Option<&Schema>,
    input: Input<'_>,
    answer: &mut Answer,
) -> Result<(), Problem> {
    let (alloc, case) = (judged.alloc, judged.case);
    let file = FileId(case.given.next_file());
    let tree = read_of(case, parse_document(alloc, input.text, file, input.nesting))?;
    let mut builder = ExecutableDocument::builder(alloc, schema);
    if builder.add_ast_document(&tree).is_err() {
        return Err(Problem::Memory);
    }
    let Ok((document, faults)) = builder.build() else {
        return Err(Problem::Memory);
    };
    push_typing(alloc, &faults, answer)?;
    push_call(judged, schema, &document, answer)
}

/// Adds what the row's call tells of the document.
fn push_call<R: Rules>(
    judged: &Judged<'_, R>,
    schema: Option<&Schema>,
    document: &ExecutableDocument,
    answer: &mut Answer,
) -> Result<(), Problem> {
    let (alloc, case) = (judged.alloc, judged.case);
    match schema {
        Some(schema) if case.call == "merging" => push_merging(judged, schema, document, answer),
        Some(schema) if case.call == "made" => push_made(alloc, schema, document, answer),
        _ => {
            let mut list = DiagnosticList::new(alloc);
            judged.rules.document(schema, document, &mut list)?;
            push_told(alloc, case, &list, answer)
        }
    }
}
