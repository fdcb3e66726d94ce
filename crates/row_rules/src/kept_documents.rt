//! Documents that are built under a schema, or without one.

use crate::walks::push_kept;
use graphql_documents::{
    BuildError, ExecutableDocument, ExecutableDocumentBuilder, ExecutableDocumentExt,
};
use graphql_names::{FileId, SourceSpan};
use row_building::{Schema, document_of, schema_under};
use row_files::{Answer, Case, Problem, push_faults};
use std::alloc::{AllocError, Global};

/// Adds what is kept of the row's documents, or which of its fields the call lends, and what has no meaning.
pub(crate) fn push_documents(
    alloc: Global,
    case: Case<'_>,
    schema: &Schema,
    answer: &mut Answer,
) -> Result<(), Problem> {
    let mut builder = ExecutableDocument::builder(alloc, schema_under(case, schema)?);
    add_documents(alloc, case, &mut builder)?;
    match builder.build() {
        Ok(typed) => Ok(push_typed(alloc, case.call, &typed, answer)?),
        Err(_) => Err(Problem::Memory),
    }
}

/// Adds the row's documents, numbered after its schema texts, which must be readable.
fn add_documents(
    alloc: Global,
    case: Case<'_>,
    builder: &mut ExecutableDocumentBuilder<'_>,
) -> Result<(), Problem> {
    let mut file = case.given.next_file();
    for text in &case.given.documents {
        add_document(alloc, case, text, FileId(file), builder)?;
        file = file.wrapping_add(1);
    }
    Ok(())
}

/// Adds a document.
fn add_document(
    alloc: Global,
    case: Case<'_>,
    text: &[u8],
    file: FileId,
    builder: &mut ExecutableDocumentBuilder<'_>,
) -> Result<(), Problem> {
    let given = document_of(alloc, case, text, file)?;
    match builder.add_ast_document(&given.document) {
        Ok(()) => Ok(()),
        Err(_) => Err(Problem::Memory),
    }
}

/// What is kept of documents, and their faults.
type Typed = (ExecutableDocument, Vec<(Option<SourceSpan>, BuildError)>);

/// Adds the lines of what is kept, and those of the faults.
fn push_typed(
    alloc: Global,
    call: &str,
    typed: &Typed,
    answer: &mut Answer,
) -> Result<(), AllocError> {
    push_kept(alloc, call, &typed.0, &mut answer.text)?;
    push_faults(&typed.1, answer);
    Ok(())
}
