//! Sets of fields by themselves.

use crate::outline::push_set;
use graphql_documents::{FieldSet, FieldSetExt};
use graphql_names::{FileId, Name};
use row_building::{Schema, parse_selections};
use row_files::{Answer, Case, Problem, push_faults, read_of, text_of};
use std::alloc::{AllocError, Global};
use tree_operations::Selection;

/// Adds what is kept of the input, which must be readable, under the row's type, and what has no meaning.
pub(crate) fn push_kept_set(
    alloc: Global,
    case: Case<'_>,
    schema: &Schema,
    input: &[u8],
    answer: &mut Answer,
) -> Result<(), Problem> {
    let file = FileId(case.given.next_file());
    let text = text_of(case, input)?;
    let selections = read_of(case, parse_selections(alloc, text, file, 500))?;
    push_selections(alloc, case, schema, &selections, answer)
}

/// Adds what is kept of the selections.
fn push_selections(
    alloc: Global,
    case: Case<'_>,
    schema: &Schema,
    selections: &[Selection],
    answer: &mut Answer,
) -> Result<(), Problem> {
    let field = case.row.needed("type")?;
    match Name::new(alloc, field.value) {
        Ok(name) => Ok(push_under(alloc, schema, &name, selections, answer)?),
        Err(_) => Err(field.problem("this is no name")),
    }
}

/// Adds what is kept of the selections under the type of this name.
fn push_under(
    alloc: Global,
    schema: &Schema,
    name: &Name,
    selections: &[Selection],
    answer: &mut Answer,
) -> Result<(), AllocError> {
    let typed = FieldSet::from_ast(alloc, schema, name, selections)?;
    push_set(&typed.0.selection_set, 0, &mut answer.text);
    push_faults(&typed.1, answer);
    Ok(())
}
