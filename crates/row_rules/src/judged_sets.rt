//! Sets of fields that are judged by themselves.

use crate::input::Input;
use crate::judged::Judged;
use crate::rules::Rules;
use crate::told::{push_told, push_typing};
use graphql_documents::{FieldSet, FieldSetExt};
use graphql_faults::DiagnosticList;
use graphql_names::{FileId, Name};
use row_building::{Schema, parse_selections};
use row_files::{Answer, Case, Problem, read_of};
use std::alloc::Global;
use tree_operations::Selection;

/// Adds what has no meaning in the input, selections that must be readable, under the row's type, and then what breaks a
/// rule in what is kept.
pub(crate) fn push_field_set<R: Rules>(
    judged: &Judged<'_, R>,
    schema: &Schema,
    input: Input<'_>,
    answer: &mut Answer,
) -> Result<(), Problem> {
    let (alloc, case) = (judged.alloc, judged.case);
    let file = FileId(case.given.next_file());
    let selections = read_of(
        case,
        parse_selections(alloc, input.text, file, input.nesting),
    )?;
    push_selections(judged, schema, &selections, answer)
}

/// The name of the row's type.
fn type_name(alloc: Global, case: Case<'_>) -> Result<Name, Problem> {
    let field = case.row.needed("type")?;
    match Name::new(alloc, field.value) {
        Ok(name) => Ok(name),
        Err(_) => Err(field.problem("this is no name")),
    }
}

/// Adds what is wrong with the selections under the row's type.
fn push_selections<R: Rules>(
    judged: &Judged<'_, R>,
    schema: &Schema,
    selections: &[Selection],
    answer: &mut Answer,
) -> Result<(), Problem> {
    let (alloc, case) = (judged.alloc, judged.case);
    let name = type_name(alloc, case)?;
    let (set, faults) = FieldSet::from_ast(alloc, schema, &name, selections)?;
    push_typing(alloc, &faults, answer)?;
    let mut list = DiagnosticList::new(alloc);
    judged.rules.field_set(schema, &set, &mut list)?;
    push_told(alloc, case, &list, answer)
}
