//! Fields that a set makes from a name.

use crate::lines::push_field;
use graphql_documents::{Field, FieldExt, NewFieldError, SelectionSet, SelectionSetExt};
use graphql_names::Name;
use row_building::{ExtendedType, FieldLookupError, Schema};
use row_files::{Answer, Case, Problem, text_of};
use std::alloc::Global;

/// Adds the field that a set on the row's type makes from the input, which is a name, or why it makes none.
pub(crate) fn push_new_field(
    alloc: Global,
    case: Case<'_>,
    schema: &Schema,
    input: &[u8],
    answer: &mut Answer,
) -> Result<(), Problem> {
    let text = text_of(case, input)?;
    let parent = name_of(alloc, case, case.row.needed("type")?.value)?;
    let name = name_of(alloc, case, text)?;
    let set = SelectionSet::new(alloc, parent);
    push_made(schema, set.new_field(alloc, schema, name), answer);
    Ok(())
}

/// The name that the text is.
fn name_of(alloc: Global, case: Case<'_>, text: &str) -> Result<Name, Problem> {
    match Name::new(alloc, text) {
        Ok(name) => Ok(name),
        Err(_) => Err(case.row.head.problem("a type or an input is no name")),
    }
}

/// Adds the field, or why it is not made.
fn push_made(schema: &Schema, made: Result<Field, NewFieldError<'_>>, answer: &mut Answer) {
    match made {
        Ok(field) => push_typed(schema, &field, answer),
        Err(NewFieldError::Lookup(error)) => push_missing(error, answer),
        Err(NewFieldError::Memory) => answer.status.put("4 out of memory"),
    }
}

/// Adds the line of the field, and that of the type inside its own, if the schema has it.
fn push_typed(schema: &Schema, field: &Field, answer: &mut Answer) {
    push_field("", field, &mut answer.text);
    match field.inner_type_def(schema) {
        Some(ty) => push_type("0", ty.name(), ty, answer),
        None => answer.status.put("0 no such type"),
    }
}

/// Adds why the set's type has no such field.
fn push_missing(error: FieldLookupError<'_>, answer: &mut Answer) {
    match error {
        FieldLookupError::NoSuchType => answer.status.put("1 no such type"),
        FieldLookupError::NoSuchField(name, ty) => push_type("1 no such field", name, ty, answer),
    }
}

/// Adds the status, and the kind of the type of this name.
fn push_type(status: &str, name: &Name, ty: &ExtendedType, answer: &mut Answer) {
    answer.status.put(status);
    answer.text.show_between("", name, " is ");
    answer.text.show_between("", &ty.describe(), "\n");
}
