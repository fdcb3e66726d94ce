//! Rows that are judged over the schema of their schema texts.

use crate::building::{Built, build};
use crate::coordinates::push_coordinate;
use crate::schemas::push_built;
use graphql_schema::Schema;
use row_files::{Case, Problem, Tally, judge};
use std::alloc::Global;

/// Judges the row over what its schema texts build.
pub(crate) fn by_schema_texts(
    alloc: Global,
    case: Case<'_>,
    tally: &mut Tally,
) -> Result<(), Problem> {
    match build(alloc, case, &mut tally.answer)? {
        Some(built) => by_built(alloc, case, &built, tally),
        None => judge(case, &[], tally),
    }
}

/// Judges what is built, or what each input of the row names in it.
fn by_built(
    alloc: Global,
    case: Case<'_>,
    built: &Built,
    tally: &mut Tally,
) -> Result<(), Problem> {
    if case.call == "coordinate" {
        return by_coordinates(alloc, case, &built.schema, tally);
    }
    push_built(alloc, case.call, built, &mut tally.answer)?;
    judge(case, &[], tally)
}

/// Judges what each input of the row names in the schema.
fn by_coordinates(
    alloc: Global,
    case: Case<'_>,
    schema: &Schema,
    tally: &mut Tally,
) -> Result<(), Problem> {
    for input in &case.given.inputs {
        push_coordinate(alloc, case, schema, input, &mut tally.answer)?;
        judge(case, input, tally)?;
    }
    Ok(())
}
