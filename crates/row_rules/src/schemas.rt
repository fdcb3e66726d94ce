//! Schemas that are judged as a whole.

use crate::copies::push_in_order;
use crate::judged::Judged;
use crate::rules::Rules;
use graphql_faults::DiagnosticList;
use row_building::Schema;
use row_files::{Answer, Lines, Problem, number};

/// Adds what breaks a rule in the schema, or in as many of its types as the row says; before that the scalars that are
/// left or noted, if the call asks for them.
pub(crate) fn push_rules<R: Rules>(
    judged: &Judged<'_, R>,
    schema: &mut Schema,
    answer: &mut Answer,
) -> Result<(), Problem> {
    let (alloc, case) = (judged.alloc, judged.case);
    schema.types.truncate(number(case.row, "types", "most")?);
    let mut list = DiagnosticList::new(alloc);
    judged.rules.schema(schema, &mut list)?;
    match case.call {
        "kept" => push_scalars(schema, &mut answer.text),
        "noted" => judged.rules.push_noted(schema, &mut answer.text),
        _ => {}
    }
    push_in_order(alloc, &list, answer);
    Ok(())
}

/// Adds the name of each scalar among the types, a line each.
fn push_scalars(schema: &Schema, lines: &mut Lines) {
    for ty in schema.types.values() {
        if ty.is_scalar() {
            lines.show_between("", ty.name(), "\n");
        }
    }
}
