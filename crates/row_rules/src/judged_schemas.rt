//! Schemas over which documents are judged.

use crate::judged::Judged;
use crate::rules::Rules;
use graphql_faults::DiagnosticList;
use row_building::Built;
use row_files::Problem;

/// Judges the schema of a row, which must keep every rule. What it then has is what documents are judged over.
pub(crate) fn judge_schema<R: Rules>(
    judged: &Judged<'_, R>,
    built: &mut Built,
) -> Result<(), Problem> {
    let mut list = DiagnosticList::new(judged.alloc);
    judged.rules.schema(&mut built.schema, &mut list)?;
    if built.faults.is_empty() && list.is_empty() {
        Ok(())
    } else {
        Err(
            judged
                .case
                .row
                .head
                .problem("the schema of this row breaks a rule"),
        )
    }
}
