//! Schemas that are built, and written out.

use crate::building::Built;
use crate::extended::push_extended;
use graphql_schema::Schema;
use row_files::{Answer, push_faults};
use std::alloc::{AllocError, Global};
use tree_literals::Tree;

/// Adds what is built: the written schema, or its faults; or what `extended` tells of it. For `orphans` the answer has all
/// but the status.
pub(crate) fn push_built(
    alloc: Global,
    call: &str,
    built: &Built,
    answer: &mut Answer,
) -> Result<(), AllocError> {
    if call == "orphans" {
        answer.status.put("0");
    } else if call == "extended" {
        push_extended(alloc, &built.schema, &mut answer.text)?;
        answer.status.put("0");
    } else if built.faults.is_empty() {
        push_schema(alloc, &built.schema, answer)?;
    } else {
        push_faults(&built.faults, answer);
    }
    Ok(())
}

/// Adds the schema on one line, as it is written, and whether that is writable.
fn push_schema(alloc: Global, schema: &Schema, answer: &mut Answer) -> Result<(), AllocError> {
    let document = schema.to_ast(alloc)?;
    let status = if document.is_writable() {
        "0 writable"
    } else {
        "0 not writable"
    };
    answer.show(status, &document.serialize().no_indent());
    Ok(())
}
