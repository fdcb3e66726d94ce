//! The calls that a program has rows for, and the fields that rows of each may have.

use crate::case::{Case, Tally};
use crate::problem::Problem;
use crate::row_file::{Field, Row};
use std::alloc::Global;

/// The calls that a program has rows for.
pub trait Calls {
    /// The fields that rows of the call may have apart from those of every row. None if there is no such
    /// call.
    fn names_of(&self, call: &str) -> Option<&'static [&'static str]>;

    /// Judges the row by its call, one of these.
    fn judge(&self, alloc: Global, case: Case<'_>, tally: &mut Tally) -> Result<(), Problem>;
}

/// The call that the row is for, if it has no fields but those of the call.
pub(crate) fn call_of<'a, C: Calls>(calls: &C, row: Row<'a>) -> Result<&'a str, Problem> {
    let call = row.needed("call")?;
    let Some(names) = calls.names_of(call.value) else {
        return Err(call.problem("there is no such call"));
    };
    known(row.common, names, &["call", "status"])?;
    known(row.own, names, &["call", "status", "line", "text"])?;
    Ok(call.value)
}

/// Each field has one of these names, or one that every call has.
fn known(fields: &[Field<'_>], names: &[&str], shared: &[&str]) -> Result<(), Problem> {
    for field in fields {
        if !is_among(names, field.name) && !is_among(shared, field.name) {
            return Err(field.problem("the call has no such field here"));
        }
    }
    Ok(())
}

/// Whether the name is one of these.
fn is_among(names: &[&str], name: &str) -> bool {
    for other in names {
        if *other == name {
            return true;
        }
    }
    false
}
