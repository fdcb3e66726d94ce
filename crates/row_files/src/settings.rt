//! Numbers and words in rows.

use crate::problem::Problem;
use crate::row_file::{Field, Row};

/// The word of rows for the greatest number.
pub(crate) const MOST: &str = "most";

/// The number in this text.
fn number_of(field: Field<'_>, text: &str) -> Result<usize, Problem> {
    if text == MOST {
        return Ok(usize::MAX);
    }
    match text.parse::<usize>() {
        Ok(number) => Ok(number),
        Err(_) => Err(field.problem("this is no number")),
    }
}

/// The number in the field of this name, or `other` if there is none.
pub fn number(row: Row<'_>, name: &str, other: &'static str) -> Result<usize, Problem> {
    let field = row.one_or(name, other)?;
    number_of(field, field.value)
}

/// Adds the numbers in the field of this name, with a space between each two, or only `other` if there is none.
pub(crate) fn push_numbers(
    row: Row<'_>,
    name: &str,
    other: &'static str,
    list: &mut Vec<usize>,
) -> Result<(), Problem> {
    let field = row.one_or(name, other)?;
    for word in field.value.split_whitespace() {
        list.push(number_of(field, word)?)?;
    }
    Ok(())
}

/// Whether the row has the field of this name, whose value must be this word.
pub fn says(row: Row<'_>, name: &str, word: &str) -> Result<bool, Problem> {
    match row.one(name)? {
        None => Ok(false),
        Some(field) if field.value == word => Ok(true),
        Some(field) => Err(field.problem("the field says something else than it may")),
    }
}
