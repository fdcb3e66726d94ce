//! Texts that a row gives, and what is read of them.

use crate::case::Case;
use crate::problem::Problem;

/// The text, which must be UTF-8.
pub fn text_of<'a>(case: Case<'_>, bytes: &'a [u8]) -> Result<&'a str, Problem> {
    match str::from_utf8(bytes) {
        Ok(text) => Ok(text),
        Err(_) => Err(case.row.head.problem("a text of this call is not UTF-8")),
    }
}

/// What is read from a text, which must be readable.
pub fn read_of<T: Drop, E: Drop>(case: Case<'_>, read: Result<T, E>) -> Result<T, Problem> {
    match read {
        Ok(tree) => Ok(tree),
        Err(_) => Err(case.row.head.problem("a text of this call is not read")),
    }
}
