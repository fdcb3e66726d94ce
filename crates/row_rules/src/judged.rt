//! What is judged.

use row_files::Case;
use std::alloc::Global;

/// A row that is judged by these rules, and where memory comes from.
#[derive(Clone, Copy)]
pub(crate) struct Judged<'a, R> {
    pub(crate) alloc: Global,
    pub(crate) rules: &'a R,
    pub(crate) case: Case<'a>,
}
