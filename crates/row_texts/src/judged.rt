//! What is judged.

use row_files::Case;
use std::alloc::Global;

/// A row that is judged by the calls of a checker, and where memory comes from.
#[derive(Clone, Copy)]
pub(crate) struct Judged<'a, C> {
    pub(crate) alloc: Global,
    pub(crate) checks: &'a C,
    pub(crate) case: Case<'a>,
}
