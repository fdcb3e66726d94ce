//! The calls of the library.

use std::alloc::Global;

/// The calls of the library, and where memory comes from.
#[derive(Clone, Copy)]
pub(crate) struct Library {
    pub(crate) alloc: Global,
}
