//! The arguments of typing at each level.
use graphql_schema::Schema;
use std::alloc::Global;

/// The schema under which a document is typed, if there is one, and the allocator.
#[derive(Clone, Copy)]
pub(crate) struct Typing<'schema> {
    pub(crate) alloc: Global,
    pub(crate) schema: Option<&'schema Schema>,
}
