//! What the rules on schemas are given.

use graphql_schema::Schema;
use std::alloc::Global;

/// A schema that is judged, and the memory for what is noted and told of it.
#[derive(Clone, Copy)]
pub(crate) struct RuleContext<'a> {
    pub(crate) alloc: Global,
    pub(crate) schema: &'a Schema,
}
