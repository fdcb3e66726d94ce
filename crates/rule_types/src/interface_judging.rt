//! What the rules on interfaces are given.

use graphql_schema::Schema;
use schema_inputs::SchemaInputs;
use std::alloc::Global;

/// A schema that is judged, what it defines of many input values, and the memory for what is noted and told of it.
#[derive(Clone, Copy)]
pub(crate) struct InterfaceJudging<'a> {
    pub(crate) alloc: Global,
    pub(crate) schema: &'a Schema,
    pub(crate) inputs: &'a SchemaInputs,
}
