//! What is built in: the definitions that each schema has, whatever its texts define, and the meta-fields.
//!
//! For the layer above: `built_in_definitions` returns the table (`specs/Table.antt`), each definition and each part at
//! the place of what is built in; the meta-fields are those of `specs/MetaFields.antt`.
//!
//! Begin with `table.rt`: the table is data, and the other files build trees from its rows.
#![tactic(auto)]

mod definitions;
mod members;
mod meta_fields;
mod parts;
mod table;

pub use definitions::{built_in_definitions, is_built_in_scalar};
pub use meta_fields::{schema_field, type_field, typename_field};

// Of the crates below, for the crates above.
pub use schema_fold::{
    Definition, Document, NumberedDefinition, SourceFile, TypeKind, type_definition,
};
