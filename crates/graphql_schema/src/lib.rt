//! Schemas: lookup in the types, directive definitions and roots that definitions and extensions give.
//!
//! For the layer above: contracts see a schema as one tree (`specs/SchemaOf.antt`), the result of each lookup is stated
//! by its entries (`specs/LookUps.antt`), and `==` decides whether two schemas are the same without places, origins and
//! order.
//!
//! A builder gives the fold of the definitions that were added, with each way in which a folding rule is broken
//! (`builder.rt`), and `to_ast` gives the definitions that are written of a schema.
//!
//! Types and components are in `schema_types` and `schema_components`, a builder's state in
//! `schema_building`, the fold in `schema_fold_lists`, the write-out in `schema_writing`; here are
//! the whole schema, and the names of everything that a caller needs. Begin with `schema.rt` and `builder.rt`.
#![tactic(auto)]

mod builder;
mod distinct;
mod field_lookup;
mod implementers;
pub mod laws;
mod meta_fields;
mod schema;
mod subtype;
mod to_ast;
mod types_by_name;

pub use builder::SchemaBuilder;
pub use field_lookup::FieldLookupError;
pub use implementers::{Implementers, ImplementersNames};
pub use schema::Schema;
pub use schema_building::{BuilderRefusal, OrphanExtensionTypes, add_sources};
pub use schema_components::{
    Component, ComponentName, ComponentOrigin, DirectiveList, ExtensionId, Extensions,
    NamedComponents,
};
pub use schema_fold_lists::BuildError;
pub use schema_writing::{
    EnumType, ExtendedType, InputObjectType, InterfaceType, ObjectType, Origins, RootOperations,
    ScalarType, SchemaDefinition, TypeKind, UnionType,
};

// Of the crates below, for the crates above.
