//! The write-out of a schema as a list of definitions.
//!
//! For the layer above: what is written, and in which order, is stated for the plain tree of a schema
//! (`specs/Out.antt` of `schema_types`).
//!
//! Begin with that file and `write.rt`. Components are filed under their givers once (`filing.rt`), so a write-out
//! takes time linear in what the schema holds. Those of a type without extensions are not filed.
#![tactic(auto)]

mod definition_by;
mod directives;
mod extension_by;
mod filing;
mod implicit;
mod parts;
mod roots;
mod schema;
mod types;
mod write;

pub use schema_types::{
    EnumType, ExtendedType, InputObjectType, InterfaceType, ObjectType, Origins, RootOperations,
    ScalarType, SchemaDefinition, TypeKind, UnionType,
};
pub use tree_definitions::{Document, SourceFile};
pub use write::written_definitions;
