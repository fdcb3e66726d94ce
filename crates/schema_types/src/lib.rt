//! Types of the six kinds with all that their definitions and extensions gave, and the schema definition.
//!
//! For the layer above: contracts see a type as one record for all kinds (`specs/SchemaTree.antt`,
//! `specs/TypeView.antt`); equality is that of `specs/Plain.antt`, without places, origins and order.
//!
//! Begin with `kinds.rt` and `specs/SchemaTree.antt`.
#![tactic(auto)]

mod extended_clone;
mod extended_queries;
mod extended_type;
mod extended_variants;
mod kinds;
pub mod laws;
mod origins;
mod roots;
mod schema_definition;
mod shared;
mod type_kind;
mod type_origins;

pub use extended_type::ExtendedType;
pub use kinds::{EnumType, InputObjectType, InterfaceType, ObjectType, ScalarType, UnionType};
pub use origins::Origins;
pub use roots::RootOperations;
pub use schema_components::{
    Component, ComponentName, ComponentOrigin, DirectiveList, ExtensionId,
};
pub use schema_definition::SchemaDefinition;
pub use shared::{node_at, shared_description};
pub use spec_tree::{EnumValueDefinition, FieldDefinition};
pub use type_kind::TypeKind;
