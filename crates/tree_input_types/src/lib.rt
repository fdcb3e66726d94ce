//! Definitions and extensions of the types that input can have, scalars, enums and input objects (sections 3.5, 3.9
//! and 3.10), and of the schema (section 3.3).
//!
//! For the layer above: contracts see the parts of each as a plain tree (`specs/InputTypeTree.antt`); what is printed
//! is the layout of the tree. The calls that print are for the crates of definitions above.
//!
//! Begin with `enum_type.rt` and `specs/InputTypeTree.antt`.
#![tactic(auto)]

mod enum_type;
mod input_object_type;
mod print_input_types;
mod print_schema;
mod scalar_type;
mod schema;
mod serialize_input_types;
mod serialize_schema;
mod writable;

pub use enum_type::{EnumTypeDefinition, EnumTypeExtension};
pub use input_object_type::{InputObjectTypeDefinition, InputObjectTypeExtension};
pub use print_input_types::{
    put_enum_definition, put_enum_extension, put_input_object_definition,
    put_input_object_extension, put_scalar_definition, put_scalar_extension,
};
pub use print_schema::{put_schema_definition, put_schema_extension};
pub use scalar_type::{ScalarTypeDefinition, ScalarTypeExtension};
pub use schema::{SchemaDefinition, SchemaExtension};
