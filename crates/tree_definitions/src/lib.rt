//! Definitions in general and whole documents, with their printer.
//!
//! For the layer above: contracts see a definition as a plain tree (`specs/DefinitionTree.antt`) and a document as the
//! list of its definitions; equality and hash of documents ignore the sources; what is printed is the layout of the
//! tree.
//!
//! Begin with `definition.rt` and `specs/DefinitionTree.antt`; the layout is `specs/DocumentLayout.antt`.
#![tactic(auto)]

mod definition;
mod definition_from;
mod definition_queries;
mod definition_variants;
mod document;
pub mod laws;
mod print_document;
mod serialize_document;
mod writable;

pub use definition::Definition;
pub use document::{Document, SourceFile};
pub use tree_composite_types::{
    EnumValueDefinition, FieldDefinition, InterfaceTypeDefinition, InterfaceTypeExtension,
    ObjectTypeDefinition, ObjectTypeExtension, UnionTypeDefinition, UnionTypeExtension,
};
pub use tree_input_types::{
    EnumTypeDefinition, EnumTypeExtension, InputObjectTypeDefinition, InputObjectTypeExtension,
    ScalarTypeDefinition, ScalarTypeExtension, SchemaDefinition, SchemaExtension,
};

// Re-exported from the crates below, for the crates above.
pub use spec_tree::OperationType;
