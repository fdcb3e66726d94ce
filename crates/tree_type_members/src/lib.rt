//! Field definitions and enum values, and the texts that definitions of types share.
//!
//! For the layer above: contracts see each as a plain tree (`specs/TypeSystemTree.antt`); the parts of definitions
//! of types, their layout and what the grammar can write of them are defined here, once for definitions and
//! extensions. The calls that print and copy parts are for the crates of definitions above.
//!
//! Begin with `field_definition.rt` and `specs/TypeSystemTree.antt`; the layout is `specs/TypeSystemLayout.antt`.
#![tactic(auto)]

mod copies;
mod enum_value;
mod field_definition;
mod print_members;
mod print_names;
mod serialize_members;
mod writable;

pub use copies::{clone_described, clone_description, clone_head};
pub use enum_value::EnumValueDefinition;
pub use field_definition::FieldDefinition;
pub use print_members::{put_field_set, put_input_set, put_value_set};
pub use print_names::{put_head, put_names};
pub use tree_directives::{
    DirectiveList, InputValueDefinition, OperationType, directives_are_writable,
    input_values_are_writable, put_directive_definition, put_directives, put_keyword,
};
pub use tree_literals::{FileId, Name, NamedType, Node, NodeStr, SourceSpan};
pub use writable::{fields_are_writable, values_are_writable};

// Re-exported from the crates below, for the crates above.
