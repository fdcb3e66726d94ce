//! Definitions and extensions of the composite types: objects, interfaces and unions (sections 3.6 to 3.8).
//!
//! For the layer above: contracts see the parts of each as a plain tree (`specs/CompositeTree.antt`); what is printed
//! is the layout of the tree. The calls that print are for the crates of definitions above.
//!
//! Begin with `object_type.rt` and `specs/CompositeTree.antt`.
#![tactic(auto)]

mod copies;
mod interface_type;
mod object_type;
mod print_composite;
mod serialize_fields;
mod serialize_union;
mod union_type;
mod writable;

pub use interface_type::{InterfaceTypeDefinition, InterfaceTypeExtension};
pub use object_type::{ObjectTypeDefinition, ObjectTypeExtension};
pub use print_composite::{
    put_interface_definition, put_interface_extension, put_object_definition, put_object_extension,
    put_union_definition, put_union_extension,
};
pub use tree_type_members::{EnumValueDefinition, FieldDefinition, put_directive_definition};
pub use union_type::{UnionTypeDefinition, UnionTypeExtension};

// Re-exported from the crates below, for the crates above.
