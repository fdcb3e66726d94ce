//! Reads definitions and extensions of the type system from tokens.
//!
//! For the layer above: `type_system_definition` and `type_system_extension` answer the tree that the grammar has there,
//! or stop where it has none.
//!
//! The parts of definitions have parsers of their own (`field_list.rt`, `input_value_list.rt`, `root_list.rt` and others),
//! each for the parser of its name in `TypeSystemReading` of `read_grammar`; the parts that functions of their own read are named
//! in `specs/MemberSteps.antt`.
//!
//! Begin with `definition.rt` and `kind.rt`.
#![tactic(auto)]

mod composite_types;
mod definition;
mod described;
mod directive;
mod enum_value_list;
mod extension;
mod field_list;
mod input_types;
mod input_value_list;
mod kind;
mod location_list;
mod name_list;
mod root_list;
mod schema;
mod types;

pub use definition::type_system_definition;
pub use directive::directive_definition;
pub use enum_value_list::{
    enum_values_definition, enum_values_or_none, optional_enum_values_definition,
};
pub use extension::type_system_extension;
pub use field_list::{fields_definition, fields_or_none, optional_fields_definition};
pub use input_value_list::{
    arguments_definition, input_fields_definition, input_values_or_none,
    optional_arguments_definition, optional_input_fields_definition,
};
pub use location_list::directive_locations;
pub use name_list::{
    implements_interfaces, names_or_none, optional_implements_interfaces,
    optional_union_member_types, union_member_types,
};
pub use root_list::{optional_roots, roots, roots_or_none};

// Re-exported from the crates below, for the crates above.
pub use read_operations::{
    Definition, Document, ParseError, SourceFile, begin, fragment_definition, next_is,
    placed_fragment, placed_operation, selections, since, ty,
};
