//! Reads values, arguments, directives, types, operations and fragments from tokens.
//!
//! For the layers above: each function reads what the parser of its name in `read_grammar` does, an `optional_` one that or
//! nothing, by the next token. Begin with `steps.rt`, which all parsers use, and `operation.rt`.
#![tactic(auto)]

mod argument_list;
mod condition;
mod directive_list;
mod fragment;
mod name_token;
mod number_token;
mod operation;
mod operation_types;
mod optional;
mod selection_list;
mod selection_parts;
mod steps;
mod string_token;
mod type_reader;
mod value_reader;
mod value_token;
mod variable_list;

pub use argument_list::arguments;
pub use condition::{fragment_name, type_condition};
pub use directive_list::directives;
pub use fragment::{fragment_definition, placed_fragment};
pub use name_token::name;
pub use operation::{operation_definition, placed_operation};
pub use operation_types::operation_type;
pub use optional::{
    arguments_or_none, directives_or_none, optional_arguments, optional_default,
    optional_description, optional_directives,
};
pub use selection_list::{selection_set, selections};
pub use steps::{begin, expect, next_is, next_is_name, open, since};
pub use string_token::{description, next_is_string};
pub use type_reader::{placed_type, ty};
pub use value_reader::{default_value, placed_value};
pub use value_token::{enum_value, variable};
pub use variable_list::variable_definitions;

// Re-exported from the crates below, for the crates above.
pub use read_grammar::{Definition, Document, ParseError, SourceFile};
