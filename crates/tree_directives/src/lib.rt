//! Arguments, directives, and the definitions of input values and directives.
//!
//! For the layers above: contracts see each as a plain tree (`specs/DirectiveTree.antt`); equality and hash are those of
//! the trees without places; what is printed is the layout of the tree.
//!
//! Begin with `specs/DirectiveTree.antt` and `directive.rt`; the layout is `specs/DirectiveLayout.antt` and
//! `specs/InputLayout.antt`.
#![tactic(auto)]

mod argument_error;
mod directive;
mod directive_list;
mod directive_location;
mod input_value;
mod level;
mod named;
mod operation_type;
mod print_directive;
mod print_input;
mod serialize_directive;
mod serialize_input;
mod writable_directive;

pub use argument_error::ArgumentByNameError;
pub use directive::{Argument, Directive, DirectiveDefinition, DirectiveList};
pub use directive_list::NamedDirectives;
pub use directive_location::DirectiveLocation;
pub use input_value::InputValueDefinition;
pub use level::Level;
pub use named::{Named, get_named_mut};
pub use operation_type::{OperationType, put_keyword};
pub use print_directive::{put_arguments, put_directives};
pub use print_input::{put_argument_definitions, put_directive_definition, put_input_members};
pub use writable_directive::{
    arguments_are_writable, directives_are_writable, input_values_are_writable,
};

// Re-exported from the crate below, for the crates above.
pub use tree_literals::{
    Cause, Name, NamedType, Node, NodeStr, Serialize, Sink, SourceSpan, Tree, Type, Value,
    WriteFault, can_be_enum, copies_of_five, copies_of_four, copies_of_three, default_is_writable,
    put_break, put_default, put_description, put_start, put_type,
};
