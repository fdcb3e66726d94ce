//! Types, values, directives, selections and operations, which documents and schemas are made of, and
//! the base of the printer: the face of the crates that hold them, and the laws of their trees.
//!
//! The printer's base, types and values are in `tree_literals`, arguments, directives and the
//! definitions of input values in `tree_directives`, selections and operations in `tree_operations`.
//!
//! For the layer above: contracts see each of these as a plain tree (`Placed`, `ValueTree` and their neighbours, which
//! `specs/Lib.antt` names); equality and hash are those of the trees without places; what is printed is the layout of
//! the tree.
//!
//! Begin with `laws.rt`, and with `specs/ValueTree.antt` and `value.rt` of `tree_literals`.
#![tactic(auto)]

pub mod laws;
mod ty_macro;

pub use tree_literals::{
    FileId, FloatValue, IntValue, Name, NamedType, Node, NodeStr, SourceSpan, Spent, Type, Value,
};
pub use tree_operations::{
    Argument, ArgumentByNameError, Cause, Directive, DirectiveDefinition, DirectiveList,
    DirectiveLocation, Field, FragmentDefinition, FragmentSpread, InlineFragment,
    InputValueDefinition, Named, NamedDirectives, OperationDefinition, OperationType, Selection,
    Serialize, Tree, VariableDefinition, WriteFault, begins_output, get_named_mut, put_fragment,
    put_operation,
};

// Re-exported from the crates below, for the crates above.
