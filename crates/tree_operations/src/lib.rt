//! Selections, operations and fragments.
//!
//! For the layers above: contracts see each as a plain tree (`specs/SelectionTree.antt`, `specs/OperationTree.antt`);
//! equality and hash are those of the trees without places; what is printed is the layout of the tree.
//!
//! Begin with `specs/SelectionTree.antt` and `selection.rt`; the layout is `specs/OperationLayout.antt`.
#![tactic(auto)]

mod operation;
mod print_operation;
mod selection;
mod serialize_operation;
mod writable_operation;

pub use operation::{FragmentDefinition, OperationDefinition, VariableDefinition};
pub use print_operation::{begins_output, put_fragment, put_operation};
pub use selection::{Field, FragmentSpread, InlineFragment, Selection};
pub use tree_directives::{
    Argument, ArgumentByNameError, Cause, Directive, DirectiveDefinition, DirectiveList,
    DirectiveLocation, InputValueDefinition, Named, NamedDirectives, OperationType, Serialize,
    Tree, WriteFault, get_named_mut,
};
