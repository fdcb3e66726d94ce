//! What definitions are, as plain trees, and what can be asked of them: no code.
//!
//! `specs/DefinitionTree.antt` has the trees, `specs/Queries.antt` what is asked; `tree_definitions` has the enum that they are
//! seen of, and `schema_types` what schemas keep of them.
//!
//! Begin with `specs/DefinitionTree.antt`, then `specs/Queries.antt`.
#![tactic(auto)]

// Re-exported from the crates below, for the crates above.
pub use tree_operations::{
    DirectiveDefinition, DirectiveList, FragmentDefinition, OperationDefinition, OperationType,
    begins_output, put_fragment, put_operation,
};
pub use tree_type_members::{EnumValueDefinition, FieldDefinition, FileId, Name, Node, SourceSpan};
