//! Definitions, documents and their printer: the trees of whole texts, and the face of the crates that have them.
//!
//! For the layer above: contracts see a definition as a plain tree (`specs/DefinitionTree.antt` of
//! `tree_definitions`); equality and hash are those of the trees without places and sources; what is printed is the
//! layout of the tree.
//!
//! The trees are in `tree_type_members`, `tree_composite_types`, `tree_input_types` and
//! `tree_definitions`; here are the laws of equality, and the names of everything that a caller needs.
//!
//! Begin with `laws.rt`, and with `specs/DefinitionTree.antt` and `definition.rt` of `tree_definitions`.
#![tactic(auto)]

pub mod laws;

pub use graphql_names::{Cut, Device, Ending, Files, InvalidNameError, NameError, Spent, name};
pub use graphql_values::{
    Argument, ArgumentByNameError, Cause, Directive, DirectiveDefinition, DirectiveList,
    DirectiveLocation, Field, FileId, FloatValue, FragmentDefinition, FragmentSpread,
    InlineFragment, InputValueDefinition, IntValue, Name, Named, NamedDirectives, NamedType, Node,
    NodeStr, OperationDefinition, OperationType, Selection, Serialize, SourceSpan, Tree, Type,
    Value, VariableDefinition, WriteFault, get_named_mut, ty,
};
pub use tree_definitions::{
    Definition, Document, EnumTypeDefinition, EnumTypeExtension, EnumValueDefinition,
    FieldDefinition, InputObjectTypeDefinition, InputObjectTypeExtension, InterfaceTypeDefinition,
    InterfaceTypeExtension, ObjectTypeDefinition, ObjectTypeExtension, ScalarTypeDefinition,
    ScalarTypeExtension, SchemaDefinition, SchemaExtension, SourceFile, UnionTypeDefinition,
    UnionTypeExtension,
};
