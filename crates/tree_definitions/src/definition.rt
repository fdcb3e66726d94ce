//! What a document holds.
ghost use Rattle.std.specs.Prelude.{◌≡◌, IfOk};
ghost use Rattle.graphql_names.specs.declared.node.Node.{Node};
ghost use Rattle.tree_definitions.specs.DefinitionTree.{definition_tree};
ghost use Rattle.tree_definitions.specs.Printed.{IsFromCopy};

use spec_tree::{DirectiveDefinition, FragmentDefinition, Node, OperationDefinition};
use std::alloc::AllocError;
use tree_composite_types::{
    InterfaceTypeDefinition, InterfaceTypeExtension, ObjectTypeDefinition, ObjectTypeExtension,
    UnionTypeDefinition, UnionTypeExtension,
};
use tree_input_types::{
    EnumTypeDefinition, EnumTypeExtension, InputObjectTypeDefinition, InputObjectTypeExtension,
    ScalarTypeDefinition, ScalarTypeExtension, SchemaDefinition, SchemaExtension,
};

/// What a document holds, with a variant for each form (section 2.2).
#[derive(PartialEq, Eq, Hash)]
pub enum Definition {
    OperationDefinition(Node<OperationDefinition>),
    FragmentDefinition(Node<FragmentDefinition>),
    DirectiveDefinition(Node<DirectiveDefinition>),
    SchemaDefinition(Node<SchemaDefinition>),
    ScalarTypeDefinition(Node<ScalarTypeDefinition>),
    ObjectTypeDefinition(Node<ObjectTypeDefinition>),
    InterfaceTypeDefinition(Node<InterfaceTypeDefinition>),
    UnionTypeDefinition(Node<UnionTypeDefinition>),
    EnumTypeDefinition(Node<EnumTypeDefinition>),
    InputObjectTypeDefinition(Node<InputObjectTypeDefinition>),
    SchemaExtension(Node<SchemaExtension>),
    ScalarTypeExtension(Node<ScalarTypeExtension>),
    ObjectTypeExtension(Node<ObjectTypeExtension>),
    InterfaceTypeExtension(Node<InterfaceTypeExtension>),
    UnionTypeExtension(Node<UnionTypeExtension>),
    EnumTypeExtension(Node<EnumTypeExtension>),
    InputObjectTypeExtension(Node<InputObjectTypeExtension>),
}

impl Drop for Definition {
    fn drop(self) {
        match self {
            Definition::OperationDefinition(_)
            | Definition::FragmentDefinition(_)
            | Definition::DirectiveDefinition(_)
            | Definition::SchemaDefinition(_)
            | Definition::ScalarTypeDefinition(_)
            | Definition::ObjectTypeDefinition(_)
            | Definition::InterfaceTypeDefinition(_)
            | Definition::UnionTypeDefinition(_)
            | Definition::EnumTypeDefinition(_)
            | Definition::InputObjectTypeDefinition(_)
            | Definition::SchemaExtension(_)
            | Definition::ScalarTypeExtension(_)
            | Definition::ObjectTypeExtension(_)
            | Definition::InterfaceTypeExtension(_)
            | Definition::UnionTypeExtension(_)
            | Definition::EnumTypeExtension(_)
            | Definition::InputObjectTypeExtension(_) => {}
        }
    }
}

/// A definition of a copy of the node.
// The clone and its `?` are proved once here, instead of in each of seventeen arms.
fn copied<T: Drop>(node: &Node<T>) -> Result<Definition, AllocError>
where
    Definition: From<Node<T>>,
    ensures { IfOk result (λ d. IsFromCopy ⟦<Definition as From<Node<T>>>⟧.from_gives node.now d) }
{
    Ok(Definition::from(node.clone()?))
}

impl Clone for Definition {
    ghost is_clone = { λ d copy. definition_tree copy ≡ definition_tree d };

    fn clone(&self) -> Result<Definition, AllocError> {
        match self {
            Definition::OperationDefinition(node) => copied(node),
            Definition::FragmentDefinition(node) => copied(node),
            Definition::DirectiveDefinition(node) => copied(node),
            Definition::SchemaDefinition(node) => copied(node),
            Definition::ScalarTypeDefinition(node) => copied(node),
            Definition::ObjectTypeDefinition(node) => copied(node),
            Definition::InterfaceTypeDefinition(node) => copied(node),
            Definition::UnionTypeDefinition(node) => copied(node),
            Definition::EnumTypeDefinition(node) => copied(node),
            Definition::InputObjectTypeDefinition(node) => copied(node),
            Definition::SchemaExtension(node) => copied(node),
            Definition::ScalarTypeExtension(node) => copied(node),
            Definition::ObjectTypeExtension(node) => copied(node),
            Definition::InterfaceTypeExtension(node) => copied(node),
            Definition::UnionTypeExtension(node) => copied(node),
            Definition::EnumTypeExtension(node) => copied(node),
            Definition::InputObjectTypeExtension(node) => copied(node),
        }
    }
}
