//! A definition as one of its variants.
ghost use Rattle.tree_definitions.specs.Queries.{IsContentOf};

use crate::definition::Definition;
use spec_tree::{DirectiveDefinition, FragmentDefinition, Node, OperationDefinition};
use tree_composite_types::{
    InterfaceTypeDefinition, InterfaceTypeExtension, ObjectTypeDefinition, ObjectTypeExtension,
    UnionTypeDefinition, UnionTypeExtension,
};
use tree_input_types::{
    EnumTypeDefinition, EnumTypeExtension, InputObjectTypeDefinition, InputObjectTypeExtension,
    ScalarTypeDefinition, ScalarTypeExtension, SchemaDefinition, SchemaExtension,
};

/// The content, if the definition is of that variant, and `None` for every other.
impl Definition {
    /// The node of an [`OperationDefinition`].
    pub fn as_operation_definition(&self) -> Option<&Node<OperationDefinition>>
        ensures { IsContentOf Definition.OperationDefinition self.now result }
    {
        match self {
            Definition::OperationDefinition(node) => Some(node),
            _ => None,
        }
    }

    /// The node of a [`FragmentDefinition`].
    pub fn as_fragment_definition(&self) -> Option<&Node<FragmentDefinition>>
        ensures { IsContentOf Definition.FragmentDefinition self.now result }
    {
        match self {
            Definition::FragmentDefinition(node) => Some(node),
            _ => None,
        }
    }

    /// The node of a [`DirectiveDefinition`].
    pub fn as_directive_definition(&self) -> Option<&Node<DirectiveDefinition>>
        ensures { IsContentOf Definition.DirectiveDefinition self.now result }
    {
        match self {
            Definition::DirectiveDefinition(node) => Some(node),
            _ => None,
        }
    }

    /// The node of a [`SchemaDefinition`].
    pub fn as_schema_definition(&self) -> Option<&Node<SchemaDefinition>>
        ensures { IsContentOf Definition.SchemaDefinition self.now result }
    {
        match self {
            Definition::SchemaDefinition(node) => Some(node),
            _ => None,
        }
    }

    /// The node of a [`ScalarTypeDefinition`].
    pub fn as_scalar_type_definition(&self) -> Option<&Node<ScalarTypeDefinition>>
        ensures { IsContentOf Definition.ScalarTypeDefinition self.now result }
    {
        match self {
            Definition::ScalarTypeDefinition(node) => Some(node),
            _ => None,
        }
    }

    /// The node of an [`ObjectTypeDefinition`].
    pub fn as_object_type_definition(&self) -> Option<&Node<ObjectTypeDefinition>>
        ensures { IsContentOf Definition.ObjectTypeDefinition self.now result }
    {
        match self {
            Definition::ObjectTypeDefinition(node) => Some(node),
            _ => None,
        }
    }

    /// The node of an [`InterfaceTypeDefinition`].
    pub fn as_interface_type_definition(&self) -> Option<&Node<InterfaceTypeDefinition>>
        ensures { IsContentOf Definition.InterfaceTypeDefinition self.now result }
    {
        match self {
            Definition::InterfaceTypeDefinition(node) => Some(node),
            _ => None,
        }
    }

    /// The node of a [`UnionTypeDefinition`].
    pub fn as_union_type_definition(&self) -> Option<&Node<UnionTypeDefinition>>
        ensures { IsContentOf Definition.UnionTypeDefinition self.now result }
    {
        match self {
            Definition::UnionTypeDefinition(node) => Some(node),
            _ => None,
        }
    }

    /// The node of an [`EnumTypeDefinition`].
    pub fn as_enum_type_definition(&self) -> Option<&Node<EnumTypeDefinition>>
        ensures { IsContentOf Definition.EnumTypeDefinition self.now result }
    {
        match self {
            Definition::EnumTypeDefinition(node) => Some(node),
            _ => None,
        }
    }

    /// The node of an [`InputObjectTypeDefinition`].
    pub fn as_input_object_type_definition(&self) -> Option<&Node<InputObjectTypeDefinition>>
        ensures { IsContentOf Definition.InputObjectTypeDefinition self.now result }
    {
        match self {
            Definition::InputObjectTypeDefinition(node) => Some(node),
            _ => None,
        }
    }

    /// The node of a [`SchemaExtension`].
    pub fn as_schema_extension(&self) -> Option<&Node<SchemaExtension>>
        ensures { IsContentOf Definition.SchemaExtension self.now result }
    {
        match self {
            Definition::SchemaExtension(node) => Some(node),
            _ => None,
        }
    }

    /// The node of a [`ScalarTypeExtension`].
    pub fn as_scalar_type_extension(&self) -> Option<&Node<ScalarTypeExtension>>
        ensures { IsContentOf Definition.ScalarTypeExtension self.now result }
    {
        match self {
            Definition::ScalarTypeExtension(node) => Some(node),
            _ => None,
        }
    }

    /// The node of an [`ObjectTypeExtension`].
    pub fn as_object_type_extension(&self) -> Option<&Node<ObjectTypeExtension>>
        ensures { IsContentOf Definition.ObjectTypeExtension self.now result }
    {
        match self {
            Definition::ObjectTypeExtension(node) => Some(node),
            _ => None,
        }
    }

    /// The node of an [`InterfaceTypeExtension`].
    pub fn as_interface_type_extension(&self) -> Option<&Node<InterfaceTypeExtension>>
        ensures { IsContentOf Definition.InterfaceTypeExtension self.now result }
    {
        match self {
            Definition::InterfaceTypeExtension(node) => Some(node),
            _ => None,
        }
    }

    /// The node of a [`UnionTypeExtension`].
    pub fn as_union_type_extension(&self) -> Option<&Node<UnionTypeExtension>>
        ensures { IsContentOf Definition.UnionTypeExtension self.now result }
    {
        match self {
            Definition::UnionTypeExtension(node) => Some(node),
            _ => None,
        }
    }

    /// The node of an [`EnumTypeExtension`].
    pub fn as_enum_type_extension(&self) -> Option<&Node<EnumTypeExtension>>
        ensures { IsContentOf Definition.EnumTypeExtension self.now result }
    {
        match self {
            Definition::EnumTypeExtension(node) => Some(node),
            _ => None,
        }
    }

    /// The node of an [`InputObjectTypeExtension`].
    pub fn as_input_object_type_extension(&self) -> Option<&Node<InputObjectTypeExtension>>
        ensures { IsContentOf Definition.InputObjectTypeExtension self.now result }
    {
        match self {
            Definition::InputObjectTypeExtension(node) => Some(node),
            _ => None,
        }
    }
}
