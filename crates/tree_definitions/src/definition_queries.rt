//! What can be asked of every definition.
ghost use Rattle.std.specs.Prelude.{◌≡◌};
ghost use Rattle.std.specs.Option.{option_map};
ghost use Rattle.spec_tree.specs.in_operations.Placed.{name_tree};
ghost use Rattle.spec_tree.specs.in_operations.DirectiveTree.{directives_tree};
ghost use Rattle.tree_definitions.specs.DefinitionTree.{definition_tree};
ghost use Rattle.tree_definitions.specs.Queries.{is_executable, is_extension, definition_place, definition_name, definition_directives};

use crate::definition::Definition;
use spec_tree::{DirectiveList, Name, SourceSpan};

impl Definition {
    /// Whether it is an operation or a fragment.
    pub fn is_executable_definition(&self) -> bool
        ensures { result ≡ is_executable (definition_tree self.now) }
    {
        match self {
            Definition::OperationDefinition(_) | Definition::FragmentDefinition(_) => true,
            _ => false,
        }
    }

    /// Whether it is an extension of the schema or of a type.
    pub fn is_extension_definition(&self) -> bool
        ensures { result ≡ is_extension (definition_tree self.now) }
    {
        match self {
            Definition::SchemaExtension(_)
            | Definition::ScalarTypeExtension(_)
            | Definition::ObjectTypeExtension(_)
            | Definition::InterfaceTypeExtension(_)
            | Definition::UnionTypeExtension(_)
            | Definition::EnumTypeExtension(_)
            | Definition::InputObjectTypeExtension(_) => true,
            _ => false,
        }
    }

    /// The place that it was read from, if it was read.
    pub fn location(&self) -> Option<SourceSpan>
        ensures { result ≡ definition_place (definition_tree self.now) }
    {
        match self {
            Definition::OperationDefinition(node) => node.location(),
            Definition::FragmentDefinition(node) => node.location(),
            Definition::DirectiveDefinition(node) => node.location(),
            Definition::SchemaDefinition(node) => node.location(),
            Definition::ScalarTypeDefinition(node) => node.location(),
            Definition::ObjectTypeDefinition(node) => node.location(),
            Definition::InterfaceTypeDefinition(node) => node.location(),
            Definition::UnionTypeDefinition(node) => node.location(),
            Definition::EnumTypeDefinition(node) => node.location(),
            Definition::InputObjectTypeDefinition(node) => node.location(),
            Definition::SchemaExtension(node) => node.location(),
            Definition::ScalarTypeExtension(node) => node.location(),
            Definition::ObjectTypeExtension(node) => node.location(),
            Definition::InterfaceTypeExtension(node) => node.location(),
            Definition::UnionTypeExtension(node) => node.location(),
            Definition::EnumTypeExtension(node) => node.location(),
            Definition::InputObjectTypeExtension(node) => node.location(),
        }
    }

    /// The name that it defines, and of an extension of a type the type's name. `None` for the schema's
    /// definition and its extension, and for an operation without a name.
    pub fn name(&self) -> Option<&Name>
        ensures { option_map (λ n. name_tree n.now) result ≡ definition_name (definition_tree self.now) }
    {
        match self {
            Definition::OperationDefinition(node) => node.content().name.as_ref(),
            Definition::FragmentDefinition(node) => Some(&node.content().name),
            Definition::DirectiveDefinition(node) => Some(&node.content().name),
            Definition::SchemaDefinition(_) => None,
            Definition::ScalarTypeDefinition(node) => Some(&node.content().name),
            Definition::ObjectTypeDefinition(node) => Some(&node.content().name),
            Definition::InterfaceTypeDefinition(node) => Some(&node.content().name),
            Definition::UnionTypeDefinition(node) => Some(&node.content().name),
            Definition::EnumTypeDefinition(node) => Some(&node.content().name),
            Definition::InputObjectTypeDefinition(node) => Some(&node.content().name),
            Definition::SchemaExtension(_) => None,
            Definition::ScalarTypeExtension(node) => Some(&node.content().name),
            Definition::ObjectTypeExtension(node) => Some(&node.content().name),
            Definition::InterfaceTypeExtension(node) => Some(&node.content().name),
            Definition::UnionTypeExtension(node) => Some(&node.content().name),
            Definition::EnumTypeExtension(node) => Some(&node.content().name),
            Definition::InputObjectTypeExtension(node) => Some(&node.content().name),
        }
    }

    /// The directives that are applied to it: of each kind of definition, so this is always `Some`.
    pub fn directives(&self) -> Option<&DirectiveList>
        ensures { option_map (λ ds. directives_tree ds.now) result ≡ definition_directives (definition_tree self.now) }
    {
        match self {
            Definition::OperationDefinition(node) => Some(&node.content().directives),
            Definition::FragmentDefinition(node) => Some(&node.content().directives),
            Definition::DirectiveDefinition(node) => Some(&node.content().directives),
            Definition::SchemaDefinition(node) => Some(&node.content().directives),
            Definition::ScalarTypeDefinition(node) => Some(&node.content().directives),
            Definition::ObjectTypeDefinition(node) => Some(&node.content().directives),
            Definition::InterfaceTypeDefinition(node) => Some(&node.content().directives),
            Definition::UnionTypeDefinition(node) => Some(&node.content().directives),
            Definition::EnumTypeDefinition(node) => Some(&node.content().directives),
            Definition::InputObjectTypeDefinition(node) => Some(&node.content().directives),
            Definition::SchemaExtension(node) => Some(&node.content().directives),
            Definition::ScalarTypeExtension(node) => Some(&node.content().directives),
            Definition::ObjectTypeExtension(node) => Some(&node.content().directives),
            Definition::InterfaceTypeExtension(node) => Some(&node.content().directives),
            Definition::UnionTypeExtension(node) => Some(&node.content().directives),
            Definition::EnumTypeExtension(node) => Some(&node.content().directives),
            Definition::InputObjectTypeExtension(node) => Some(&node.content().directives),
        }
    }
}
