//! Whether the grammar can write a definition or a document.
ghost use Rattle.std.specs.Prelude.{◌≡◌, map};
ghost use Rattle.std.specs.List.{list_all};
ghost use Rattle.tree_definitions.specs.DefinitionTree.{definition_tree, document_tree};
ghost use Rattle.tree_definitions.specs.Writable.{definition_writable, document_writable};

use crate::definition::Definition;
use crate::document::Document;

fn definitions_are_writable(definitions: &[Definition]) -> bool
    ensures { result ≡ list_all definition_writable (map definition_tree definitions.now) }
{
    for definition in definitions {
        if !definition.is_writable() {
            return false;
        }
    }
    true
}

impl Definition {
    /// Whether the grammar can write it.
    pub fn is_writable(&self) -> bool
        ensures { result ≡ definition_writable (definition_tree self.now) }
    {
        match self {
            Definition::OperationDefinition(node) => node.content().is_writable(),
            Definition::FragmentDefinition(node) => node.content().is_writable(),
            Definition::DirectiveDefinition(node) => node.content().is_writable(),
            Definition::SchemaDefinition(node) => node.content().is_writable(),
            Definition::ScalarTypeDefinition(node) => node.content().is_writable(),
            Definition::ObjectTypeDefinition(node) => node.content().is_writable(),
            Definition::InterfaceTypeDefinition(node) => node.content().is_writable(),
            Definition::UnionTypeDefinition(node) => node.content().is_writable(),
            Definition::EnumTypeDefinition(node) => node.content().is_writable(),
            Definition::InputObjectTypeDefinition(node) => node.content().is_writable(),
            Definition::SchemaExtension(node) => node.content().is_writable(),
            Definition::ScalarTypeExtension(node) => node.content().is_writable(),
            Definition::ObjectTypeExtension(node) => node.content().is_writable(),
            Definition::InterfaceTypeExtension(node) => node.content().is_writable(),
            Definition::UnionTypeExtension(node) => node.content().is_writable(),
            Definition::EnumTypeExtension(node) => node.content().is_writable(),
            Definition::InputObjectTypeExtension(node) => node.content().is_writable(),
        }
    }
}

impl Document {
    /// Whether the grammar can write it: it has a definition, and it can write each.
    pub fn is_writable(&self) -> bool
        ensures { result ≡ document_writable (document_tree self.now) }
    {
        !self.definitions.is_empty() && definitions_are_writable(&self.definitions)
    }
}
