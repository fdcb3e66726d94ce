//! Schema definitions: the root operation types.
ghost use Rattle.std.specs.Prelude.{◌≡◌};
ghost use Rattle.std.specs.Option.{option_map};
ghost use Rattle.tree_literals.specs.in_names.Placed.{text_tree};
ghost use Rattle.tree_input_types.specs.InputTypeTree.{schema_parts, schema_extension_parts};

use std::alloc::AllocError;
use tree_literals::{Node, NodeStr};
use tree_type_members::{DirectiveList, NamedType, OperationType, clone_description};

/// `schema @directives { root operation types }` (section 3.3).
#[derive(PartialEq, Eq, Hash)]
pub struct SchemaDefinition {
    pub description: Option<NodeStr>,
    pub directives: DirectiveList,
    pub root_operations: Vec<Node<(OperationType, NamedType)>>,
}

// Not derived: a derived drop is proved again in every crate that uses it.
impl Drop for SchemaDefinition {
    fn drop(self) {
        let SchemaDefinition {
            description: _,
            directives: _,
            root_operations: _,
        } = self;
    }
}

/// `extend schema @directives { root operation types }` (section 3.3.2).
#[derive(PartialEq, Eq, Hash)]
pub struct SchemaExtension {
    pub directives: DirectiveList,
    pub root_operations: Vec<Node<(OperationType, NamedType)>>,
}

// Not derived: a derived drop is proved again in every crate that uses it.
impl Drop for SchemaExtension {
    fn drop(self) {
        let SchemaExtension {
            directives: _,
            root_operations: _,
        } = self;
    }
}

impl SchemaExtension {
    /// The definition with that description and these parts (section 3.3).
    pub fn into_definition(self, description: Option<NodeStr>) -> SchemaDefinition
        ensures description { result.description ≡ description }
        ensures parts { schema_parts result ≡ schema_extension_parts self }
    {
        let SchemaExtension {
            directives,
            root_operations,
        } = self;
        SchemaDefinition {
            description,
            directives,
            root_operations,
        }
    }
}

impl Clone for SchemaDefinition {
    ghost is_clone = { λ t copy. (option_map text_tree copy.description ≡ option_map text_tree t.description) × (schema_parts copy ≡ schema_parts t) };

    fn clone(&self) -> Result<SchemaDefinition, AllocError> {
        Ok(SchemaDefinition {
            description: clone_description(&self.description)?,
            directives: self.directives.clone()?,
            root_operations: self.root_operations.clone()?,
        })
    }
}

impl Clone for SchemaExtension {
    ghost is_clone = { λ t copy. schema_extension_parts copy ≡ schema_extension_parts t };

    fn clone(&self) -> Result<SchemaExtension, AllocError> {
        Ok(SchemaExtension {
            directives: self.directives.clone()?,
            root_operations: self.root_operations.clone()?,
        })
    }
}
