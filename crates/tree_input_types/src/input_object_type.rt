//! Input object types.
ghost use Rattle.std.specs.Prelude.{◌≡◌};
ghost use Rattle.std.specs.Option.{option_map};
ghost use Rattle.tree_literals.specs.in_names.Placed.{text_tree};
ghost use Rattle.tree_input_types.specs.InputTypeTree.{input_object_parts, input_object_extension_parts};

use std::alloc::AllocError;
use tree_literals::{Name, Node, NodeStr};
use tree_type_members::{DirectiveList, InputValueDefinition, clone_described, clone_head};

/// `input name @directives { fields }` (section 3.10).
#[derive(PartialEq, Eq, Hash)]
pub struct InputObjectTypeDefinition {
    pub description: Option<NodeStr>,
    pub name: Name,
    pub directives: DirectiveList,
    pub fields: Vec<Node<InputValueDefinition>>,
}

// Not derived: a derived drop is proved again in every crate that uses it.
impl Drop for InputObjectTypeDefinition {
    fn drop(self) {
        let InputObjectTypeDefinition {
            description: _,
            name: _,
            directives: _,
            fields: _,
        } = self;
    }
}

/// `extend input name @directives { fields }` (section 3.10.1).
#[derive(PartialEq, Eq, Hash)]
pub struct InputObjectTypeExtension {
    pub name: Name,
    pub directives: DirectiveList,
    pub fields: Vec<Node<InputValueDefinition>>,
}

// Not derived: a derived drop is proved again in every crate that uses it.
impl Drop for InputObjectTypeExtension {
    fn drop(self) {
        let InputObjectTypeExtension {
            name: _,
            directives: _,
            fields: _,
        } = self;
    }
}

impl InputObjectTypeExtension {
    /// The definition with that description and these parts (section 3.10).
    pub fn into_definition(self, description: Option<NodeStr>) -> InputObjectTypeDefinition
        ensures description { result.description ≡ description }
        ensures parts { input_object_parts result ≡ input_object_extension_parts self }
    {
        let InputObjectTypeExtension {
            name,
            directives,
            fields,
        } = self;
        InputObjectTypeDefinition {
            description,
            name,
            directives,
            fields,
        }
    }
}

impl Clone for InputObjectTypeDefinition {
    ghost is_clone = { λ t copy. (option_map text_tree copy.description ≡ option_map text_tree t.description) × (input_object_parts copy ≡ input_object_parts t) };

    fn clone(&self) -> Result<InputObjectTypeDefinition, AllocError> {
        let (description, name, directives) = clone_described(
            &self.description,
            &self.name,
            &self.directives,
        )?;
        Ok(InputObjectTypeDefinition {
            description,
            name,
            directives,
            fields: self.fields.clone()?,
        })
    }
}

impl Clone for InputObjectTypeExtension {
    ghost is_clone = { λ t copy. input_object_extension_parts copy ≡ input_object_extension_parts t };

    fn clone(&self) -> Result<InputObjectTypeExtension, AllocError> {
        let (name, directives) = clone_head(&self.name, &self.directives)?;
        Ok(InputObjectTypeExtension {
            name,
            directives,
            fields: self.fields.clone()?,
        })
    }
}
