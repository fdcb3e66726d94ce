//! Enum types.
ghost use Rattle.std.specs.Prelude.{◌≡◌};
ghost use Rattle.std.specs.Option.{option_map};
ghost use Rattle.tree_literals.specs.in_names.Placed.{text_tree};
ghost use Rattle.tree_input_types.specs.InputTypeTree.{enum_parts, enum_extension_parts};

use std::alloc::AllocError;
use tree_literals::{Name, Node, NodeStr};
use tree_type_members::{DirectiveList, EnumValueDefinition, clone_described, clone_head};

/// `enum name @directives { values }` (section 3.9).
#[derive(PartialEq, Eq, Hash)]
pub struct EnumTypeDefinition {
    pub description: Option<NodeStr>,
    pub name: Name,
    pub directives: DirectiveList,
    pub values: Vec<Node<EnumValueDefinition>>,
}

// Not derived: a derived drop is proved again in every crate that uses it.
impl Drop for EnumTypeDefinition {
    fn drop(self) {
        let EnumTypeDefinition {
            description: _,
            name: _,
            directives: _,
            values: _,
        } = self;
    }
}

/// `extend enum name @directives { values }` (section 3.9.1).
#[derive(PartialEq, Eq, Hash)]
pub struct EnumTypeExtension {
    pub name: Name,
    pub directives: DirectiveList,
    pub values: Vec<Node<EnumValueDefinition>>,
}

// Not derived: a derived drop is proved again in every crate that uses it.
impl Drop for EnumTypeExtension {
    fn drop(self) {
        let EnumTypeExtension {
            name: _,
            directives: _,
            values: _,
        } = self;
    }
}

impl EnumTypeExtension {
    /// The definition with that description and these parts (section 3.9).
    pub fn into_definition(self, description: Option<NodeStr>) -> EnumTypeDefinition
        ensures description { result.description ≡ description }
        ensures parts { enum_parts result ≡ enum_extension_parts self }
    {
        let EnumTypeExtension {
            name,
            directives,
            values,
        } = self;
        EnumTypeDefinition {
            description,
            name,
            directives,
            values,
        }
    }
}

impl Clone for EnumTypeDefinition {
    ghost is_clone = { λ t copy. (option_map text_tree copy.description ≡ option_map text_tree t.description) × (enum_parts copy ≡ enum_parts t) };

    fn clone(&self) -> Result<EnumTypeDefinition, AllocError> {
        let (description, name, directives) = clone_described(
            &self.description,
            &self.name,
            &self.directives,
        )?;
        Ok(EnumTypeDefinition {
            description,
            name,
            directives,
            values: self.values.clone()?,
        })
    }
}

impl Clone for EnumTypeExtension {
    ghost is_clone = { λ t copy. enum_extension_parts copy ≡ enum_extension_parts t };

    fn clone(&self) -> Result<EnumTypeExtension, AllocError> {
        let (name, directives) = clone_head(&self.name, &self.directives)?;
        Ok(EnumTypeExtension {
            name,
            directives,
            values: self.values.clone()?,
        })
    }
}
