//! Object types.
ghost use Rattle.std.specs.Prelude.{◌≡◌};
ghost use Rattle.std.specs.Option.{option_map};
ghost use Rattle.tree_literals.specs.in_names.Placed.{text_tree};
ghost use Rattle.tree_composite_types.specs.CompositeTree.{object_parts, object_extension_parts};

use crate::copies::clone_members;
use std::alloc::AllocError;
use tree_type_members::{
    DirectiveList, FieldDefinition, Name, NamedType, Node, NodeStr, clone_described, clone_head,
};

/// `type name implements interfaces @directives { fields }` (section 3.6).
#[derive(PartialEq, Eq, Hash)]
pub struct ObjectTypeDefinition {
    pub description: Option<NodeStr>,
    pub name: Name,
    pub implements_interfaces: Vec<NamedType>,
    pub directives: DirectiveList,
    pub fields: Vec<Node<FieldDefinition>>,
}

// Not derived: a derived drop is proved again in every crate that uses it.
impl Drop for ObjectTypeDefinition {
    fn drop(self) {
        let ObjectTypeDefinition {
            description: _,
            name: _,
            implements_interfaces: _,
            directives: _,
            fields: _,
        } = self;
    }
}

/// `extend type name implements interfaces @directives { fields }` (section 3.6.3).
#[derive(PartialEq, Eq, Hash)]
pub struct ObjectTypeExtension {
    pub name: Name,
    pub implements_interfaces: Vec<NamedType>,
    pub directives: DirectiveList,
    pub fields: Vec<Node<FieldDefinition>>,
}

// Not derived: a derived drop is proved again in every crate that uses it.
impl Drop for ObjectTypeExtension {
    fn drop(self) {
        let ObjectTypeExtension {
            name: _,
            implements_interfaces: _,
            directives: _,
            fields: _,
        } = self;
    }
}

impl ObjectTypeExtension {
    /// The definition with that description and these parts (section 3.6).
    pub fn into_definition(self, description: Option<NodeStr>) -> ObjectTypeDefinition
        ensures description { result.description ≡ description }
        ensures parts { object_parts result ≡ object_extension_parts self }
    {
        let ObjectTypeExtension {
            name,
            implements_interfaces,
            directives,
            fields,
        } = self;
        ObjectTypeDefinition {
            description,
            name,
            implements_interfaces,
            directives,
            fields,
        }
    }
}

impl Clone for ObjectTypeDefinition {
    ghost is_clone = { λ t copy. (option_map text_tree copy.description ≡ option_map text_tree t.description) × (object_parts copy ≡ object_parts t) };

    fn clone(&self) -> Result<ObjectTypeDefinition, AllocError> {
        let (description, name, directives) = clone_described(
            &self.description,
            &self.name,
            &self.directives,
        )?;
        let (implements_interfaces, fields) = clone_members(
            &self.implements_interfaces,
            &self.fields,
        )?;
        Ok(ObjectTypeDefinition {
            description,
            name,
            implements_interfaces,
            directives,
            fields,
        })
    }
}

impl Clone for ObjectTypeExtension {
    ghost is_clone = { λ t copy. object_extension_parts copy ≡ object_extension_parts t };

    fn clone(&self) -> Result<ObjectTypeExtension, AllocError> {
        let (name, directives) = clone_head(&self.name, &self.directives)?;
        let (implements_interfaces, fields) = clone_members(
            &self.implements_interfaces,
            &self.fields,
        )?;
        Ok(ObjectTypeExtension {
            name,
            implements_interfaces,
            directives,
            fields,
        })
    }
}
