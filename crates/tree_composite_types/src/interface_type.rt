//! Interface types.
ghost use Rattle.std.specs.Prelude.{◌≡◌};
ghost use Rattle.std.specs.Option.{option_map};
ghost use Rattle.tree_literals.specs.in_names.Placed.{text_tree};
ghost use Rattle.tree_composite_types.specs.CompositeTree.{interface_parts, interface_extension_parts};

use crate::copies::clone_members;
use std::alloc::AllocError;
use tree_type_members::{
    DirectiveList, FieldDefinition, Name, NamedType, Node, NodeStr, clone_described, clone_head,
};

/// `interface name implements interfaces @directives { fields }` (section 3.7).
#[derive(PartialEq, Eq, Hash)]
pub struct InterfaceTypeDefinition {
    pub description: Option<NodeStr>,
    pub name: Name,
    pub implements_interfaces: Vec<NamedType>,
    pub directives: DirectiveList,
    pub fields: Vec<Node<FieldDefinition>>,
}

// Not derived: a derived drop is proved again in every crate that uses it.
impl Drop for InterfaceTypeDefinition {
    fn drop(self) {
        let InterfaceTypeDefinition {
            description: _,
            name: _,
            implements_interfaces: _,
            directives: _,
            fields: _,
        } = self;
    }
}

/// `extend interface name implements interfaces @directives { fields }` (section 3.7.1).
#[derive(PartialEq, Eq, Hash)]
pub struct InterfaceTypeExtension {
    pub name: Name,
    pub implements_interfaces: Vec<NamedType>,
    pub directives: DirectiveList,
    pub fields: Vec<Node<FieldDefinition>>,
}

// Not derived: a derived drop is proved again in every crate that uses it.
impl Drop for InterfaceTypeExtension {
    fn drop(self) {
        let InterfaceTypeExtension {
            name: _,
            implements_interfaces: _,
            directives: _,
            fields: _,
        } = self;
    }
}

impl InterfaceTypeExtension {
    /// The definition with that description and these parts (section 3.7).
    pub fn into_definition(self, description: Option<NodeStr>) -> InterfaceTypeDefinition
        ensures description { result.description ≡ description }
        ensures parts { interface_parts result ≡ interface_extension_parts self }
    {
        let InterfaceTypeExtension {
            name,
            implements_interfaces,
            directives,
            fields,
        } = self;
        InterfaceTypeDefinition {
            description,
            name,
            implements_interfaces,
            directives,
            fields,
        }
    }
}

impl Clone for InterfaceTypeDefinition {
    ghost is_clone = { λ t copy. (option_map text_tree copy.description ≡ option_map text_tree t.description) × (interface_parts copy ≡ interface_parts t) };

    fn clone(&self) -> Result<InterfaceTypeDefinition, AllocError> {
        let (description, name, directives) = clone_described(
            &self.description,
            &self.name,
            &self.directives,
        )?;
        let (implements_interfaces, fields) = clone_members(
            &self.implements_interfaces,
            &self.fields,
        )?;
        Ok(InterfaceTypeDefinition {
            description,
            name,
            implements_interfaces,
            directives,
            fields,
        })
    }
}

impl Clone for InterfaceTypeExtension {
    ghost is_clone = { λ t copy. interface_extension_parts copy ≡ interface_extension_parts t };

    fn clone(&self) -> Result<InterfaceTypeExtension, AllocError> {
        let (name, directives) = clone_head(&self.name, &self.directives)?;
        let (implements_interfaces, fields) = clone_members(
            &self.implements_interfaces,
            &self.fields,
        )?;
        Ok(InterfaceTypeExtension {
            name,
            implements_interfaces,
            directives,
            fields,
        })
    }
}
