//! Whether the grammar can write definitions and extensions of composite types.
ghost use Rattle.std.specs.Prelude.{◌≡◌, true};
ghost use Rattle.tree_type_members.specs.in_directives.DirectiveTree.{directives_tree};
ghost use Rattle.tree_type_members.specs.in_directives.DirectiveWritable.{directives_writable};
ghost use Rattle.tree_type_members.specs.PartsWritable.{fields_writable, fields_extension_writable, union_extension_writable};
ghost use Rattle.tree_composite_types.specs.CompositeTree.{object_parts, object_extension_parts, interface_parts, interface_extension_parts, union_extension_parts};

use crate::interface_type::{InterfaceTypeDefinition, InterfaceTypeExtension};
use crate::object_type::{ObjectTypeDefinition, ObjectTypeExtension};
use crate::union_type::{UnionTypeDefinition, UnionTypeExtension};
use tree_type_members::{directives_are_writable, fields_are_writable};

impl ObjectTypeDefinition {
    /// Whether the grammar can write it.
    pub fn is_writable(&self) -> bool
        ensures { result ≡ fields_writable (object_parts self.now) }
    {
        directives_are_writable(true, &self.directives) && fields_are_writable(&self.fields)
    }
}

impl ObjectTypeExtension {
    /// Whether the grammar can write it.
    pub fn is_writable(&self) -> bool
        ensures { result ≡ fields_extension_writable (object_extension_parts self.now) }
    {
        directives_are_writable(true, &self.directives)
            && fields_are_writable(&self.fields)
            && (!self.implements_interfaces.is_empty()
                || !self.directives.0.is_empty()
                || !self.fields.is_empty())
    }
}

impl InterfaceTypeDefinition {
    /// Whether the grammar can write it.
    pub fn is_writable(&self) -> bool
        ensures { result ≡ fields_writable (interface_parts self.now) }
    {
        directives_are_writable(true, &self.directives) && fields_are_writable(&self.fields)
    }
}

impl InterfaceTypeExtension {
    /// Whether the grammar can write it.
    pub fn is_writable(&self) -> bool
        ensures { result ≡ fields_extension_writable (interface_extension_parts self.now) }
    {
        directives_are_writable(true, &self.directives)
            && fields_are_writable(&self.fields)
            && (!self.implements_interfaces.is_empty()
                || !self.directives.0.is_empty()
                || !self.fields.is_empty())
    }
}

impl UnionTypeDefinition {
    /// Whether the grammar can write it.
    pub fn is_writable(&self) -> bool
        ensures { result ≡ directives_writable true (directives_tree self.now.directives) }
    {
        directives_are_writable(true, &self.directives)
    }
}

impl UnionTypeExtension {
    /// Whether the grammar can write it.
    pub fn is_writable(&self) -> bool
        ensures { result ≡ union_extension_writable (union_extension_parts self.now) }
    {
        directives_are_writable(true, &self.directives)
            && (!self.directives.0.is_empty() || !self.members.is_empty())
    }
}
