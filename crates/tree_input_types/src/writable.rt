//! Whether the grammar can write definitions and extensions of scalars, enums, input objects and the schema.
ghost use Rattle.std.specs.Prelude.{◌≡◌, true};
ghost use Rattle.tree_type_members.specs.in_directives.DirectiveTree.{directives_tree};
ghost use Rattle.tree_type_members.specs.in_directives.DirectiveWritable.{directives_writable};
ghost use Rattle.tree_type_members.specs.PartsWritable.{schema_writable, enum_writable, input_object_writable, schema_extension_writable, scalar_extension_writable, enum_extension_writable, input_object_extension_writable};
ghost use Rattle.tree_input_types.specs.InputTypeTree.{schema_parts, schema_extension_parts, scalar_extension_parts, enum_parts, enum_extension_parts, input_object_parts, input_object_extension_parts};

use crate::enum_type::{EnumTypeDefinition, EnumTypeExtension};
use crate::input_object_type::{InputObjectTypeDefinition, InputObjectTypeExtension};
use crate::scalar_type::{ScalarTypeDefinition, ScalarTypeExtension};
use crate::schema::{SchemaDefinition, SchemaExtension};
use tree_type_members::{directives_are_writable, input_values_are_writable, values_are_writable};

impl SchemaDefinition {
    /// Whether the grammar can write it.
    pub fn is_writable(&self) -> bool
        ensures { result ≡ schema_writable (schema_parts self.now) }
    {
        directives_are_writable(true, &self.directives) && !self.root_operations.is_empty()
    }
}

impl SchemaExtension {
    /// Whether the grammar can write it.
    pub fn is_writable(&self) -> bool
        ensures { result ≡ schema_extension_writable (schema_extension_parts self.now) }
    {
        directives_are_writable(true, &self.directives)
            && (!self.directives.0.is_empty() || !self.root_operations.is_empty())
    }
}

impl ScalarTypeDefinition {
    /// Whether the grammar can write it.
    pub fn is_writable(&self) -> bool
        ensures { result ≡ directives_writable true (directives_tree self.now.directives) }
    {
        directives_are_writable(true, &self.directives)
    }
}

impl ScalarTypeExtension {
    /// Whether the grammar can write it.
    pub fn is_writable(&self) -> bool
        ensures { result ≡ scalar_extension_writable (scalar_extension_parts self.now) }
    {
        directives_are_writable(true, &self.directives) && !self.directives.0.is_empty()
    }
}

impl EnumTypeDefinition {
    /// Whether the grammar can write it.
    pub fn is_writable(&self) -> bool
        ensures { result ≡ enum_writable (enum_parts self.now) }
    {
        directives_are_writable(true, &self.directives) && values_are_writable(&self.values)
    }
}

impl EnumTypeExtension {
    /// Whether the grammar can write it.
    pub fn is_writable(&self) -> bool
        ensures { result ≡ enum_extension_writable (enum_extension_parts self.now) }
    {
        directives_are_writable(true, &self.directives)
            && values_are_writable(&self.values)
            && (!self.directives.0.is_empty() || !self.values.is_empty())
    }
}

impl InputObjectTypeDefinition {
    /// Whether the grammar can write it.
    pub fn is_writable(&self) -> bool
        ensures { result ≡ input_object_writable (input_object_parts self.now) }
    {
        directives_are_writable(true, &self.directives) && input_values_are_writable(&self.fields)
    }
}

impl InputObjectTypeExtension {
    /// Whether the grammar can write it.
    pub fn is_writable(&self) -> bool
        ensures { result ≡ input_object_extension_writable (input_object_extension_parts self.now) }
    {
        directives_are_writable(true, &self.directives)
            && input_values_are_writable(&self.fields)
            && (!self.directives.0.is_empty() || !self.fields.is_empty())
    }
}
