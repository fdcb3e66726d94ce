//! Whether the grammar can write fields and enum values.
ghost use Rattle.std.specs.Prelude.{◌≡◌, map};
ghost use Rattle.tree_literals.specs.in_names.Placed.{node_tree};
ghost use Rattle.tree_type_members.specs.TypeSystemTree.{field_definition_tree, enum_value_tree};
ghost use Rattle.tree_type_members.specs.PartsWritable.{field_definition_writable, field_definitions_writable, enum_value_writable, enum_values_writable};

use crate::enum_value::EnumValueDefinition;
use crate::field_definition::FieldDefinition;
use tree_directives::{directives_are_writable, input_values_are_writable};
use tree_literals::{Node, can_be_enum};

/// Whether the grammar can write each of the fields. For the crates of definitions above.
pub fn fields_are_writable(fields: &[Node<FieldDefinition>]) -> bool
    ensures { result ≡ field_definitions_writable (map (node_tree field_definition_tree) fields.now) }
{
    for field in fields {
        if !field.content().is_writable() {
            return false;
        }
    }
    true
}

/// Whether the grammar can write each of the values. For the crates of definitions above.
pub fn values_are_writable(values: &[Node<EnumValueDefinition>]) -> bool
    ensures { result ≡ enum_values_writable (map (node_tree enum_value_tree) values.now) }
{
    for value in values {
        if !value.content().is_writable() {
            return false;
        }
    }
    true
}

impl FieldDefinition {
    /// Whether the grammar can write it.
    pub fn is_writable(&self) -> bool
        ensures { result ≡ field_definition_writable (field_definition_tree self.now) }
    {
        input_values_are_writable(&self.arguments)
            && directives_are_writable(true, &self.directives)
    }
}

impl EnumValueDefinition {
    /// Whether the grammar can write it.
    pub fn is_writable(&self) -> bool
        ensures { result ≡ enum_value_writable (enum_value_tree self.now) }
    {
        can_be_enum(&self.value) && directives_are_writable(true, &self.directives)
    }
}
