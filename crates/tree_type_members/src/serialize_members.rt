//! The texts of fields and of enum values by themselves.
ghost use Rattle.std.specs.Prelude.{Some};
ghost use Rattle.tree_literals.specs.LineLayout.{default_prefix, standing};
ghost use Rattle.tree_type_members.specs.TypeSystemTree.{field_definition_tree, enum_value_tree};
ghost use Rattle.tree_type_members.specs.TypeSystemLayout.{field_definition_text, enum_value_text};

use crate::enum_value::EnumValueDefinition;
use crate::field_definition::FieldDefinition;
use crate::print_members::{put_enum_value, put_field_definition};
use std::fmt;
use tree_literals::{Level, Sink, Tree, put_start};

impl Tree for FieldDefinition {
    ghost text = { λ t prefix level. standing prefix level (field_definition_text prefix (field_definition_tree t) level) };

    fn put<S: Sink>(&self, sink: &mut S, prefix: Option<&str>, level: &Level) {
        put_start(sink, prefix, level);
        put_field_definition(sink, prefix, level, self);
    }
}

impl fmt::Display for FieldDefinition {
    ghost output = { λ t. Some (standing default_prefix 0 (field_definition_text default_prefix (field_definition_tree t) 0)) };

    fn fmt<W: fmt::Write>(&self, f: &mut fmt::Formatter<W>) -> fmt::Result {
        self.serialize().fmt(f)
    }
}

impl Tree for EnumValueDefinition {
    ghost text = { λ t prefix level. standing prefix level (enum_value_text prefix (enum_value_tree t) level) };

    fn put<S: Sink>(&self, sink: &mut S, prefix: Option<&str>, level: &Level) {
        put_start(sink, prefix, level);
        put_enum_value(sink, prefix, level, self);
    }
}

impl fmt::Display for EnumValueDefinition {
    ghost output = { λ t. Some (standing default_prefix 0 (enum_value_text default_prefix (enum_value_tree t) 0)) };

    fn fmt<W: fmt::Write>(&self, f: &mut fmt::Formatter<W>) -> fmt::Result {
        self.serialize().fmt(f)
    }
}
