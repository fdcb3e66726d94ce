//! The texts of objects and interfaces by themselves.
ghost use Rattle.std.specs.Prelude.{codes, Some};
ghost use Rattle.std.specs.Option.{option_map};
ghost use Rattle.tree_literals.specs.in_names.Placed.{text_tree};
ghost use Rattle.tree_literals.specs.LineLayout.{default_prefix, standing};
ghost use Rattle.tree_literals.specs.StringLayout.{description_text};
ghost use Rattle.tree_type_members.specs.TypeSystemLayout.{extend, fields_text};
ghost use Rattle.tree_composite_types.specs.CompositeTree.{object_parts, object_extension_parts, interface_parts, interface_extension_parts};

use crate::interface_type::{InterfaceTypeDefinition, InterfaceTypeExtension};
use crate::object_type::{ObjectTypeDefinition, ObjectTypeExtension};
use crate::print_composite::{
    put_interface_definition, put_interface_extension, put_object_definition, put_object_extension,
};
use std::fmt;
use tree_literals::{Level, Sink, Tree, put_start};

impl Tree for ObjectTypeDefinition {
    ghost text = { λ t prefix level. standing prefix level (fields_text (description_text prefix level (option_map text_tree t.description)) (codes "type ") prefix (object_parts t) level) };

    fn put<S: Sink>(&self, sink: &mut S, prefix: Option<&str>, level: &Level) {
        put_start(sink, prefix, level);
        put_object_definition(sink, prefix, level, self);
    }
}

impl fmt::Display for ObjectTypeDefinition {
    ghost output = { λ t. Some (standing default_prefix 0 (fields_text (description_text default_prefix 0 (option_map text_tree t.description)) (codes "type ") default_prefix (object_parts t) 0)) };

    fn fmt<W: fmt::Write>(&self, f: &mut fmt::Formatter<W>) -> fmt::Result {
        self.serialize().fmt(f)
    }
}

impl Tree for ObjectTypeExtension {
    ghost text = { λ t prefix level. standing prefix level (fields_text extend (codes "type ") prefix (object_extension_parts t) level) };

    fn put<S: Sink>(&self, sink: &mut S, prefix: Option<&str>, level: &Level) {
        put_start(sink, prefix, level);
        put_object_extension(sink, prefix, level, self);
    }
}

impl fmt::Display for ObjectTypeExtension {
    ghost output = { λ t. Some (standing default_prefix 0 (fields_text extend (codes "type ") default_prefix (object_extension_parts t) 0)) };

    fn fmt<W: fmt::Write>(&self, f: &mut fmt::Formatter<W>) -> fmt::Result {
        self.serialize().fmt(f)
    }
}

impl Tree for InterfaceTypeDefinition {
    ghost text = { λ t prefix level. standing prefix level (fields_text (description_text prefix level (option_map text_tree t.description)) (codes "interface ") prefix (interface_parts t) level) };

    fn put<S: Sink>(&self, sink: &mut S, prefix: Option<&str>, level: &Level) {
        put_start(sink, prefix, level);
        put_interface_definition(sink, prefix, level, self);
    }
}

impl fmt::Display for InterfaceTypeDefinition {
    ghost output = { λ t. Some (standing default_prefix 0 (fields_text (description_text default_prefix 0 (option_map text_tree t.description)) (codes "interface ") default_prefix (interface_parts t) 0)) };

    fn fmt<W: fmt::Write>(&self, f: &mut fmt::Formatter<W>) -> fmt::Result {
        self.serialize().fmt(f)
    }
}

impl Tree for InterfaceTypeExtension {
    ghost text = { λ t prefix level. standing prefix level (fields_text extend (codes "interface ") prefix (interface_extension_parts t) level) };

    fn put<S: Sink>(&self, sink: &mut S, prefix: Option<&str>, level: &Level) {
        put_start(sink, prefix, level);
        put_interface_extension(sink, prefix, level, self);
    }
}

impl fmt::Display for InterfaceTypeExtension {
    ghost output = { λ t. Some (standing default_prefix 0 (fields_text extend (codes "interface ") default_prefix (interface_extension_parts t) 0)) };

    fn fmt<W: fmt::Write>(&self, f: &mut fmt::Formatter<W>) -> fmt::Result {
        self.serialize().fmt(f)
    }
}
