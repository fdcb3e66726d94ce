//! The texts of scalars, enums and input objects by themselves.
ghost use Rattle.std.specs.Prelude.{Some};
ghost use Rattle.std.specs.Option.{option_map};
ghost use Rattle.tree_literals.specs.in_names.Placed.{text_tree};
ghost use Rattle.tree_literals.specs.LineLayout.{default_prefix, standing};
ghost use Rattle.tree_literals.specs.StringLayout.{description_text};
ghost use Rattle.tree_type_members.specs.TypeSystemLayout.{extend, scalar_text, enum_text, input_object_text};
ghost use Rattle.tree_input_types.specs.InputTypeTree.{scalar_parts, scalar_extension_parts, enum_parts, enum_extension_parts, input_object_parts, input_object_extension_parts};

use crate::enum_type::{EnumTypeDefinition, EnumTypeExtension};
use crate::input_object_type::{InputObjectTypeDefinition, InputObjectTypeExtension};
use crate::print_input_types::{
    put_enum_definition, put_enum_extension, put_input_object_definition,
    put_input_object_extension, put_scalar_definition, put_scalar_extension,
};
use crate::scalar_type::{ScalarTypeDefinition, ScalarTypeExtension};
use std::fmt;
use tree_literals::{Level, Sink, Tree, put_start};

impl Tree for ScalarTypeDefinition {
    ghost text = { λ t prefix level. standing prefix level (scalar_text (description_text prefix level (option_map text_tree t.description)) (scalar_parts t)) };

    fn put<S: Sink>(&self, sink: &mut S, prefix: Option<&str>, level: &Level) {
        put_start(sink, prefix, level);
        put_scalar_definition(sink, prefix, level, self);
    }
}

impl fmt::Display for ScalarTypeDefinition {
    ghost output = { λ t. Some (standing default_prefix 0 (scalar_text (description_text default_prefix 0 (option_map text_tree t.description)) (scalar_parts t))) };

    fn fmt<W: fmt::Write>(&self, f: &mut fmt::Formatter<W>) -> fmt::Result {
        self.serialize().fmt(f)
    }
}

impl Tree for ScalarTypeExtension {
    ghost text = { λ t prefix level. standing prefix level (scalar_text extend (scalar_extension_parts t)) };

    fn put<S: Sink>(&self, sink: &mut S, prefix: Option<&str>, level: &Level) {
        put_start(sink, prefix, level);
        put_scalar_extension(sink, prefix, level, self);
    }
}

impl fmt::Display for ScalarTypeExtension {
    ghost output = { λ t. Some (standing default_prefix 0 (scalar_text extend (scalar_extension_parts t))) };

    fn fmt<W: fmt::Write>(&self, f: &mut fmt::Formatter<W>) -> fmt::Result {
        self.serialize().fmt(f)
    }
}

impl Tree for EnumTypeDefinition {
    ghost text = { λ t prefix level. standing prefix level (enum_text (description_text prefix level (option_map text_tree t.description)) prefix (enum_parts t) level) };

    fn put<S: Sink>(&self, sink: &mut S, prefix: Option<&str>, level: &Level) {
        put_start(sink, prefix, level);
        put_enum_definition(sink, prefix, level, self);
    }
}

impl fmt::Display for EnumTypeDefinition {
    ghost output = { λ t. Some (standing default_prefix 0 (enum_text (description_text default_prefix 0 (option_map text_tree t.description)) default_prefix (enum_parts t) 0)) };

    fn fmt<W: fmt::Write>(&self, f: &mut fmt::Formatter<W>) -> fmt::Result {
        self.serialize().fmt(f)
    }
}

impl Tree for EnumTypeExtension {
    ghost text = { λ t prefix level. standing prefix level (enum_text extend prefix (enum_extension_parts t) level) };

    fn put<S: Sink>(&self, sink: &mut S, prefix: Option<&str>, level: &Level) {
        put_start(sink, prefix, level);
        put_enum_extension(sink, prefix, level, self);
    }
}

impl fmt::Display for EnumTypeExtension {
    ghost output = { λ t. Some (standing default_prefix 0 (enum_text extend default_prefix (enum_extension_parts t) 0)) };

    fn fmt<W: fmt::Write>(&self, f: &mut fmt::Formatter<W>) -> fmt::Result {
        self.serialize().fmt(f)
    }
}

impl Tree for InputObjectTypeDefinition {
    ghost text = { λ t prefix level. standing prefix level (input_object_text (description_text prefix level (option_map text_tree t.description)) prefix (input_object_parts t) level) };

    fn put<S: Sink>(&self, sink: &mut S, prefix: Option<&str>, level: &Level) {
        put_start(sink, prefix, level);
        put_input_object_definition(sink, prefix, level, self);
    }
}

impl fmt::Display for InputObjectTypeDefinition {
    ghost output = { λ t. Some (standing default_prefix 0 (input_object_text (description_text default_prefix 0 (option_map text_tree t.description)) default_prefix (input_object_parts t) 0)) };

    fn fmt<W: fmt::Write>(&self, f: &mut fmt::Formatter<W>) -> fmt::Result {
        self.serialize().fmt(f)
    }
}

impl Tree for InputObjectTypeExtension {
    ghost text = { λ t prefix level. standing prefix level (input_object_text extend prefix (input_object_extension_parts t) level) };

    fn put<S: Sink>(&self, sink: &mut S, prefix: Option<&str>, level: &Level) {
        put_start(sink, prefix, level);
        put_input_object_extension(sink, prefix, level, self);
    }
}

impl fmt::Display for InputObjectTypeExtension {
    ghost output = { λ t. Some (standing default_prefix 0 (input_object_text extend default_prefix (input_object_extension_parts t) 0)) };

    fn fmt<W: fmt::Write>(&self, f: &mut fmt::Formatter<W>) -> fmt::Result {
        self.serialize().fmt(f)
    }
}
