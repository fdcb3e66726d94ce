//! The texts of schema definitions and extensions by themselves.
ghost use Rattle.std.specs.Prelude.{Some};
ghost use Rattle.std.specs.Option.{option_map};
ghost use Rattle.tree_literals.specs.in_names.Placed.{text_tree};
ghost use Rattle.tree_literals.specs.LineLayout.{default_prefix, standing};
ghost use Rattle.tree_literals.specs.StringLayout.{description_text};
ghost use Rattle.tree_type_members.specs.TypeSystemLayout.{extend, schema_text};
ghost use Rattle.tree_input_types.specs.InputTypeTree.{schema_parts, schema_extension_parts};

use crate::print_schema::{put_schema_definition, put_schema_extension};
use crate::schema::{SchemaDefinition, SchemaExtension};
use std::fmt;
use tree_literals::{Level, Sink, Tree, put_start};

impl Tree for SchemaDefinition {
    ghost text = { λ t prefix level. standing prefix level (schema_text (description_text prefix level (option_map text_tree t.description)) prefix (schema_parts t) level) };

    fn put<S: Sink>(&self, sink: &mut S, prefix: Option<&str>, level: &Level) {
        put_start(sink, prefix, level);
        put_schema_definition(sink, prefix, level, self);
    }
}

impl fmt::Display for SchemaDefinition {
    ghost output = { λ t. Some (standing default_prefix 0 (schema_text (description_text default_prefix 0 (option_map text_tree t.description)) default_prefix (schema_parts t) 0)) };

    fn fmt<W: fmt::Write>(&self, f: &mut fmt::Formatter<W>) -> fmt::Result {
        self.serialize().fmt(f)
    }
}

impl Tree for SchemaExtension {
    ghost text = { λ t prefix level. standing prefix level (schema_text extend prefix (schema_extension_parts t) level) };

    fn put<S: Sink>(&self, sink: &mut S, prefix: Option<&str>, level: &Level) {
        put_start(sink, prefix, level);
        put_schema_extension(sink, prefix, level, self);
    }
}

impl fmt::Display for SchemaExtension {
    ghost output = { λ t. Some (standing default_prefix 0 (schema_text extend default_prefix (schema_extension_parts t) 0)) };

    fn fmt<W: fmt::Write>(&self, f: &mut fmt::Formatter<W>) -> fmt::Result {
        self.serialize().fmt(f)
    }
}
