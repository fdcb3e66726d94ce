//! Definitions and extensions of composite types.
ghost use Rattle.std.specs.Prelude.{codes};
ghost use Rattle.std.specs.Option.{option_copied, option_map};
ghost use Rattle.tree_literals.specs.in_names.Placed.{text_tree};
ghost use Rattle.tree_literals.specs.Levels.{level_depth};
ghost use Rattle.tree_literals.specs.StringLayout.{description_text};
ghost use Rattle.tree_type_members.specs.TypeSystemLayout.{extend, fields_text, union_text};
ghost use Rattle.tree_composite_types.specs.CompositeTree.{object_parts, object_extension_parts, interface_parts, interface_extension_parts, union_parts, union_extension_parts};

use crate::interface_type::{InterfaceTypeDefinition, InterfaceTypeExtension};
use crate::object_type::{ObjectTypeDefinition, ObjectTypeExtension};
use crate::union_type::{UnionTypeDefinition, UnionTypeExtension};
use tree_literals::{Level, Sink, put_description};
use tree_type_members::{put_field_set, put_head, put_names};

/// The definition of an object type. For the crate of definitions above.
pub fn put_object_definition<S: Sink>(
    sink: &mut S,
    prefix: Option<&str>,
    level: &Level,
    definition: &ObjectTypeDefinition,
)
    ensures { S.puts sink.old (fields_text (description_text (option_copied prefix.entry) (level_depth level.now) (option_map text_tree definition.now.description)) (codes "type ") (option_copied prefix.entry) (object_parts definition.now) (level_depth level.now)) sink.new }
{
    put_description(sink, prefix, level, &definition.description);
    put_head(
        sink,
        "type ",
        &definition.name,
        &definition.implements_interfaces,
        &definition.directives,
    );
    put_field_set(sink, prefix, level, &definition.fields);
}

/// The extension of an object type. For the crate of definitions above.
pub fn put_object_extension<S: Sink>(
    sink: &mut S,
    prefix: Option<&str>,
    level: &Level,
    definition: &ObjectTypeExtension,
)
    ensures { S.puts sink.old (fields_text extend (codes "type ") (option_copied prefix.entry) (object_extension_parts definition.now) (level_depth level.now)) sink.new }
{
    sink.put("extend ");
    put_head(
        sink,
        "type ",
        &definition.name,
        &definition.implements_interfaces,
        &definition.directives,
    );
    put_field_set(sink, prefix, level, &definition.fields);
}

/// The definition of an interface type. For the crate of definitions above.
pub fn put_interface_definition<S: Sink>(
    sink: &mut S,
    prefix: Option<&str>,
    level: &Level,
    definition: &InterfaceTypeDefinition,
)
    ensures { S.puts sink.old (fields_text (description_text (option_copied prefix.entry) (level_depth level.now) (option_map text_tree definition.now.description)) (codes "interface ") (option_copied prefix.entry) (interface_parts definition.now) (level_depth level.now)) sink.new }
{
    put_description(sink, prefix, level, &definition.description);
    put_head(
        sink,
        "interface ",
        &definition.name,
        &definition.implements_interfaces,
        &definition.directives,
    );
    put_field_set(sink, prefix, level, &definition.fields);
}

/// The extension of an interface type. For the crate of definitions above.
pub fn put_interface_extension<S: Sink>(
    sink: &mut S,
    prefix: Option<&str>,
    level: &Level,
    definition: &InterfaceTypeExtension,
)
    ensures { S.puts sink.old (fields_text extend (codes "interface ") (option_copied prefix.entry) (interface_extension_parts definition.now) (level_depth level.now)) sink.new }
{
    sink.put("extend ");
    put_head(
        sink,
        "interface ",
        &definition.name,
        &definition.implements_interfaces,
        &definition.directives,
    );
    put_field_set(sink, prefix, level, &definition.fields);
}

/// The definition of a union type. For the crate of definitions above.
pub fn put_union_definition<S: Sink>(
    sink: &mut S,
    prefix: Option<&str>,
    level: &Level,
    definition: &UnionTypeDefinition,
)
    ensures { S.puts sink.old (union_text (description_text (option_copied prefix.entry) (level_depth level.now) (option_map text_tree definition.now.description)) (union_parts definition.now)) sink.new }
{
    put_description(sink, prefix, level, &definition.description);
    put_head(
        sink,
        "union ",
        &definition.name,
        &[],
        &definition.directives,
    );
    put_names(sink, " = ", " | ", &definition.members);
}

/// The extension of a union type. For the crate of definitions above.
pub fn put_union_extension<S: Sink>(
    sink: &mut S,
    prefix: Option<&str>,
    level: &Level,
    definition: &UnionTypeExtension,
)
    ensures { S.puts sink.old (union_text extend (union_extension_parts definition.now)) sink.new }
{
    sink.put("extend ");
    put_head(
        sink,
        "union ",
        &definition.name,
        &[],
        &definition.directives,
    );
    put_names(sink, " = ", " | ", &definition.members);
}
