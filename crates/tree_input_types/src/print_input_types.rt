//! Definitions and extensions of scalars, enums and input objects.
ghost use Rattle.std.specs.Option.{option_copied, option_map};
ghost use Rattle.tree_literals.specs.in_names.Placed.{text_tree};
ghost use Rattle.tree_literals.specs.Levels.{level_depth};
ghost use Rattle.tree_literals.specs.StringLayout.{description_text};
ghost use Rattle.tree_type_members.specs.TypeSystemLayout.{extend, scalar_text, enum_text, input_object_text};
ghost use Rattle.tree_input_types.specs.InputTypeTree.{scalar_parts, scalar_extension_parts, enum_parts, enum_extension_parts, input_object_parts, input_object_extension_parts};

use crate::enum_type::{EnumTypeDefinition, EnumTypeExtension};
use crate::input_object_type::{InputObjectTypeDefinition, InputObjectTypeExtension};
use crate::scalar_type::{ScalarTypeDefinition, ScalarTypeExtension};
use tree_literals::{Level, Sink, put_description};
use tree_type_members::{put_head, put_input_set, put_value_set};

/// The definition of a scalar type. For the crate of definitions above.
pub fn put_scalar_definition<S: Sink>(
    sink: &mut S,
    prefix: Option<&str>,
    level: &Level,
    definition: &ScalarTypeDefinition,
)
    ensures { S.puts sink.old (scalar_text (description_text (option_copied prefix.entry) (level_depth level.now) (option_map text_tree definition.now.description)) (scalar_parts definition.now)) sink.new }
{
    put_description(sink, prefix, level, &definition.description);
    put_head(
        sink,
        "scalar ",
        &definition.name,
        &[],
        &definition.directives,
    );
}

/// The extension of a scalar type. For the crate of definitions above.
pub fn put_scalar_extension<S: Sink>(
    sink: &mut S,
    prefix: Option<&str>,
    level: &Level,
    definition: &ScalarTypeExtension,
)
    ensures { S.puts sink.old (scalar_text extend (scalar_extension_parts definition.now)) sink.new }
{
    sink.put("extend ");
    put_head(
        sink,
        "scalar ",
        &definition.name,
        &[],
        &definition.directives,
    );
}

/// The definition of an enum type. For the crate of definitions above.
pub fn put_enum_definition<S: Sink>(
    sink: &mut S,
    prefix: Option<&str>,
    level: &Level,
    definition: &EnumTypeDefinition,
)
    ensures { S.puts sink.old (enum_text (description_text (option_copied prefix.entry) (level_depth level.now) (option_map text_tree definition.now.description)) (option_copied prefix.entry) (enum_parts definition.now) (level_depth level.now)) sink.new }
{
    put_description(sink, prefix, level, &definition.description);
    put_head(sink, "enum ", &definition.name, &[], &definition.directives);
    put_value_set(sink, prefix, level, &definition.values);
}

/// The extension of an enum type. For the crate of definitions above.
pub fn put_enum_extension<S: Sink>(
    sink: &mut S,
    prefix: Option<&str>,
    level: &Level,
    definition: &EnumTypeExtension,
)
    ensures { S.puts sink.old (enum_text extend (option_copied prefix.entry) (enum_extension_parts definition.now) (level_depth level.now)) sink.new }
{
    sink.put("extend ");
    put_head(sink, "enum ", &definition.name, &[], &definition.directives);
    put_value_set(sink, prefix, level, &definition.values);
}

/// The definition of an input object type. For the crate of definitions above.
pub fn put_input_object_definition<S: Sink>(
    sink: &mut S,
    prefix: Option<&str>,
    level: &Level,
    definition: &InputObjectTypeDefinition,
)
    ensures { S.puts sink.old (input_object_text (description_text (option_copied prefix.entry) (level_depth level.now) (option_map text_tree definition.now.description)) (option_copied prefix.entry) (input_object_parts definition.now) (level_depth level.now)) sink.new }
{
    put_description(sink, prefix, level, &definition.description);
    put_head(
        sink,
        "input ",
        &definition.name,
        &[],
        &definition.directives,
    );
    put_input_set(sink, prefix, level, &definition.fields);
}

/// The extension of an input object type. For the crate of definitions above.
pub fn put_input_object_extension<S: Sink>(
    sink: &mut S,
    prefix: Option<&str>,
    level: &Level,
    definition: &InputObjectTypeExtension,
)
    ensures { S.puts sink.old (input_object_text extend (option_copied prefix.entry) (input_object_extension_parts definition.now) (level_depth level.now)) sink.new }
{
    sink.put("extend ");
    put_head(
        sink,
        "input ",
        &definition.name,
        &[],
        &definition.directives,
    );
    put_input_set(sink, prefix, level, &definition.fields);
}
