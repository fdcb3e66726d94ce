//! Fields, enum values and input values, and the braces round them.
ghost use Rattle.std.specs.Prelude.{map};
ghost use Rattle.std.specs.Option.{option_copied};
ghost use Rattle.tree_literals.specs.in_names.Placed.{node_tree};
ghost use Rattle.tree_directives.specs.DirectiveTree.{input_value_tree};
ghost use Rattle.tree_literals.specs.Levels.{level_depth};
ghost use Rattle.tree_literals.specs.LineLayout.{set_text};
ghost use Rattle.tree_literals.specs.LineLayout.{texts_of};
ghost use Rattle.tree_directives.specs.InputLayout.{input_value_text};
ghost use Rattle.tree_type_members.specs.TypeSystemTree.{field_definition_tree, enum_value_tree};
ghost use Rattle.tree_type_members.specs.TypeSystemLayout.{undescribed_field_text, field_definition_text, enum_value_text};
ghost use Rattle.tree_type_members.specs.Printed.{field_member_text, field_members_text, value_member_text, value_members_text};

use crate::enum_value::EnumValueDefinition;
use crate::field_definition::FieldDefinition;
use tree_directives::{
    InputValueDefinition, put_argument_definitions, put_directives, put_input_members,
};
use tree_literals::{Level, Node, Sink, put_break, put_description, put_type};

fn put_undescribed_field<S: Sink>(
    sink: &mut S,
    prefix: Option<&str>,
    level: &Level,
    field: &FieldDefinition,
)
    ensures { S.puts sink.old (undescribed_field_text (option_copied prefix.entry) (field_definition_tree field.now) (level_depth level.now)) sink.new }
{
    sink.put(field.name.as_str());
    put_argument_definitions(sink, prefix, level, &field.arguments);
    sink.put(": ");
    put_type(sink, &field.ty);
    put_directives(sink, &field.directives);
}

pub(crate) fn put_field_definition<S: Sink>(
    sink: &mut S,
    prefix: Option<&str>,
    level: &Level,
    field: &FieldDefinition,
)
    ensures { S.puts sink.old (field_definition_text (option_copied prefix.entry) (field_definition_tree field.now) (level_depth level.now)) sink.new }
{
    put_description(sink, prefix, level, &field.description);
    put_undescribed_field(sink, prefix, level, field);
}

pub(crate) fn put_enum_value<S: Sink>(
    sink: &mut S,
    prefix: Option<&str>,
    level: &Level,
    value: &EnumValueDefinition,
)
    ensures { S.puts sink.old (enum_value_text (option_copied prefix.entry) (enum_value_tree value.now) (level_depth level.now)) sink.new }
{
    put_description(sink, prefix, level, &value.description);
    sink.put(value.value.as_str());
    put_directives(sink, &value.directives);
}

fn put_field_member<S: Sink>(
    sink: &mut S,
    prefix: Option<&str>,
    level: &Level,
    field: &FieldDefinition,
)
    ensures { S.puts sink.old (field_member_text (option_copied prefix.entry) (level_depth level.now) field.now) sink.new }
{
    put_break(sink, prefix, level);
    put_field_definition(sink, prefix, level, field);
}

fn put_field_members<S: Sink>(
    sink: &mut S,
    prefix: Option<&str>,
    level: &Level,
    fields: &[Node<FieldDefinition>],
)
    ensures { S.puts sink.old (field_members_text (option_copied prefix.entry) (level_depth level.now) fields.now) sink.new }
{
    for field in fields {
        put_field_member(sink, prefix, level, field.content());
    }
}

/// Fields in braces; nothing at all without fields. For the crates of definitions above.
pub fn put_field_set<S: Sink>(
    sink: &mut S,
    prefix: Option<&str>,
    outer: &Level,
    fields: &[Node<FieldDefinition>],
)
    ensures { S.puts sink.old (set_text (option_copied prefix.entry) (level_depth outer.now) (texts_of (field_definition_text (option_copied prefix.entry)) (map (node_tree field_definition_tree) fields.now))) sink.new }
{
    match fields {
        [] => {}
        [_, ..] => {
            sink.put(" {");
            put_field_members(sink, prefix, &Level::In(&*outer), fields);
            put_break(sink, prefix, outer);
            sink.put("}");
        }
    }
}

fn put_value_member<S: Sink>(
    sink: &mut S,
    prefix: Option<&str>,
    level: &Level,
    value: &EnumValueDefinition,
)
    ensures { S.puts sink.old (value_member_text (option_copied prefix.entry) (level_depth level.now) value.now) sink.new }
{
    put_break(sink, prefix, level);
    put_enum_value(sink, prefix, level, value);
}

fn put_value_members<S: Sink>(
    sink: &mut S,
    prefix: Option<&str>,
    level: &Level,
    values: &[Node<EnumValueDefinition>],
)
    ensures { S.puts sink.old (value_members_text (option_copied prefix.entry) (level_depth level.now) values.now) sink.new }
{
    for value in values {
        put_value_member(sink, prefix, level, value.content());
    }
}

/// Enum values in braces; nothing at all without values. For the crates of definitions above.
pub fn put_value_set<S: Sink>(
    sink: &mut S,
    prefix: Option<&str>,
    level: &Level,
    values: &[Node<EnumValueDefinition>],
)
    ensures { S.puts sink.old (set_text (option_copied prefix.entry) (level_depth level.now) (texts_of (enum_value_text (option_copied prefix.entry)) (map (node_tree enum_value_tree) values.now))) sink.new }
{
    match values {
        [] => {}
        [_, ..] => {
            sink.put(" {");
            put_value_members(sink, prefix, &Level::In(&*level), values);
            put_break(sink, prefix, level);
            sink.put("}");
        }
    }
}

/// Input values in braces; nothing at all without values. For the crates of definitions above.
pub fn put_input_set<S: Sink>(
    sink: &mut S,
    prefix: Option<&str>,
    level: &Level,
    fields: &[Node<InputValueDefinition>],
)
    ensures { S.puts sink.old (set_text (option_copied prefix.entry) (level_depth level.now) (texts_of (input_value_text (option_copied prefix.entry)) (map (node_tree input_value_tree) fields.now))) sink.new }
{
    match fields {
        [] => {}
        [_, ..] => {
            sink.put(" {");
            put_input_members(sink, prefix, &Level::In(&*level), fields);
            put_break(sink, prefix, level);
            sink.put("}");
        }
    }
}
