//! Definitions in general, and whole documents.
ghost use Rattle.std.specs.Prelude.{map};
ghost use Rattle.std.specs.Option.{option_copied};
ghost use Rattle.spec_tree.specs.in_operations.Levels.{level_depth};
ghost use Rattle.tree_definitions.specs.DefinitionTree.{definition_tree};
ghost use Rattle.tree_definitions.specs.DocumentLayout.{definition_text, between_text, next_definition_text, end_text, document_text};
ghost use Rattle.tree_definitions.specs.Printed.{further_definitions_text};

use crate::definition::Definition;
use spec_tree::{begins_output, put_fragment, put_operation};
use tree_composite_types::{
    put_directive_definition, put_interface_definition, put_interface_extension,
    put_object_definition, put_object_extension, put_union_definition, put_union_extension,
};
use tree_input_types::{
    put_enum_definition, put_enum_extension, put_input_object_definition,
    put_input_object_extension, put_scalar_definition, put_scalar_extension, put_schema_definition,
    put_schema_extension,
};
use tree_literals::{Level, Sink, put_start};

/// A definition. `at_start` says whether nothing comes before it.
pub(crate) fn put_definition<S: Sink>(
    sink: &mut S,
    prefix: Option<&str>,
    level: &Level,
    at_start: bool,
    definition: &Definition,
)
    ensures { S.puts sink.old (definition_text at_start (option_copied prefix.entry) (definition_tree definition.now) (level_depth level.now)) sink.new }
{
    match definition {
        Definition::OperationDefinition(node) => put_operation(
            sink,
            prefix,
            level,
            at_start,
            node.content(),
        ),
        Definition::FragmentDefinition(node) => put_fragment(sink, prefix, level, node.content()),
        Definition::DirectiveDefinition(node) => put_directive_definition(
            sink,
            prefix,
            level,
            node.content(),
        ),
        Definition::ScalarTypeDefinition(node) => put_scalar_definition(
            sink,
            prefix,
            level,
            node.content(),
        ),
        Definition::ScalarTypeExtension(node) => put_scalar_extension(
            sink,
            prefix,
            level,
            node.content(),
        ),
        Definition::ObjectTypeDefinition(node) => put_object_definition(
            sink,
            prefix,
            level,
            node.content(),
        ),
        Definition::ObjectTypeExtension(node) => put_object_extension(
            sink,
            prefix,
            level,
            node.content(),
        ),
        Definition::InterfaceTypeDefinition(node) => put_interface_definition(
            sink,
            prefix,
            level,
            node.content(),
        ),
        Definition::InterfaceTypeExtension(node) => put_interface_extension(
            sink,
            prefix,
            level,
            node.content(),
        ),
        Definition::UnionTypeDefinition(node) => put_union_definition(
            sink,
            prefix,
            level,
            node.content(),
        ),
        Definition::UnionTypeExtension(node) => put_union_extension(
            sink,
            prefix,
            level,
            node.content(),
        ),
        Definition::EnumTypeDefinition(node) => put_enum_definition(
            sink,
            prefix,
            level,
            node.content(),
        ),
        Definition::EnumTypeExtension(node) => put_enum_extension(
            sink,
            prefix,
            level,
            node.content(),
        ),
        Definition::InputObjectTypeDefinition(node) => put_input_object_definition(
            sink,
            prefix,
            level,
            node.content(),
        ),
        Definition::InputObjectTypeExtension(node) => put_input_object_extension(
            sink,
            prefix,
            level,
            node.content(),
        ),
        Definition::SchemaDefinition(node) => put_schema_definition(
            sink,
            prefix,
            level,
            node.content(),
        ),
        Definition::SchemaExtension(node) => put_schema_extension(
            sink,
            prefix,
            level,
            node.content(),
        ),
    }
}

fn put_between<S: Sink>(sink: &mut S, prefix: Option<&str>)
    ensures { S.puts sink.old (between_text (option_copied prefix.entry)) sink.new }
{
    match prefix {
        None => sink.put(" "),
        Some(_) => sink.put("\n\n"),
    }
}

fn put_end<S: Sink>(sink: &mut S, prefix: Option<&str>)
    ensures { S.puts sink.old (end_text (option_copied prefix.entry)) sink.new }
{
    match prefix {
        None => {}
        Some(_) => sink.put("\n"),
    }
}

fn put_next_definition<S: Sink>(
    sink: &mut S,
    prefix: Option<&str>,
    level: &Level,
    definition: &Definition,
)
    ensures { S.puts sink.old (next_definition_text (option_copied prefix.entry) (level_depth level.now) (definition_tree definition.now)) sink.new }
{
    put_between(sink, prefix);
    put_start(sink, prefix, level);
    put_definition(sink, prefix, level, false, definition);
}

fn put_further_definitions<S: Sink>(
    sink: &mut S,
    prefix: Option<&str>,
    level: &Level,
    definitions: &[Definition],
)
    ensures { S.puts sink.old (further_definitions_text (option_copied prefix.entry) (level_depth level.now) (map definition_tree definitions.now)) sink.new }
{
    for definition in definitions {
        put_next_definition(sink, prefix, level, definition);
    }
}

pub(crate) fn put_document<S: Sink>(
    sink: &mut S,
    prefix: Option<&str>,
    level: &Level,
    definitions: &[Definition],
)
    ensures { S.puts sink.old (document_text (option_copied prefix.entry) (level_depth level.now) (map definition_tree definitions.now)) sink.new }
{
    match definitions {
        [] => put_end(sink, prefix),
        [first, further @ ..] => {
            let at_start = begins_output(prefix, level);
            put_start(sink, prefix, level);
            put_definition(sink, prefix, level, at_start, first);
            put_further_definitions(sink, prefix, level, further);
            put_end(sink, prefix);
        }
    }
}
