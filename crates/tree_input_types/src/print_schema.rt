//! Definitions and extensions of the schema.
ghost use Rattle.std.specs.Prelude.{map};
ghost use Rattle.std.specs.Option.{option_copied, option_map};
ghost use Rattle.tree_literals.specs.in_names.Placed.{node_tree, name_tree, text_tree};
ghost use Rattle.tree_literals.specs.Levels.{level_depth};
ghost use Rattle.tree_literals.specs.LineLayout.{set_text};
ghost use Rattle.tree_literals.specs.StringLayout.{description_text};
ghost use Rattle.tree_literals.specs.LineLayout.{texts_of};
ghost use Rattle.tree_type_members.specs.TypeSystemLayout.{extend, root_text, schema_text};
ghost use Rattle.tree_input_types.specs.InputTypeTree.{root_tree, schema_parts, schema_extension_parts};
ghost use Rattle.tree_input_types.specs.Printed.{root_member_text, root_members_text};

use crate::schema::{SchemaDefinition, SchemaExtension};
use tree_literals::{Level, Node, Sink, put_break, put_description};
use tree_type_members::{NamedType, OperationType, put_directives, put_keyword};

fn put_root<S: Sink>(sink: &mut S, operation: OperationType, name: &NamedType)
    ensures { S.puts sink.old (root_text (record { operation_type = operation; name = name_tree name.now }) 0) sink.new }
{
    put_keyword(sink, operation);
    sink.put(": ");
    sink.put(name.as_str());
}

fn put_root_member<S: Sink>(
    sink: &mut S,
    prefix: Option<&str>,
    level: &Level,
    operation: OperationType,
    name: &NamedType,
)
    ensures { S.puts sink.old (root_member_text (option_copied prefix.entry) (level_depth level.now) operation name.now) sink.new }
{
    put_break(sink, prefix, level);
    put_root(sink, operation, name);
}

fn put_root_members<S: Sink>(
    sink: &mut S,
    prefix: Option<&str>,
    level: &Level,
    roots: &[Node<(OperationType, NamedType)>],
)
    ensures { S.puts sink.old (root_members_text (option_copied prefix.entry) (level_depth level.now) roots.now) sink.new }
{
    for root in roots {
        put_root_member(sink, prefix, level, root.content().0, &root.content().1);
    }
}

fn put_root_set<S: Sink>(
    sink: &mut S,
    prefix: Option<&str>,
    level: &Level,
    roots: &[Node<(OperationType, NamedType)>],
)
    ensures { S.puts sink.old (set_text (option_copied prefix.entry) (level_depth level.now) (texts_of root_text (map (node_tree root_tree) roots.now))) sink.new }
{
    match roots {
        [] => {}
        [_, ..] => {
            sink.put(" {");
            put_root_members(sink, prefix, &Level::In(&*level), roots);
            put_break(sink, prefix, level);
            sink.put("}");
        }
    }
}

/// The definition of the schema. For the crate of definitions above.
pub fn put_schema_definition<S: Sink>(
    sink: &mut S,
    prefix: Option<&str>,
    level: &Level,
    definition: &SchemaDefinition,
)
    ensures { S.puts sink.old (schema_text (description_text (option_copied prefix.entry) (level_depth level.now) (option_map text_tree definition.now.description)) (option_copied prefix.entry) (schema_parts definition.now) (level_depth level.now)) sink.new }
{
    put_description(sink, prefix, level, &definition.description);
    sink.put("schema");
    put_directives(sink, &definition.directives);
    put_root_set(sink, prefix, level, &definition.root_operations);
}

/// The extension of the schema. For the crate of definitions above.
pub fn put_schema_extension<S: Sink>(
    sink: &mut S,
    prefix: Option<&str>,
    level: &Level,
    definition: &SchemaExtension,
)
    ensures { S.puts sink.old (schema_text extend (option_copied prefix.entry) (schema_extension_parts definition.now) (level_depth level.now)) sink.new }
{
    sink.put("extend ");
    sink.put("schema");
    put_directives(sink, &definition.directives);
    put_root_set(sink, prefix, level, &definition.root_operations);
}
