//! Definitions of arguments, input fields and directives.
ghost use Rattle.std.specs.Prelude.{◌≡◌, ◌∷◌, ◌+◌, ℕ, List, [], map, codes, Bool, Some, None, true, false};
ghost use Rattle.std.specs.Option.{option_copied, option_map};
ghost use Rattle.tree_literals.specs.in_names.Placed.{Place};
ghost use Rattle.tree_directives.specs.DirectiveTree.{input_value_tree, input_value_trees, directive_definition_tree};
ghost use Rattle.tree_literals.specs.Joined.{joined, after, further_text};
ghost use Rattle.tree_literals.specs.Levels.{level_depth};
ghost use Rattle.tree_directives.specs.InputLayout.{input_value_text, input_members_text, are_on_lines, arguments_in_line, arguments_on_lines, argument_definitions_text, repeatable_text, locations_text, directive_definition_text};
ghost use Rattle.tree_directives.specs.DirectivePlaces.{location_keyword};
ghost use Rattle.tree_directives.specs.Printed.{further_inputs_text, input_member_text, undescribed_text};

use crate::directive::DirectiveDefinition;
use crate::directive_location::DirectiveLocation;
use crate::input_value::InputValueDefinition;
use crate::print_directive::put_directives;
use tree_literals::{Level, Node, Sink, put_break, put_default, put_description, put_type};

pub fn put_input_value<S: Sink>(
    sink: &mut S,
    prefix: Option<&str>,
    level: &Level,
    input: &InputValueDefinition,
)
    ensures { S.puts sink.old (input_value_text (option_copied prefix.entry) (input_value_tree input.now) (level_depth level.now)) sink.new }
{
    put_description(sink, prefix, level, &input.description);
    sink.put(input.name.as_str());
    sink.put(": ");
    put_type(sink, input.ty.content());
    put_default(sink, &input.default_value);
    put_directives(sink, &input.directives);
}

// A description is on a line of its own: if any argument has one, each argument takes a line.
fn are_on_lines(arguments: &[Node<InputValueDefinition>]) -> bool
    ensures { result ≡ are_on_lines (input_value_trees arguments.now) }
{
    for argument in arguments {
        if argument.content().description.is_some() {
            return true;
        }
    }
    false
}

fn put_next_input<S: Sink>(
    sink: &mut S,
    prefix: Option<&str>,
    level: &Level,
    input: &InputValueDefinition,
)
    ensures { S.puts sink.old (after (codes ", ") (input_value_text (option_copied prefix.entry) (input_value_tree input.now) (level_depth level.now))) sink.new }
{
    sink.put(", ");
    put_input_value(sink, prefix, level, input);
}

fn put_further_inputs<S: Sink>(
    sink: &mut S,
    prefix: Option<&str>,
    level: &Level,
    inputs: &[Node<InputValueDefinition>],
)
    ensures { S.puts sink.old (further_inputs_text (option_copied prefix.entry) inputs.now (level_depth level.now)) sink.new }
{
    for input in inputs {
        put_next_input(sink, prefix, level, input.content());
    }
}

fn put_arguments_in_line<S: Sink>(
    sink: &mut S,
    prefix: Option<&str>,
    level: &Level,
    arguments: &[Node<InputValueDefinition>],
)
    ensures { S.puts sink.old (arguments_in_line (option_copied prefix.entry) (input_value_trees arguments.now) (level_depth level.now)) sink.new }
{
    match arguments {
        [] => {}
        [first, further @ ..] => {
            sink.put("(");
            put_input_value(sink, prefix, level, first.content());
            put_further_inputs(sink, prefix, level, further);
            sink.put(")");
        }
    }
}

fn put_input_member<S: Sink>(
    sink: &mut S,
    prefix: Option<&str>,
    level: &Level,
    input: &InputValueDefinition,
)
    ensures { S.puts sink.old (input_member_text (option_copied prefix.entry) (level_depth level.now) input.now) sink.new }
{
    put_break(sink, prefix, level);
    put_input_value(sink, prefix, level, input);
}

/// Input values, each on a line of its own. Public for the printers of the crates above.
pub fn put_input_members<S: Sink>(
    sink: &mut S,
    prefix: Option<&str>,
    level: &Level,
    inputs: &[Node<InputValueDefinition>],
)
    ensures { S.puts sink.old (input_members_text (option_copied prefix.entry) (level_depth level.now) (input_value_trees inputs.now)) sink.new }
{
    for input in inputs {
        put_input_member(sink, prefix, level, input.content());
    }
}

fn put_arguments_on_lines<S: Sink>(
    sink: &mut S,
    prefix: &str,
    level: &Level,
    arguments: &[Node<InputValueDefinition>],
)
    ensures { S.puts sink.old (arguments_on_lines prefix.now (input_value_trees arguments.now) (level_depth level.now)) sink.new }
{
    sink.put("(");
    put_input_members(sink, Some(prefix), &Level::In(&*level), arguments);
    put_break(sink, Some(prefix), level);
    sink.put(")");
}

/// The definitions of arguments, within parentheses. Public for the printers of the crates above.
pub fn put_argument_definitions<S: Sink>(
    sink: &mut S,
    prefix: Option<&str>,
    level: &Level,
    arguments: &[Node<InputValueDefinition>],
)
    ensures { S.puts sink.old (argument_definitions_text (option_copied prefix.entry) (input_value_trees arguments.now) (level_depth level.now)) sink.new }
{
    match prefix {
        None => put_arguments_in_line(sink, None, level, arguments),
        Some(prefix) => {
            if are_on_lines(arguments) {
                put_arguments_on_lines(sink, prefix, level, arguments);
            } else {
                put_arguments_in_line(sink, Some(prefix), level, arguments);
            }
        }
    }
}

fn put_repeatable<S: Sink>(sink: &mut S, repeatable: bool)
    ensures { S.puts sink.old (repeatable_text repeatable) sink.new }
{
    match repeatable {
        true => sink.put(" repeatable"),
        false => {}
    }
}

fn put_location<S: Sink>(sink: &mut S, location: DirectiveLocation)
    ensures { S.puts sink.old (location_keyword location) sink.new }
{
    sink.put(location.name());
}

fn put_next_location<S: Sink>(sink: &mut S, location: DirectiveLocation)
    ensures { S.puts sink.old (after (codes " | ") (location_keyword location)) sink.new }
{
    sink.put(" | ");
    put_location(sink, location);
}

fn put_further_locations<S: Sink>(sink: &mut S, locations: &[DirectiveLocation])
    ensures { S.puts sink.old (further_text (codes " | ") (map location_keyword locations.now)) sink.new }
{
    for location in locations {
        put_next_location(sink, *location);
    }
}

fn put_locations<S: Sink>(sink: &mut S, locations: &[DirectiveLocation])
    ensures { S.puts sink.old (locations_text locations.now) sink.new }
{
    match locations {
        [] => {}
        [first, further @ ..] => {
            sink.put(" on ");
            put_location(sink, *first);
            put_further_locations(sink, further);
        }
    }
}

fn put_undescribed_directive<S: Sink>(
    sink: &mut S,
    prefix: Option<&str>,
    level: &Level,
    definition: &DirectiveDefinition,
)
    ensures { S.puts sink.old (undescribed_text (option_copied prefix.entry) definition.now (level_depth level.now)) sink.new }
{
    sink.put("directive @");
    sink.put(definition.name.as_str());
    put_argument_definitions(sink, prefix, level, &definition.arguments);
    put_directives(sink, &definition.directives);
    put_repeatable(sink, definition.repeatable);
    put_locations(sink, &definition.locations);
}

/// The definition of a directive. Public for the printers of the crates above.
pub fn put_directive_definition<S: Sink>(
    sink: &mut S,
    prefix: Option<&str>,
    level: &Level,
    definition: &DirectiveDefinition,
)
    ensures { S.puts sink.old (directive_definition_text (option_copied prefix.entry) (directive_definition_tree definition.now) (level_depth level.now)) sink.new }
{
    put_description(sink, prefix, level, &definition.description);
    put_undescribed_directive(sink, prefix, level, definition);
}
