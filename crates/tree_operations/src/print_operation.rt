//! Selections, operations and fragments.
ghost use Rattle.std.specs.Prelude.{◌≡◌, ◌==◌, ◌∷◌, ◌+◌, ◌&&◌, ℕ, List, [], map, codes, Bool, Some, None, true, false};
ghost use Rattle.std.specs.Option.{option_copied, option_map};
ghost use Rattle.tree_directives.specs.in_literals.in_names.Placed.{node_tree, name_tree, Place};
ghost use Rattle.tree_operations.specs.SelectionTree.{selection_tree, selection_trees};
ghost use Rattle.tree_operations.specs.SelectionParts.{field_tree, spread_tree, inline_tree};
ghost use Rattle.tree_operations.specs.OperationTree.{variable_definition_tree, operation_tree, fragment_tree};
ghost use Rattle.tree_directives.specs.in_literals.Joined.{joined, after, further_text};
ghost use Rattle.tree_directives.specs.in_literals.Levels.{level_depth};
ghost use Rattle.tree_directives.specs.in_literals.LineLayout.{braced_text};
ghost use Rattle.tree_directives.specs.in_literals.LineLayout.{texts_of};
ghost use Rattle.tree_operations.specs.OperationLayout.{alias_text, condition_text, selection_text, selection_texts, variable_text, variables_text, operation_name_text, is_bare_query, full_operation_text, operation_text, begins_output, fragment_text};
ghost use Rattle.tree_directives.specs.OperationQueries.{operation_keyword};
ghost use Rattle.tree_operations.specs.Printed.{selection_member_text, selection_members_text, selection_set_text};

use crate::operation::{FragmentDefinition, OperationDefinition, VariableDefinition};
use crate::selection::{Field, FragmentSpread, InlineFragment, Selection};
use tree_directives::{
    Level, Name, Node, OperationType, Sink, put_arguments, put_break, put_default, put_directives,
    put_keyword, put_type,
};

fn put_alias<S: Sink>(sink: &mut S, alias: &Option<Name>)
    ensures { S.puts sink.old (alias_text (option_map name_tree alias.now)) sink.new }
{
    match alias {
        None => {}
        Some(name) => {
            sink.put(name.as_str());
            sink.put(": ");
        }
    }
}

fn put_condition<S: Sink>(sink: &mut S, condition: &Option<Name>)
    ensures { S.puts sink.old (condition_text (option_map name_tree condition.now)) sink.new }
{
    match condition {
        None => {}
        Some(name) => {
            sink.put(" on ");
            sink.put(name.as_str());
        }
    }
}

pub fn put_spread<S: Sink>(
    sink: &mut S,
    prefix: Option<&str>,
    level: &Level,
    spread: &FragmentSpread,
)
    ensures { S.puts sink.old (selection_text (option_copied prefix.entry) (spread_tree None spread.now) (level_depth level.now)) sink.new }
{
    sink.put("...");
    sink.put(spread.fragment_name.as_str());
    put_directives(sink, &spread.directives);
}

#[cycle(selections)]
fn put_members<S: Sink>(sink: &mut S, prefix: Option<&str>, level: &Level, selections: &[Selection])
    ensures { S.puts sink.old (selection_members_text (option_copied prefix.entry) (level_depth level.now) selections.now) sink.new }
{
    for selection in selections {
        put_member(sink, prefix, level, selection);
    }
}

#[cycle(selections)]
fn put_member<S: Sink>(sink: &mut S, prefix: Option<&str>, level: &Level, selection: &Selection)
    ensures { S.puts sink.old (selection_member_text (option_copied prefix.entry) (level_depth level.now) selection.now) sink.new }
{
    put_break(sink, prefix, level);
    put_selection(sink, prefix, level, selection);
}

/// Selections within braces.
pub fn put_braced<S: Sink>(
    sink: &mut S,
    prefix: Option<&str>,
    level: &Level,
    selections: &[Selection],
)
    ensures { S.puts sink.old (braced_text (option_copied prefix.entry) (level_depth level.now) (selection_texts (option_copied prefix.entry) (selection_trees selection_tree selections.now))) sink.new }
{
    if selections.is_empty() {
        return;
    }
    sink.put("{");
    put_members(sink, prefix, &Level::In(&*level), selections);
    put_break(sink, prefix, level);
    sink.put("}");
}

#[cycle(selections)]
fn put_set<S: Sink>(sink: &mut S, prefix: Option<&str>, level: &Level, selections: &[Selection])
    ensures { S.puts sink.old (selection_set_text (option_copied prefix.entry) (level_depth level.now) selections.now) sink.new }
{
    if selections.is_empty() {
        return;
    }
    sink.put(" {");
    put_members(sink, prefix, &Level::In(&*level), selections);
    put_break(sink, prefix, level);
    sink.put("}");
}

#[cycle(selections)]
pub fn put_field<S: Sink>(sink: &mut S, prefix: Option<&str>, level: &Level, field: &Field)
    ensures { S.puts sink.old (selection_text (option_copied prefix.entry) (field_tree None field.now) (level_depth level.now)) sink.new }
{
    put_alias(sink, &field.alias);
    sink.put(field.name.as_str());
    put_arguments(sink, &field.arguments);
    put_directives(sink, &field.directives);
    put_set(sink, prefix, level, &field.selection_set);
}

#[cycle(selections)]
pub fn put_inline<S: Sink>(
    sink: &mut S,
    prefix: Option<&str>,
    level: &Level,
    inline: &InlineFragment,
)
    ensures { S.puts sink.old (selection_text (option_copied prefix.entry) (inline_tree None inline.now) (level_depth level.now)) sink.new }
{
    sink.put("...");
    put_condition(sink, &inline.type_condition);
    put_directives(sink, &inline.directives);
    put_set(sink, prefix, level, &inline.selection_set);
}

#[cycle(selections)]
#[tactic(auto, using(crate::proofs::SelectionTrees::selection_tree_rules))]
pub fn put_selection<S: Sink>(
    sink: &mut S,
    prefix: Option<&str>,
    level: &Level,
    selection: &Selection,
)
    ensures { S.puts sink.old (selection_text (option_copied prefix.entry) (selection_tree selection.now) (level_depth level.now)) sink.new }
{
    match selection {
        Selection::Field(field) => put_field(sink, prefix, level, field.content()),
        Selection::FragmentSpread(spread) => put_spread(sink, prefix, level, spread.content()),
        Selection::InlineFragment(inline) => put_inline(sink, prefix, level, inline.content()),
    }
}

pub fn put_variable_definition<S: Sink>(sink: &mut S, variable: &VariableDefinition)
    ensures { S.puts sink.old (variable_text (variable_definition_tree variable.now)) sink.new }
{
    sink.put("$");
    sink.put(variable.name.as_str());
    sink.put(": ");
    put_type(sink, variable.ty.content());
    put_default(sink, &variable.default_value);
    put_directives(sink, &variable.directives);
}

fn put_next_variable<S: Sink>(sink: &mut S, variable: &VariableDefinition)
    ensures { S.puts sink.old (after (codes ", ") (variable_text (variable_definition_tree variable.now))) sink.new }
{
    sink.put(", ");
    put_variable_definition(sink, variable);
}

fn put_further_variables<S: Sink>(sink: &mut S, variables: &[Node<VariableDefinition>])
    ensures { S.puts sink.old (further_text (codes ", ") (texts_of variable_text (map (node_tree variable_definition_tree) variables.now))) sink.new }
{
    for variable in variables {
        put_next_variable(sink, variable.content());
    }
}

fn put_variables<S: Sink>(sink: &mut S, variables: &[Node<VariableDefinition>])
    ensures { S.puts sink.old (variables_text (map (node_tree variable_definition_tree) variables.now)) sink.new }
{
    match variables {
        [] => {}
        [first, further @ ..] => {
            sink.put("(");
            put_variable_definition(sink, first.content());
            put_further_variables(sink, further);
            sink.put(")");
        }
    }
}

fn put_operation_name<S: Sink>(sink: &mut S, name: &Option<Name>)
    ensures { S.puts sink.old (operation_name_text (option_map name_tree name.now)) sink.new }
{
    match name {
        None => {}
        Some(name) => {
            sink.put(" ");
            sink.put(name.as_str());
        }
    }
}

fn put_full_operation<S: Sink>(
    sink: &mut S,
    prefix: Option<&str>,
    level: &Level,
    operation: &OperationDefinition,
)
    ensures { S.puts sink.old (full_operation_text (option_copied prefix.entry) (operation_tree operation.now) (level_depth level.now)) sink.new }
{
    put_keyword(sink, operation.operation_type);
    put_operation_name(sink, &operation.name);
    put_variables(sink, &operation.variables);
    put_directives(sink, &operation.directives);
    put_set(sink, prefix, level, &operation.selection_set);
}

/// An anonymous query without variables and directives.
fn is_bare_query(operation: &OperationDefinition) -> bool
    ensures { result ≡ is_bare_query (operation_tree operation.now) }
{
    match operation.operation_type {
        OperationType::Query => {
            operation.name.is_none()
                && operation.variables.is_empty()
                && operation.directives.0.is_empty()
        }
        OperationType::Mutation => false,
        OperationType::Subscription => false,
    }
}

/// An operation. `at_start` says whether nothing comes before it. Public for the printers of the crates above.
pub fn put_operation<S: Sink>(
    sink: &mut S,
    prefix: Option<&str>,
    level: &Level,
    at_start: bool,
    operation: &OperationDefinition,
)
    ensures { S.puts sink.old (operation_text at_start (option_copied prefix.entry) (operation_tree operation.now) (level_depth level.now)) sink.new }
{
    // Only at the start: after a type without fields a `{` would be read as its fields.
    if at_start && is_bare_query(operation) {
        put_braced(sink, prefix, level, &operation.selection_set);
    } else {
        put_full_operation(sink, prefix, level, operation);
    }
}

fn is_outermost(level: &Level) -> bool
    ensures { result ≡ (level_depth level.now == 0) }
{
    match level {
        Level::Outer(depth) => *depth == 0,
        Level::In(_) => false,
    }
}

/// Whether no byte comes before the first definition of a whole text. Public for the printers of the crates above.
pub fn begins_output(prefix: Option<&str>, level: &Level) -> bool
    ensures { result ≡ begins_output (option_copied prefix.entry) (level_depth level.now) }
{
    match prefix {
        None => true,
        Some(prefix) => is_outermost(level) || prefix.is_empty(),
    }
}

/// The definition of a fragment. Public for the printers of the crates above.
pub fn put_fragment<S: Sink>(
    sink: &mut S,
    prefix: Option<&str>,
    level: &Level,
    fragment: &FragmentDefinition,
)
    ensures { S.puts sink.old (fragment_text (option_copied prefix.entry) (fragment_tree fragment.now) (level_depth level.now)) sink.new }
{
    sink.put("fragment ");
    sink.put(fragment.name.as_str());
    sink.put(" on ");
    sink.put(fragment.type_condition.as_str());
    put_directives(sink, &fragment.directives);
    put_set(sink, prefix, level, &fragment.selection_set);
}
