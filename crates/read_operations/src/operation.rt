//! Operations (section 2.3).
ghost use Rattle.std.specs.Prelude.{◌≡◌, [], map, unwrap_or};
ghost use Rattle.std.specs.Option.{option_map};
ghost use Rattle.graphql_names.specs.Placed.{name_tree, node_tree};
ghost use Rattle.tree_operations.specs.OperationTree.{variable_definition_tree, operation_tree};
ghost use Rattle.read_grammar.specs.Kinds as kinds;
ghost use Rattle.read_grammar.specs.OperationReading as reading;
ghost use Rattle.read_grammar.specs.Reading as read;
ghost use Rattle.read_grammar.specs.Reading.{Reads};
ghost use Rattle.read_grammar.specs.ValueReading as values;
ghost use Rattle.read_operations.specs.Meanings.{in_file};
ghost use Rattle.read_operations.specs.OperationSteps as steps;
ghost use Rattle.read_operations.specs.PartViews.{variables_view, variables_and_set_view};

use crate::selection_list::{directives_and_set, selection_set};
use crate::variable_list::variable_definitions;
use crate::{begin, directives_or_none, name, next_is, next_is_name, operation_type, since};
use graphql_names::{FileId, Name, Node};
use read_grammar::ParseError;
use read_tokens::{Terminal, TokenCursor};
use std::alloc::Global;
use tree_directives::DirectiveList;
use tree_operations::{OperationDefinition, OperationType, Selection, VariableDefinition};

/// Name, or nothing.
fn optional_name(tokens: &mut TokenCursor<'_>, file: FileId) -> Result<Option<Name>, ParseError>
    ensures { Reads (option_map name_tree) (read.try kinds.is_name (values.name (in_file file)) tokens.old) result tokens.new }
{
    if !next_is_name(tokens) {
        return Ok(None);
    }
    Ok(Some(name(tokens, file)?))
}

/// VariableDefinitions, or nothing.
fn optional_variables(
    alloc: Global,
    tokens: &mut TokenCursor<'_>,
    file: FileId,
    depth: usize,
) -> Result<Option<Vec<Node<VariableDefinition>>>, ParseError>
    ensures { Reads variables_view (steps.optional_variables (in_file file) depth tokens.old) result tokens.new }
{
    if !next_is(tokens, Terminal::OpenParen) {
        return Ok(None);
    }
    Ok(Some(variable_definitions(alloc, tokens, file, depth)?))
}

/// The definitions of variables; none if they are left out.
fn variables_or_none(
    alloc: Global,
    found: Option<Vec<Node<VariableDefinition>>>,
) -> Vec<Node<VariableDefinition>>
    ensures { map (node_tree variable_definition_tree) result.items ≡ unwrap_or (option_map (λ v. map (node_tree variable_definition_tree) v.items) found) [] }
{
    match found {
        None => Vec::new(alloc),
        Some(variables) => variables,
    }
}

/// A query that is written as its selection set only.
fn short_operation(
    alloc: Global,
    tokens: &mut TokenCursor<'_>,
    file: FileId,
    depth: usize,
) -> Result<OperationDefinition, ParseError>
    ensures { Reads operation_tree (steps.short_operation (in_file file) depth tokens.old) result tokens.new }
{
    let selection_set = selection_set(alloc, tokens, file, depth)?;
    Ok(OperationDefinition {
        operation_type: OperationType::Query,
        name: None,
        variables: Vec::new(alloc),
        directives: DirectiveList(Vec::new(alloc)),
        selection_set,
    })
}

/// `VariableDefinitions? Directives? SelectionSet`
fn variables_and_set(
    alloc: Global,
    tokens: &mut TokenCursor<'_>,
    file: FileId,
    depth: usize,
) -> Result<
    (
        Option<Vec<Node<VariableDefinition>>>,
        (Option<DirectiveList>, Vec<Selection>),
    ),
    ParseError,
>
    ensures { Reads variables_and_set_view (steps.variables_and_set (in_file file) depth tokens.old) result tokens.new }
{
    let variables = optional_variables(alloc, tokens, file, depth)?;
    let following = directives_and_set(alloc, tokens, file, depth)?;
    Ok((variables, following))
}

/// `OperationType Name? VariableDefinitions? Directives? SelectionSet`
fn full_operation(
    alloc: Global,
    tokens: &mut TokenCursor<'_>,
    file: FileId,
    depth: usize,
) -> Result<OperationDefinition, ParseError>
    ensures { Reads operation_tree (steps.full_operation (in_file file) depth tokens.old) result tokens.new }
{
    let operation_type = operation_type(tokens)?;
    let name = optional_name(tokens, file)?;
    let (variables, (directives, selection_set)) = variables_and_set(alloc, tokens, file, depth)?;
    Ok(OperationDefinition {
        operation_type,
        name,
        variables: variables_or_none(alloc, variables),
        directives: directives_or_none(alloc, directives),
        selection_set,
    })
}

/// OperationDefinition: its selection set only, or with its type first.
pub fn operation_definition(
    alloc: Global,
    tokens: &mut TokenCursor<'_>,
    file: FileId,
    depth: usize,
) -> Result<OperationDefinition, ParseError>
    ensures { Reads operation_tree (reading.operation_definition (in_file file) depth tokens.old) result tokens.new }
{
    if next_is(tokens, Terminal::OpenBrace) {
        return short_operation(alloc, tokens, file, depth);
    }
    full_operation(alloc, tokens, file, depth)
}

/// An operation with its place.
pub fn placed_operation(
    alloc: Global,
    tokens: &mut TokenCursor<'_>,
    file: FileId,
    depth: usize,
) -> Result<Node<OperationDefinition>, ParseError>
    ensures { Reads (node_tree operation_tree) (read.placed (in_file file) (reading.operation_definition (in_file file) depth) tokens.old) result tokens.new }
{
    let begin = begin(tokens);
    let found = operation_definition(alloc, tokens, file, depth)?;
    let place = since(tokens, file, begin);
    Ok(Node::new_parsed(alloc, found, place)?)
}
