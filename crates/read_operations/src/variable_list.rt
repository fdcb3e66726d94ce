//! Definitions of variables (section 2.10).
ghost use Rattle.std.specs.Prelude.{◌≡◌, map};
ghost use Rattle.graphql_names.specs.Placed.{node_tree};
ghost use Rattle.tree_operations.specs.OperationTree.{variable_definition_tree};
ghost use Rattle.read_grammar.specs.OperationReading as reading;
ghost use Rattle.read_grammar.specs.Reading.{Reads};
ghost use Rattle.read_operations.specs.Meanings.{in_file};
ghost use Rattle.read_operations.specs.OperationSteps as steps;
ghost use Rattle.read_operations.specs.PartViews.{type_and_default_view};

use crate::{
    begin, directives_or_none, expect, next_is, open, optional_default, optional_directives,
    placed_type, since, variable,
};
use graphql_names::{FileId, Node};
use read_grammar::ParseError;
use read_tokens::{Terminal, TokenCursor};
use std::alloc::Global;
use tree_directives::DirectiveList;
use tree_literals::{Type, Value};
use tree_operations::VariableDefinition;

/// `Type DefaultValue? Directives?`, without variables in its values.
fn type_and_default(
    alloc: Global,
    tokens: &mut TokenCursor<'_>,
    file: FileId,
    depth: usize,
) -> Result<(Node<Type>, (Option<Node<Value>>, Option<DirectiveList>)), ParseError>
    ensures { Reads type_and_default_view (steps.type_and_default (in_file file) depth tokens.old) result tokens.new }
{
    let ty = placed_type(alloc, tokens, file, depth)?;
    let default_value = optional_default(alloc, tokens, file, depth)?;
    let directives = optional_directives(alloc, tokens, file, true, depth)?;
    Ok((ty, (default_value, directives)))
}

/// VariableDefinition: `Variable ":" Type DefaultValue? Directives?`, without variables in its values.
#[tactic(auto, unfolding(read_grammar::specs::OperationReading::variable_definition))]
fn variable_definition(
    alloc: Global,
    tokens: &mut TokenCursor<'_>,
    file: FileId,
    depth: usize,
) -> Result<VariableDefinition, ParseError>
    ensures { Reads variable_definition_tree (reading.variable_definition (in_file file) depth tokens.old) result tokens.new }
{
    let name = variable(tokens, file)?;
    expect(tokens, Terminal::Colon)?;
    let (ty, (default_value, directives)) = type_and_default(alloc, tokens, file, depth)?;
    Ok(VariableDefinition {
        name,
        ty,
        default_value,
        directives: directives_or_none(alloc, directives),
    })
}

/// A definition of a variable with its place.
fn placed_variable_definition(
    alloc: Global,
    tokens: &mut TokenCursor<'_>,
    file: FileId,
    depth: usize,
) -> Result<Node<VariableDefinition>, ParseError>
    ensures { Reads (node_tree variable_definition_tree) (steps.placed_variable (in_file file) depth tokens.old) result tokens.new }
{
    let begin = begin(tokens);
    let found = variable_definition(alloc, tokens, file, depth)?;
    let place = since(tokens, file, begin);
    Ok(Node::new_parsed(alloc, found, place)?)
}

/// One or more definitions of variables.
fn some_variable_definitions(
    alloc: Global,
    tokens: &mut TokenCursor<'_>,
    file: FileId,
    depth: usize,
) -> Result<Vec<Node<VariableDefinition>>, ParseError>
    ensures { Reads (λ v. map (node_tree variable_definition_tree) v.items) (steps.some_variables (in_file file) depth tokens.old) result tokens.new }
{
    if !next_is(tokens, Terminal::Dollar) {
        return Err(ParseError::Unexpected);
    }
    let mut found = Vec::new(alloc);
    'turns: while next_is(tokens, Terminal::Dollar) {
        found.push(placed_variable_definition(alloc, tokens, file, depth)?)?;
    }
    Ok(found)
}

/// VariableDefinitions: `"(" VariableDefinition+ ")"`.
pub fn variable_definitions(
    alloc: Global,
    tokens: &mut TokenCursor<'_>,
    file: FileId,
    depth: usize,
) -> Result<Vec<Node<VariableDefinition>>, ParseError>
    ensures { Reads (λ v. map (node_tree variable_definition_tree) v.items) (reading.variable_definitions (in_file file) depth tokens.old) result tokens.new }
{
    open(tokens, Terminal::OpenParen, depth)?;
    let found = some_variable_definitions(alloc, tokens, file, depth - 1)?;
    expect(tokens, Terminal::CloseParen)?;
    Ok(found)
}
