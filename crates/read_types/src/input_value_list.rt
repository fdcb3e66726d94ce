//! Definitions of arguments and of fields of input objects (sections 3.6.1 and 3.10).
ghost use Rattle.std.specs.Prelude.{◌≡◌, [], map, unwrap_or};
ghost use Rattle.std.specs.Option.{option_map};
ghost use Rattle.graphql_names.specs.Placed.{node_tree};
ghost use Rattle.tree_directives.specs.DirectiveTree.{input_value_tree};
ghost use Rattle.read_grammar.specs.Kinds as kinds;
ghost use Rattle.read_grammar.specs.Reading as read;
ghost use Rattle.read_grammar.specs.Reading.{Reads};
ghost use Rattle.read_grammar.specs.TypeSystemReading as reading;
ghost use Rattle.read_operations.specs.Meanings.{in_file};
ghost use Rattle.read_types.specs.MemberSteps as steps;
ghost use Rattle.read_types.specs.MemberViews.{input_value_rest_view};

use crate::described::{begins_described_name, described_name};
use graphql_names::{FileId, Node};
use read_operations::{
    ParseError, begin, directives_or_none, expect, next_is, open, optional_default,
    optional_directives, placed_type, since,
};
use read_tokens::{Terminal, TokenCursor};
use std::alloc::Global;
use tree_directives::{DirectiveList, InputValueDefinition};
use tree_literals::{Type, Value};

/// What follows the name of an input value: `":" Type DefaultValue? Directives?`, without variables in its values.
// Separate from what comes before, so that few parts live across a `?` in any function.
fn input_value_rest(
    alloc: Global,
    tokens: &mut TokenCursor<'_>,
    file: FileId,
    depth: usize,
) -> Result<(Node<Type>, Option<Node<Value>>, Option<DirectiveList>), ParseError>
    ensures { Reads input_value_rest_view (steps.input_value_rest (in_file file) depth tokens.old) result tokens.new }
{
    expect(tokens, Terminal::Colon)?;
    let ty = placed_type(alloc, tokens, file, depth)?;
    let default_value = optional_default(alloc, tokens, file, depth)?;
    let directives = optional_directives(alloc, tokens, file, true, depth)?;
    Ok((ty, default_value, directives))
}

/// InputValueDefinition: `Description? Name ":" Type DefaultValue? Directives?`.
fn input_value_definition(
    alloc: Global,
    tokens: &mut TokenCursor<'_>,
    file: FileId,
    depth: usize,
) -> Result<InputValueDefinition, ParseError>
    ensures { Reads input_value_tree (reading.input_value_definition (in_file file) depth tokens.old) result tokens.new }
{
    let (description, name) = described_name(alloc, tokens, file)?;
    let (ty, default_value, directives) = input_value_rest(alloc, tokens, file, depth)?;
    Ok(InputValueDefinition {
        description,
        name,
        ty,
        default_value,
        directives: directives_or_none(alloc, directives),
    })
}

/// The definition of an input value with its place.
fn placed_input_value(
    alloc: Global,
    tokens: &mut TokenCursor<'_>,
    file: FileId,
    depth: usize,
) -> Result<Node<InputValueDefinition>, ParseError>
    ensures { Reads (node_tree input_value_tree) (read.placed (in_file file) (reading.input_value_definition (in_file file) depth) tokens.old) result tokens.new }
{
    let begin = begin(tokens);
    let found = input_value_definition(alloc, tokens, file, depth)?;
    let place = since(tokens, file, begin);
    Ok(Node::new_parsed(alloc, found, place)?)
}

/// One or more definitions of input values.
fn some_input_values(
    alloc: Global,
    tokens: &mut TokenCursor<'_>,
    file: FileId,
    depth: usize,
) -> Result<Vec<Node<InputValueDefinition>>, ParseError>
    ensures { Reads (λ v. map (node_tree input_value_tree) v.items) (steps.some_input_values (in_file file) depth tokens.old) result tokens.new }
{
    if !begins_described_name(tokens) {
        return Err(ParseError::Unexpected);
    }
    let mut found = Vec::new(alloc);
    'turns: while begins_described_name(tokens) {
        found.push(placed_input_value(alloc, tokens, file, depth)?)?;
    }
    Ok(found)
}

/// ArgumentsDefinition: `"(" InputValueDefinition+ ")"`.
pub fn arguments_definition(
    alloc: Global,
    tokens: &mut TokenCursor<'_>,
    file: FileId,
    depth: usize,
) -> Result<Vec<Node<InputValueDefinition>>, ParseError>
    ensures { Reads (λ v. map (node_tree input_value_tree) v.items) (reading.arguments_definition (in_file file) depth tokens.old) result tokens.new }
{
    open(tokens, Terminal::OpenParen, depth)?;
    let found = some_input_values(alloc, tokens, file, depth - 1)?;
    expect(tokens, Terminal::CloseParen)?;
    Ok(found)
}

/// InputFieldsDefinition: `"{" InputValueDefinition+ "}"`.
pub fn input_fields_definition(
    alloc: Global,
    tokens: &mut TokenCursor<'_>,
    file: FileId,
    depth: usize,
) -> Result<Vec<Node<InputValueDefinition>>, ParseError>
    ensures { Reads (λ v. map (node_tree input_value_tree) v.items) (reading.input_fields_definition (in_file file) depth tokens.old) result tokens.new }
{
    open(tokens, Terminal::OpenBrace, depth)?;
    let found = some_input_values(alloc, tokens, file, depth - 1)?;
    expect(tokens, Terminal::CloseBrace)?;
    Ok(found)
}

/// ArgumentsDefinition, or nothing.
pub fn optional_arguments_definition(
    alloc: Global,
    tokens: &mut TokenCursor<'_>,
    file: FileId,
    depth: usize,
) -> Result<Option<Vec<Node<InputValueDefinition>>>, ParseError>
    ensures { Reads (option_map (λ v. map (node_tree input_value_tree) v.items)) (read.try kinds.is_open_paren (reading.arguments_definition (in_file file) depth) tokens.old) result tokens.new }
{
    if !next_is(tokens, Terminal::OpenParen) {
        return Ok(None);
    }
    Ok(Some(arguments_definition(alloc, tokens, file, depth)?))
}

/// InputFieldsDefinition, or nothing.
pub fn optional_input_fields_definition(
    alloc: Global,
    tokens: &mut TokenCursor<'_>,
    file: FileId,
    depth: usize,
) -> Result<Option<Vec<Node<InputValueDefinition>>>, ParseError>
    ensures { Reads (option_map (λ v. map (node_tree input_value_tree) v.items)) (read.try kinds.is_open_brace (reading.input_fields_definition (in_file file) depth) tokens.old) result tokens.new }
{
    if !next_is(tokens, Terminal::OpenBrace) {
        return Ok(None);
    }
    Ok(Some(input_fields_definition(alloc, tokens, file, depth)?))
}

/// The input values; none if they are left out.
pub fn input_values_or_none(
    alloc: Global,
    found: Option<Vec<Node<InputValueDefinition>>>,
) -> Vec<Node<InputValueDefinition>>
    ensures { map (node_tree input_value_tree) result.items ≡ unwrap_or (option_map (λ v. map (node_tree input_value_tree) v.items) found) [] }
{
    match found {
        None => Vec::new(alloc),
        Some(values) => values,
    }
}
