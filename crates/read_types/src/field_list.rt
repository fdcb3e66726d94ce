//! Fields of objects and interfaces (section 3.6).
ghost use Rattle.std.specs.Prelude.{◌≡◌, [], map, unwrap_or};
ghost use Rattle.std.specs.Option.{option_map};
ghost use Rattle.graphql_names.specs.Placed.{node_tree};
ghost use Rattle.tree_directives.specs.DirectiveTree.{directives_tree};
ghost use Rattle.tree_literals.specs.TypeTree.{type_tree};
ghost use Rattle.tree_type_members.specs.TypeSystemTree.{field_definition_tree};
ghost use Rattle.read_grammar.specs.Kinds as kinds;
ghost use Rattle.read_grammar.specs.Reading as read;
ghost use Rattle.read_grammar.specs.Reading.{Reads};
ghost use Rattle.read_grammar.specs.TypeSystemReading as reading;
ghost use Rattle.read_operations.specs.Meanings.{in_file};
ghost use Rattle.read_types.specs.MemberSteps as steps;
ghost use Rattle.read_types.specs.MemberViews.{field_rest_view};

use crate::described::{begins_described_name, described_name};
use crate::input_value_list::{input_values_or_none, optional_arguments_definition};
use graphql_names::{FileId, Node};
use read_operations::{
    ParseError, begin, directives_or_none, expect, next_is, open, optional_directives, since, ty,
};
use read_tokens::{Terminal, TokenCursor};
use std::alloc::Global;
use tree_directives::{DirectiveList, InputValueDefinition};
use tree_literals::Type;
use tree_type_members::FieldDefinition;

/// What follows the arguments of a field: `":" Type Directives?`, without variables in its values.
// Separate from what comes before, so that few parts live across a `?` in any function.
fn field_end(
    alloc: Global,
    tokens: &mut TokenCursor<'_>,
    file: FileId,
    depth: usize,
) -> Result<(Type, Option<DirectiveList>), ParseError>
    ensures { Reads (λ x. (tt, (type_tree x.0, option_map directives_tree x.1))) (steps.field_end (in_file file) depth tokens.old) result tokens.new }
{
    expect(tokens, Terminal::Colon)?;
    let ty = ty(alloc, tokens, file, depth)?;
    let directives = optional_directives(alloc, tokens, file, true, depth)?;
    Ok((ty, directives))
}

/// What follows the name of a field: `ArgumentsDefinition? ":" Type Directives?`.
fn field_rest(
    alloc: Global,
    tokens: &mut TokenCursor<'_>,
    file: FileId,
    depth: usize,
) -> Result<
    (
        Option<Vec<Node<InputValueDefinition>>>,
        Type,
        Option<DirectiveList>,
    ),
    ParseError,
>
    ensures { Reads field_rest_view (steps.field_rest (in_file file) depth tokens.old) result tokens.new }
{
    let arguments = optional_arguments_definition(alloc, tokens, file, depth)?;
    let (ty, directives) = field_end(alloc, tokens, file, depth)?;
    Ok((arguments, ty, directives))
}

/// FieldDefinition: `Description? Name ArgumentsDefinition? ":" Type Directives?`.
fn field_definition(
    alloc: Global,
    tokens: &mut TokenCursor<'_>,
    file: FileId,
    depth: usize,
) -> Result<FieldDefinition, ParseError>
    ensures { Reads field_definition_tree (reading.field_definition (in_file file) depth tokens.old) result tokens.new }
{
    let (description, name) = described_name(alloc, tokens, file)?;
    let (arguments, ty, directives) = field_rest(alloc, tokens, file, depth)?;
    Ok(FieldDefinition {
        description,
        name,
        arguments: input_values_or_none(alloc, arguments),
        ty,
        directives: directives_or_none(alloc, directives),
    })
}

/// The definition of a field with its place.
fn placed_field(
    alloc: Global,
    tokens: &mut TokenCursor<'_>,
    file: FileId,
    depth: usize,
) -> Result<Node<FieldDefinition>, ParseError>
    ensures { Reads (node_tree field_definition_tree) (read.placed (in_file file) (reading.field_definition (in_file file) depth) tokens.old) result tokens.new }
{
    let begin = begin(tokens);
    let found = field_definition(alloc, tokens, file, depth)?;
    let place = since(tokens, file, begin);
    Ok(Node::new_parsed(alloc, found, place)?)
}

/// One or more definitions of fields.
fn some_fields(
    alloc: Global,
    tokens: &mut TokenCursor<'_>,
    file: FileId,
    depth: usize,
) -> Result<Vec<Node<FieldDefinition>>, ParseError>
    ensures { Reads (λ v. map (node_tree field_definition_tree) v.items) (steps.some_fields (in_file file) depth tokens.old) result tokens.new }
{
    if !begins_described_name(tokens) {
        return Err(ParseError::Unexpected);
    }
    let mut found = Vec::new(alloc);
    'turns: while begins_described_name(tokens) {
        found.push(placed_field(alloc, tokens, file, depth)?)?;
    }
    Ok(found)
}

/// FieldsDefinition: `"{" FieldDefinition+ "}"`.
pub fn fields_definition(
    alloc: Global,
    tokens: &mut TokenCursor<'_>,
    file: FileId,
    depth: usize,
) -> Result<Vec<Node<FieldDefinition>>, ParseError>
    ensures { Reads (λ v. map (node_tree field_definition_tree) v.items) (reading.fields_definition (in_file file) depth tokens.old) result tokens.new }
{
    open(tokens, Terminal::OpenBrace, depth)?;
    let found = some_fields(alloc, tokens, file, depth - 1)?;
    expect(tokens, Terminal::CloseBrace)?;
    Ok(found)
}

/// FieldsDefinition, or nothing.
pub fn optional_fields_definition(
    alloc: Global,
    tokens: &mut TokenCursor<'_>,
    file: FileId,
    depth: usize,
) -> Result<Option<Vec<Node<FieldDefinition>>>, ParseError>
    ensures { Reads (option_map (λ v. map (node_tree field_definition_tree) v.items)) (read.try kinds.is_open_brace (reading.fields_definition (in_file file) depth) tokens.old) result tokens.new }
{
    if !next_is(tokens, Terminal::OpenBrace) {
        return Ok(None);
    }
    Ok(Some(fields_definition(alloc, tokens, file, depth)?))
}

/// The fields; none if they are left out.
pub fn fields_or_none(
    alloc: Global,
    found: Option<Vec<Node<FieldDefinition>>>,
) -> Vec<Node<FieldDefinition>>
    ensures { map (node_tree field_definition_tree) result.items ≡ unwrap_or (option_map (λ v. map (node_tree field_definition_tree) v.items) found) [] }
{
    match found {
        None => Vec::new(alloc),
        Some(fields) => fields,
    }
}
