//! Values of enums (section 3.9).
ghost use Rattle.std.specs.Prelude.{◌≡◌, [], map, unwrap_or};
ghost use Rattle.std.specs.Option.{option_map};
ghost use Rattle.graphql_names.specs.Placed.{node_tree};
ghost use Rattle.tree_type_members.specs.TypeSystemTree.{enum_value_tree};
ghost use Rattle.read_grammar.specs.Kinds as kinds;
ghost use Rattle.read_grammar.specs.Reading as read;
ghost use Rattle.read_grammar.specs.Reading.{Reads};
ghost use Rattle.read_grammar.specs.TypeSystemReading as reading;
ghost use Rattle.read_operations.specs.Meanings.{in_file};
ghost use Rattle.read_types.specs.MemberSteps as steps;

use crate::described::begins_described_name;
use graphql_names::{FileId, Node};
use read_operations::{
    ParseError, begin, directives_or_none, enum_value, expect, next_is, open, optional_description,
    optional_directives, since,
};
use read_tokens::{Terminal, TokenCursor};
use std::alloc::Global;
use tree_type_members::EnumValueDefinition;

/// EnumValueDefinition: `Description? EnumValue Directives?`, without variables in its values.
#[tactic(auto, unfolding(read_grammar::specs::TypeSystemReading::enum_value_definition))]
fn enum_value_definition(
    alloc: Global,
    tokens: &mut TokenCursor<'_>,
    file: FileId,
    depth: usize,
) -> Result<EnumValueDefinition, ParseError>
    ensures { Reads enum_value_tree (reading.enum_value_definition (in_file file) depth tokens.old) result tokens.new }
{
    let description = optional_description(alloc, tokens, file)?;
    let value = enum_value(tokens, file)?;
    let directives = optional_directives(alloc, tokens, file, true, depth)?;
    Ok(EnumValueDefinition {
        description,
        value,
        directives: directives_or_none(alloc, directives),
    })
}

/// The definition of an enum value with its place.
fn placed_enum_value(
    alloc: Global,
    tokens: &mut TokenCursor<'_>,
    file: FileId,
    depth: usize,
) -> Result<Node<EnumValueDefinition>, ParseError>
    ensures { Reads (node_tree enum_value_tree) (read.placed (in_file file) (reading.enum_value_definition (in_file file) depth) tokens.old) result tokens.new }
{
    let begin = begin(tokens);
    let found = enum_value_definition(alloc, tokens, file, depth)?;
    let place = since(tokens, file, begin);
    Ok(Node::new_parsed(alloc, found, place)?)
}

/// One or more definitions of enum values.
fn some_enum_values(
    alloc: Global,
    tokens: &mut TokenCursor<'_>,
    file: FileId,
    depth: usize,
) -> Result<Vec<Node<EnumValueDefinition>>, ParseError>
    ensures { Reads (λ v. map (node_tree enum_value_tree) v.items) (steps.some_enum_values (in_file file) depth tokens.old) result tokens.new }
{
    if !begins_described_name(tokens) {
        return Err(ParseError::Unexpected);
    }
    let mut found = Vec::new(alloc);
    'turns: while begins_described_name(tokens) {
        found.push(placed_enum_value(alloc, tokens, file, depth)?)?;
    }
    Ok(found)
}

/// EnumValuesDefinition: `"{" EnumValueDefinition+ "}"`.
pub fn enum_values_definition(
    alloc: Global,
    tokens: &mut TokenCursor<'_>,
    file: FileId,
    depth: usize,
) -> Result<Vec<Node<EnumValueDefinition>>, ParseError>
    ensures { Reads (λ v. map (node_tree enum_value_tree) v.items) (reading.enum_values_definition (in_file file) depth tokens.old) result tokens.new }
{
    open(tokens, Terminal::OpenBrace, depth)?;
    let found = some_enum_values(alloc, tokens, file, depth - 1)?;
    expect(tokens, Terminal::CloseBrace)?;
    Ok(found)
}

/// EnumValuesDefinition, or nothing.
pub fn optional_enum_values_definition(
    alloc: Global,
    tokens: &mut TokenCursor<'_>,
    file: FileId,
    depth: usize,
) -> Result<Option<Vec<Node<EnumValueDefinition>>>, ParseError>
    ensures { Reads (option_map (λ v. map (node_tree enum_value_tree) v.items)) (read.try kinds.is_open_brace (reading.enum_values_definition (in_file file) depth) tokens.old) result tokens.new }
{
    if !next_is(tokens, Terminal::OpenBrace) {
        return Ok(None);
    }
    Ok(Some(enum_values_definition(alloc, tokens, file, depth)?))
}

/// The enum values; none if they are left out.
pub fn enum_values_or_none(
    alloc: Global,
    found: Option<Vec<Node<EnumValueDefinition>>>,
) -> Vec<Node<EnumValueDefinition>>
    ensures { map (node_tree enum_value_tree) result.items ≡ unwrap_or (option_map (λ v. map (node_tree enum_value_tree) v.items) found) [] }
{
    match found {
        None => Vec::new(alloc),
        Some(values) => values,
    }
}
