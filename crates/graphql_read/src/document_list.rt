//! Definitions and documents (section 2.2).
ghost use Rattle.std.specs.Prelude.{◌≡◌, map};
ghost use Rattle.read_tokens.specs.Input as input;
ghost use Rattle.read_types.specs.in_definitions.DefinitionTree.{definition_tree};
ghost use Rattle.read_grammar.specs.Begins as begins;
ghost use Rattle.read_grammar.specs.Kinds as kinds;
ghost use Rattle.read_grammar.specs.DocumentReading as reading;
ghost use Rattle.read_grammar.specs.Reading as read;
ghost use Rattle.read_types.specs.in_read_operations.Meanings.{in_file};

use graphql_names::FileId;
use read_tokens::{Terminal, TokenCursor};
use read_types::{
    Definition, ParseError, next_is, placed_fragment, placed_operation, type_system_definition,
    type_system_extension,
};
use std::alloc::Global;

/// Whether an operation may begin with the next token.
fn begins_operation(tokens: &TokenCursor<'_>) -> bool
    ensures { result ≡ kinds.next_is begins.begins_operation (input.next tokens.now) }
{
    match tokens.peek() {
        Some(Terminal::OpenBrace | Terminal::Query | Terminal::Mutation | Terminal::Subscription) =>
            true,
        _ => false,
    }
}

/// Whether a definition of the type system may begin with the next token.
// A string here is a description: in October 2021, operations and fragments have none.
fn begins_type_system(tokens: &TokenCursor<'_>) -> bool
    ensures { result ≡ kinds.next_is begins.begins_type_system (input.next tokens.now) }
{
    match tokens.peek() {
        Some(
            Terminal::String
            | Terminal::BlockString
            | Terminal::Schema
            | Terminal::Scalar
            | Terminal::Type
            | Terminal::Interface
            | Terminal::Union
            | Terminal::Enum
            | Terminal::Input
            | Terminal::Directive,
        ) => true,
        _ => false,
    }
}

/// Whether a definition may begin with the next token.
fn begins_definition(tokens: &TokenCursor<'_>) -> bool
    ensures { result ≡ kinds.next_is begins.begins_definition (input.next tokens.now) }
{
    begins_operation(tokens)
        || next_is(tokens, Terminal::Fragment)
        || begins_type_system(tokens)
        || next_is(tokens, Terminal::Extend)
}

/// Definition: OperationDefinition, FragmentDefinition, TypeSystemDefinition or TypeSystemExtension.
#[tactic(auto, unfolding(read_grammar::specs::DocumentReading::definition))]
fn definition(
    alloc: Global,
    tokens: &mut TokenCursor<'_>,
    file: FileId,
    depth: usize,
) -> Result<Definition, ParseError>
    ensures { read.Reads definition_tree (reading.definition (in_file file) depth tokens.old) result tokens.new }
{
    if begins_operation(tokens) {
        let found = placed_operation(alloc, tokens, file, depth)?;
        return Ok(Definition::OperationDefinition(found));
    }
    if next_is(tokens, Terminal::Fragment) {
        let found = placed_fragment(alloc, tokens, file, depth)?;
        return Ok(Definition::FragmentDefinition(found));
    }
    if begins_type_system(tokens) {
        return type_system_definition(alloc, tokens, file, depth);
    }
    if next_is(tokens, Terminal::Extend) {
        return type_system_extension(alloc, tokens, file, depth);
    }
    Err(ParseError::Unexpected)
}

/// Document: one or more definitions.
pub fn definitions(
    alloc: Global,
    tokens: &mut TokenCursor<'_>,
    file: FileId,
    depth: usize,
) -> Result<Vec<Definition>, ParseError>
    ensures { read.Reads (λ v. map definition_tree v.items) (read.some begins.begins_definition (reading.definition (in_file file) depth) tokens.old) result tokens.new }
{
    if !begins_definition(tokens) {
        return Err(ParseError::Unexpected);
    }
    let mut found = Vec::new(alloc);
    'turns: while begins_definition(tokens) {
        found.push(definition(alloc, tokens, file, depth)?)?;
    }
    Ok(found)
}
