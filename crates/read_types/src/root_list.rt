//! Root operation types of schemas (section 3.3).
ghost use Rattle.std.specs.Prelude.{◌≡◌, [], map, unwrap_or};
ghost use Rattle.std.specs.Option.{option_map};
ghost use Rattle.read_tokens.specs.Input as input;
ghost use Rattle.graphql_names.specs.Placed.{node_tree};
ghost use Rattle.tree_input_types.specs.InputTypeTree.{root_tree};
ghost use Rattle.read_grammar.specs.Kinds as kinds;
ghost use Rattle.read_grammar.specs.Reading as read;
ghost use Rattle.read_grammar.specs.Reading.{Reads};
ghost use Rattle.read_grammar.specs.TypeSystemReading as reading;
ghost use Rattle.read_operations.specs.Meanings.{in_file};
ghost use Rattle.read_types.specs.MemberSteps as steps;

use graphql_names::{FileId, Node};
use read_operations::{ParseError, begin, expect, name, next_is, open, operation_type, since};
use read_tokens::{Terminal, TokenCursor};
use std::alloc::Global;
use tree_literals::NamedType;
use tree_operations::OperationType;

/// Whether the next token is `query`, `mutation` or `subscription`.
fn next_is_operation_type(tokens: &TokenCursor<'_>) -> bool
    ensures { result ≡ kinds.next_is kinds.is_operation_type (input.next tokens.now) }
{
    matches!(
        tokens.peek(),
        Some(Terminal::Query | Terminal::Mutation | Terminal::Subscription),
    )
}

/// RootOperationTypeDefinition: `OperationType ":" NamedType`.
#[tactic(auto, unfolding(read_grammar::specs::TypeSystemReading::root_operation_type_definition))]
fn root_operation(
    tokens: &mut TokenCursor<'_>,
    file: FileId,
) -> Result<(OperationType, NamedType), ParseError>
    ensures { Reads root_tree (reading.root_operation_type_definition (in_file file) tokens.old) result tokens.new }
{
    let operation_type = operation_type(tokens)?;
    expect(tokens, Terminal::Colon)?;
    let name = name(tokens, file)?;
    Ok((operation_type, name))
}

/// A root operation type with its place.
fn placed_root(
    alloc: Global,
    tokens: &mut TokenCursor<'_>,
    file: FileId,
) -> Result<Node<(OperationType, NamedType)>, ParseError>
    ensures { Reads (node_tree root_tree) (read.placed (in_file file) (reading.root_operation_type_definition (in_file file)) tokens.old) result tokens.new }
{
    let begin = begin(tokens);
    let found = root_operation(tokens, file)?;
    let place = since(tokens, file, begin);
    Ok(Node::new_parsed(alloc, found, place)?)
}

/// One or more root operation types.
fn some_roots(
    alloc: Global,
    tokens: &mut TokenCursor<'_>,
    file: FileId,
) -> Result<Vec<Node<(OperationType, NamedType)>>, ParseError>
    ensures { Reads (λ v. map (node_tree root_tree) v.items) (steps.some_roots (in_file file) tokens.old) result tokens.new }
{
    if !next_is_operation_type(tokens) {
        return Err(ParseError::Unexpected);
    }
    let mut found = Vec::new(alloc);
    'turns: while next_is_operation_type(tokens) {
        found.push(placed_root(alloc, tokens, file)?)?;
    }
    Ok(found)
}

/// The root operation types of a schema: `"{" RootOperationTypeDefinition+ "}"`.
pub fn roots(
    alloc: Global,
    tokens: &mut TokenCursor<'_>,
    file: FileId,
    depth: usize,
) -> Result<Vec<Node<(OperationType, NamedType)>>, ParseError>
    ensures { Reads (λ v. map (node_tree root_tree) v.items) (reading.roots (in_file file) depth tokens.old) result tokens.new }
{
    open(tokens, Terminal::OpenBrace, depth)?;
    let found = some_roots(alloc, tokens, file)?;
    expect(tokens, Terminal::CloseBrace)?;
    Ok(found)
}

/// The root operation types of a schema, or nothing.
pub fn optional_roots(
    alloc: Global,
    tokens: &mut TokenCursor<'_>,
    file: FileId,
    depth: usize,
) -> Result<Option<Vec<Node<(OperationType, NamedType)>>>, ParseError>
    ensures { Reads (option_map (λ v. map (node_tree root_tree) v.items)) (read.try kinds.is_open_brace (reading.roots (in_file file) depth) tokens.old) result tokens.new }
{
    if !next_is(tokens, Terminal::OpenBrace) {
        return Ok(None);
    }
    Ok(Some(roots(alloc, tokens, file, depth)?))
}

/// The root operation types; none if they are left out.
pub fn roots_or_none(
    alloc: Global,
    found: Option<Vec<Node<(OperationType, NamedType)>>>,
) -> Vec<Node<(OperationType, NamedType)>>
    ensures { map (node_tree root_tree) result.items ≡ unwrap_or (option_map (λ v. map (node_tree root_tree) v.items) found) [] }
{
    match found {
        None => Vec::new(alloc),
        Some(roots) => roots,
    }
}
