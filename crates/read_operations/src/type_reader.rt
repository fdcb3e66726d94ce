//! References to types (section 2.11).
ghost use Rattle.std.specs.Prelude.{◌≡◌};
ghost use Rattle.graphql_names.specs.Placed.{node_tree};
ghost use Rattle.tree_literals.specs.TypeTree.{type_tree};
ghost use Rattle.read_grammar.specs.Reading as read;
ghost use Rattle.read_grammar.specs.Reading.{Reads};
ghost use Rattle.read_grammar.specs.ValueReading as reading;
ghost use Rattle.read_operations.specs.Meanings.{in_file};
ghost use Rattle.read_operations.specs.TypeSteps.{bracketed_type, unmarked_type};

use crate::name_token::name;
use crate::steps::{begin, expect, next_is, next_is_name, open, since};
use graphql_names::{FileId, Node};
use read_grammar::ParseError;
use read_tokens::{Terminal, TokenCursor};
use std::alloc::Global;
use tree_literals::Type;

/// A type in brackets: `"[" Type "]"`.
#[cycle(ty)]
fn bracketed(
    alloc: Global,
    tokens: &mut TokenCursor<'_>,
    file: FileId,
    depth: usize,
) -> Result<Type, ParseError>
    ensures { Reads type_tree (bracketed_type (in_file file) depth tokens.old) result tokens.new }
{
    open(tokens, Terminal::OpenBracket, depth)?;
    let found = ty(alloc, tokens, file, depth - 1)?;
    expect(tokens, Terminal::CloseBracket)?;
    Ok(found)
}

/// A type without the mark `!` after it.
#[cycle(ty)]
#[tactic(auto, using(tree_literals::proofs::Trees::type_tree_rules))]
fn unmarked(
    alloc: Global,
    tokens: &mut TokenCursor<'_>,
    file: FileId,
    depth: usize,
) -> Result<Type, ParseError>
    ensures { Reads type_tree (unmarked_type (in_file file) depth tokens.old) result tokens.new }
{
    if next_is_name(tokens) {
        return Ok(Type::Named(name(tokens, file)?));
    }
    let item = bracketed(alloc, tokens, file, depth)?;
    Ok(item.list(alloc)?)
}

/// Type: `(Name / "[" Type "]") "!"?`.
#[cycle(ty)]
pub fn ty(
    alloc: Global,
    tokens: &mut TokenCursor<'_>,
    file: FileId,
    depth: usize,
) -> Result<Type, ParseError>
    ensures { Reads type_tree (reading.type (in_file file) depth tokens.old) result tokens.new }
{
    let found = unmarked(alloc, tokens, file, depth)?;
    if !next_is(tokens, Terminal::Bang) {
        return Ok(found);
    }
    tokens.skip();
    Ok(found.non_null())
}

/// A type with its place.
pub fn placed_type(
    alloc: Global,
    tokens: &mut TokenCursor<'_>,
    file: FileId,
    depth: usize,
) -> Result<Node<Type>, ParseError>
    ensures { Reads (node_tree type_tree) (read.placed (in_file file) (reading.type (in_file file) depth) tokens.old) result tokens.new }
{
    let begin = begin(tokens);
    let found = ty(alloc, tokens, file, depth)?;
    let place = since(tokens, file, begin);
    Ok(Node::new_parsed(alloc, found, place)?)
}
