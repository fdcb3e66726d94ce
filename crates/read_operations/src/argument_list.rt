//! Arguments (section 2.6).
ghost use Rattle.std.specs.Prelude.{◌≡◌, map};
ghost use Rattle.graphql_names.specs.Placed.{node_tree};
ghost use Rattle.tree_directives.specs.DirectiveTree.{argument_tree};
ghost use Rattle.read_grammar.specs.Reading as read;
ghost use Rattle.read_grammar.specs.Reading.{Reads};
ghost use Rattle.read_grammar.specs.ValueReading as reading;
ghost use Rattle.read_operations.specs.Meanings.{in_file};
ghost use Rattle.read_operations.specs.ListSteps as lists;

use crate::name_token::name;
use crate::steps::{begin, expect, next_is_name, open, since};
use crate::value_reader::placed_value;
use graphql_names::{FileId, Node};
use read_grammar::ParseError;
use read_tokens::{Terminal, TokenCursor};
use std::alloc::Global;
use tree_directives::Argument;

/// Argument: `Name ":" Value`.
#[tactic(auto, unfolding(read_grammar::specs::ValueReading::argument))]
fn argument(
    alloc: Global,
    tokens: &mut TokenCursor<'_>,
    file: FileId,
    constant: bool,
    depth: usize,
) -> Result<Argument, ParseError>
    ensures { Reads argument_tree (reading.argument (in_file file) constant depth tokens.old) result tokens.new }
{
    let name = name(tokens, file)?;
    expect(tokens, Terminal::Colon)?;
    let value = placed_value(alloc, tokens, file, constant, depth)?;
    Ok(Argument { name, value })
}

/// An argument with its place.
fn placed_argument(
    alloc: Global,
    tokens: &mut TokenCursor<'_>,
    file: FileId,
    constant: bool,
    depth: usize,
) -> Result<Node<Argument>, ParseError>
    ensures { Reads (node_tree argument_tree) (read.placed (in_file file) (reading.argument (in_file file) constant depth) tokens.old) result tokens.new }
{
    let begin = begin(tokens);
    let found = argument(alloc, tokens, file, constant, depth)?;
    let place = since(tokens, file, begin);
    Ok(Node::new_parsed(alloc, found, place)?)
}

/// One or more arguments.
fn some_arguments(
    alloc: Global,
    tokens: &mut TokenCursor<'_>,
    file: FileId,
    constant: bool,
    depth: usize,
) -> Result<Vec<Node<Argument>>, ParseError>
    ensures { Reads (λ v. map (node_tree argument_tree) v.items) (lists.some_arguments (in_file file) constant depth tokens.old) result tokens.new }
{
    if !next_is_name(tokens) {
        return Err(ParseError::Unexpected);
    }
    let mut found = Vec::new(alloc);
    'turns: while next_is_name(tokens) {
        found.push(placed_argument(alloc, tokens, file, constant, depth)?)?;
    }
    Ok(found)
}

/// Arguments: `"(" Argument+ ")"`.
pub fn arguments(
    alloc: Global,
    tokens: &mut TokenCursor<'_>,
    file: FileId,
    constant: bool,
    depth: usize,
) -> Result<Vec<Node<Argument>>, ParseError>
    ensures { Reads (λ v. map (node_tree argument_tree) v.items) (reading.arguments (in_file file) constant depth tokens.old) result tokens.new }
{
    open(tokens, Terminal::OpenParen, depth)?;
    let found = some_arguments(alloc, tokens, file, constant, depth - 1)?;
    expect(tokens, Terminal::CloseParen)?;
    Ok(found)
}
