//! Directives (section 2.12).
ghost use Rattle.std.specs.Prelude.{◌≡◌};
ghost use Rattle.graphql_names.specs.Placed.{node_tree};
ghost use Rattle.tree_directives.specs.DirectiveTree.{directive_tree, directives_tree};
ghost use Rattle.read_grammar.specs.Reading as read;
ghost use Rattle.read_grammar.specs.Reading.{Reads};
ghost use Rattle.read_grammar.specs.ValueReading as reading;
ghost use Rattle.read_operations.specs.Meanings.{in_file};

use crate::argument_list::arguments;
use crate::name_token::name;
use crate::steps::{begin, expect, next_is, since};
use graphql_names::{FileId, Node};
use read_grammar::ParseError;
use read_tokens::{Terminal, TokenCursor};
use std::alloc::Global;
use tree_directives::{Directive, DirectiveList};

/// Directive: `"@" Name Arguments?`.
#[tactic(auto, unfolding(read_grammar::specs::ValueReading::directive))]
fn directive(
    alloc: Global,
    tokens: &mut TokenCursor<'_>,
    file: FileId,
    constant: bool,
    depth: usize,
) -> Result<Directive, ParseError>
    ensures { Reads directive_tree (reading.directive (in_file file) constant depth tokens.old) result tokens.new }
{
    expect(tokens, Terminal::At)?;
    let name = name(tokens, file)?;
    if !next_is(tokens, Terminal::OpenParen) {
        return Ok(Directive {
            name,
            arguments: Vec::new(alloc),
        });
    }
    let arguments = arguments(alloc, tokens, file, constant, depth)?;
    Ok(Directive { name, arguments })
}

/// A directive with its place.
fn placed_directive(
    alloc: Global,
    tokens: &mut TokenCursor<'_>,
    file: FileId,
    constant: bool,
    depth: usize,
) -> Result<Node<Directive>, ParseError>
    ensures { Reads (node_tree directive_tree) (read.placed (in_file file) (reading.directive (in_file file) constant depth) tokens.old) result tokens.new }
{
    let begin = begin(tokens);
    let found = directive(alloc, tokens, file, constant, depth)?;
    let place = since(tokens, file, begin);
    Ok(Node::new_parsed(alloc, found, place)?)
}

/// Directives: one or more.
pub fn directives(
    alloc: Global,
    tokens: &mut TokenCursor<'_>,
    file: FileId,
    constant: bool,
    depth: usize,
) -> Result<DirectiveList, ParseError>
    ensures { Reads directives_tree (reading.directives (in_file file) constant depth tokens.old) result tokens.new }
{
    if !next_is(tokens, Terminal::At) {
        return Err(ParseError::Unexpected);
    }
    let mut found = Vec::new(alloc);
    'turns: while next_is(tokens, Terminal::At) {
        found.push(placed_directive(alloc, tokens, file, constant, depth)?)?;
    }
    Ok(DirectiveList(found))
}
