//! Parts that may be left out.
ghost use Rattle.std.specs.Prelude.{◌≡◌, [], map, unwrap_or};
ghost use Rattle.std.specs.Option.{option_map};
ghost use Rattle.graphql_names.specs.Placed.{node_tree, text_tree};
ghost use Rattle.tree_directives.specs.DirectiveTree.{argument_tree, directives_tree};
ghost use Rattle.tree_literals.specs.ValueTree.{value_tree};
ghost use Rattle.read_grammar.specs.Kinds as kinds;
ghost use Rattle.read_grammar.specs.Reading as read;
ghost use Rattle.read_grammar.specs.Reading.{Reads};
ghost use Rattle.read_grammar.specs.TypeSystemReading as types;
ghost use Rattle.read_grammar.specs.ValueReading as reading;
ghost use Rattle.read_operations.specs.Meanings.{in_file};

use crate::argument_list::arguments;
use crate::directive_list::directives;
use crate::steps::next_is;
use crate::string_token::{description, next_is_string};
use crate::value_reader::default_value;
use graphql_names::{FileId, Node, NodeStr};
use read_grammar::ParseError;
use read_tokens::{Terminal, TokenCursor};
use std::alloc::Global;
use tree_directives::{Argument, DirectiveList};
use tree_literals::Value;

/// Description, or nothing.
pub fn optional_description(
    alloc: Global,
    tokens: &mut TokenCursor<'_>,
    file: FileId,
) -> Result<Option<NodeStr>, ParseError>
    ensures { Reads (option_map text_tree) (read.try kinds.is_string (types.description (in_file file)) tokens.old) result tokens.new }
{
    if !next_is_string(tokens) {
        return Ok(None);
    }
    Ok(Some(description(alloc, tokens, file)?))
}

/// DefaultValue, or nothing.
pub fn optional_default(
    alloc: Global,
    tokens: &mut TokenCursor<'_>,
    file: FileId,
    depth: usize,
) -> Result<Option<Node<Value>>, ParseError>
    ensures { Reads (option_map (node_tree value_tree)) (read.try kinds.is_equals (reading.default_value (in_file file) depth) tokens.old) result tokens.new }
{
    if !next_is(tokens, Terminal::Equals) {
        return Ok(None);
    }
    Ok(Some(default_value(alloc, tokens, file, depth)?))
}

/// Arguments, or nothing.
pub fn optional_arguments(
    alloc: Global,
    tokens: &mut TokenCursor<'_>,
    file: FileId,
    constant: bool,
    depth: usize,
) -> Result<Option<Vec<Node<Argument>>>, ParseError>
    ensures { Reads (option_map (λ v. map (node_tree argument_tree) v.items)) (read.try kinds.is_open_paren (reading.arguments (in_file file) constant depth) tokens.old) result tokens.new }
{
    if !next_is(tokens, Terminal::OpenParen) {
        return Ok(None);
    }
    Ok(Some(arguments(alloc, tokens, file, constant, depth)?))
}

/// Directives, or nothing.
pub fn optional_directives(
    alloc: Global,
    tokens: &mut TokenCursor<'_>,
    file: FileId,
    constant: bool,
    depth: usize,
) -> Result<Option<DirectiveList>, ParseError>
    ensures { Reads (option_map directives_tree) (read.try kinds.is_at (reading.directives (in_file file) constant depth) tokens.old) result tokens.new }
{
    if !next_is(tokens, Terminal::At) {
        return Ok(None);
    }
    Ok(Some(directives(alloc, tokens, file, constant, depth)?))
}

/// The arguments; none if they are left out.
pub fn arguments_or_none(alloc: Global, found: Option<Vec<Node<Argument>>>) -> Vec<Node<Argument>>
    ensures { map (node_tree argument_tree) result.items ≡ unwrap_or (option_map (λ v. map (node_tree argument_tree) v.items) found) [] }
{
    match found {
        None => Vec::new(alloc),
        Some(arguments) => arguments,
    }
}

/// The directives; none if they are left out.
// Not done by the call that reads: the grammar distinguishes whether a part is there, the tree has a list in both cases.
pub fn directives_or_none(alloc: Global, found: Option<DirectiveList>) -> DirectiveList
    ensures { directives_tree result ≡ unwrap_or (option_map directives_tree found) [] }
{
    match found {
        None => DirectiveList(Vec::new(alloc)),
        Some(directives) => directives,
    }
}
