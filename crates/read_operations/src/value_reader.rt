//! Values (section 2.9).
ghost use Rattle.std.specs.Prelude.{◌≡◌, map};
ghost use Rattle.read_tokens.specs.Input as input;
ghost use Rattle.graphql_names.specs.Placed.{node_tree};
ghost use Rattle.tree_literals.specs.ValueTree.{value_tree};
ghost use Rattle.read_grammar.specs.Begins as begins;
ghost use Rattle.read_grammar.specs.Kinds as kinds;
ghost use Rattle.read_grammar.specs.Reading as read;
ghost use Rattle.read_grammar.specs.Reading.{Reads};
ghost use Rattle.read_grammar.specs.ValueReading as reading;
ghost use Rattle.read_operations.specs.Meanings.{in_file, entry_view, begins_nested};
ghost use Rattle.read_operations.specs.ListSteps as lists;

use crate::name_token::name;
use crate::steps::{begin, expect, is_name, next_is, next_is_name, since};
use crate::value_token::plain_value;
use graphql_names::{FileId, Name, Node};
use read_grammar::ParseError;
use read_tokens::{Terminal, TokenCursor};
use std::alloc::Global;
use tree_literals::Value;

/// Whether a value may begin with the next token.
fn begins_value(tokens: &TokenCursor<'_>) -> bool
    ensures { result ≡ kinds.next_is begins.begins_value (input.next tokens.now) }
{
    match tokens.peek() {
        None => false,
        Some(
            Terminal::Dollar
            | Terminal::Int
            | Terminal::Float
            | Terminal::String
            | Terminal::BlockString
            | Terminal::OpenBracket
            | Terminal::OpenBrace,
        ) => true,
        Some(terminal) => is_name(terminal),
    }
}

/// A value with its place.
#[cycle(value)]
pub fn placed_value(
    alloc: Global,
    tokens: &mut TokenCursor<'_>,
    file: FileId,
    constant: bool,
    depth: usize,
) -> Result<Node<Value>, ParseError>
    ensures { Reads (node_tree value_tree) (read.placed (in_file file) (reading.value (in_file file) constant depth) tokens.old) result tokens.new }
{
    let begin = begin(tokens);
    let found = value(alloc, tokens, file, constant, depth)?;
    let place = since(tokens, file, begin);
    Ok(Node::new_parsed(alloc, found, place)?)
}

/// Any number of values.
// Neither this function nor `object_fields` is inlined, so that a level of a value takes the stack of only one of them.
#[cycle(value)]
#[inline(never)]
fn values(
    alloc: Global,
    tokens: &mut TokenCursor<'_>,
    file: FileId,
    constant: bool,
    depth: usize,
) -> Result<Vec<Node<Value>>, ParseError>
    ensures { Reads (λ v. map (node_tree value_tree) v.items) (lists.values (in_file file) constant depth tokens.old) result tokens.new }
{
    let mut found = Vec::new(alloc);
    'turns: while begins_value(tokens) {
        found.push(placed_value(alloc, tokens, file, constant, depth)?)?;
    }
    Ok(found)
}

/// ListValue: `"[" Value* "]"`.
#[cycle(value)]
#[tactic(auto, unfolding(read_grammar::specs::ValueReading::list_value))]
fn list_value(
    alloc: Global,
    tokens: &mut TokenCursor<'_>,
    file: FileId,
    constant: bool,
    depth: usize,
) -> Result<Value, ParseError>
    ensures { Reads value_tree (reading.list_value (in_file file) (reading.value (in_file file) constant depth) tokens.old) result tokens.new }
{
    expect(tokens, Terminal::OpenBracket)?;
    let found = values(alloc, tokens, file, constant, depth)?;
    expect(tokens, Terminal::CloseBracket)?;
    Ok(Value::List(found))
}

/// ObjectField: `Name ":" Value`.
#[cycle(value)]
#[tactic(auto, unfolding(read_grammar::specs::ValueReading::object_field))]
fn object_field(
    alloc: Global,
    tokens: &mut TokenCursor<'_>,
    file: FileId,
    constant: bool,
    depth: usize,
) -> Result<(Name, Node<Value>), ParseError>
    ensures { Reads entry_view (reading.object_field (in_file file) (reading.value (in_file file) constant depth) tokens.old) result tokens.new }
{
    let name = name(tokens, file)?;
    expect(tokens, Terminal::Colon)?;
    let value = placed_value(alloc, tokens, file, constant, depth)?;
    Ok((name, value))
}

/// Any number of fields of an object.
#[cycle(value)]
#[inline(never)]
fn object_fields(
    alloc: Global,
    tokens: &mut TokenCursor<'_>,
    file: FileId,
    constant: bool,
    depth: usize,
) -> Result<Vec<(Name, Node<Value>)>, ParseError>
    ensures { Reads (λ v. map entry_view v.items) (lists.object_fields (in_file file) constant depth tokens.old) result tokens.new }
{
    let mut found = Vec::new(alloc);
    'turns: while next_is_name(tokens) {
        found.push(object_field(alloc, tokens, file, constant, depth)?)?;
    }
    Ok(found)
}

/// ObjectValue: `"{" ObjectField* "}"`.
#[cycle(value)]
#[tactic(auto, unfolding(read_grammar::specs::ValueReading::object_value))]
fn object_value(
    alloc: Global,
    tokens: &mut TokenCursor<'_>,
    file: FileId,
    constant: bool,
    depth: usize,
) -> Result<Value, ParseError>
    ensures { Reads value_tree (reading.object_value (in_file file) (reading.value (in_file file) constant depth) tokens.old) result tokens.new }
{
    expect(tokens, Terminal::OpenBrace)?;
    let found = object_fields(alloc, tokens, file, constant, depth)?;
    expect(tokens, Terminal::CloseBrace)?;
    Ok(Value::Object(found))
}

/// Whether the next token begins a list or an object.
fn opens_value(tokens: &TokenCursor<'_>) -> bool
    ensures { result ≡ kinds.next_is begins_nested (input.next tokens.now) }
{
    matches!(
        tokens.peek(),
        Some(Terminal::OpenBracket | Terminal::OpenBrace),
    )
}

/// Value: one of its forms. If `constant`, variables are refused.
#[cycle(value)]
fn value(
    alloc: Global,
    tokens: &mut TokenCursor<'_>,
    file: FileId,
    constant: bool,
    depth: usize,
) -> Result<Value, ParseError>
    ensures { Reads value_tree (reading.value (in_file file) constant depth tokens.old) result tokens.new }
{
    if !opens_value(tokens) {
        return plain_value(alloc, tokens, file, constant);
    }
    if depth == 0 {
        return Err(ParseError::Nesting);
    }
    if next_is(tokens, Terminal::OpenBracket) {
        return list_value(alloc, tokens, file, constant, depth - 1);
    }
    object_value(alloc, tokens, file, constant, depth - 1)
}

/// DefaultValue: `"=" Value`, without variables.
#[tactic(auto, unfolding(read_grammar::specs::ValueReading::default_value))]
pub fn default_value(
    alloc: Global,
    tokens: &mut TokenCursor<'_>,
    file: FileId,
    depth: usize,
) -> Result<Node<Value>, ParseError>
    ensures { Reads (node_tree value_tree) (reading.default_value (in_file file) depth tokens.old) result tokens.new }
{
    expect(tokens, Terminal::Equals)?;
    placed_value(alloc, tokens, file, true, depth)
}
