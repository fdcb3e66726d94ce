//! Values of one token, and variables (section 2.9).
ghost use Rattle.std.specs.Prelude.{◌≡◌};
ghost use Rattle.read_tokens.specs.Input as input;
ghost use Rattle.graphql_names.specs.Placed.{name_tree};
ghost use Rattle.tree_literals.specs.ValueTree.{value_tree};
ghost use Rattle.read_grammar.specs.Kinds as kinds;
ghost use Rattle.read_grammar.specs.Reading as read;
ghost use Rattle.read_grammar.specs.Reading.{Reads};
ghost use Rattle.read_grammar.specs.ValueReading as reading;
ghost use Rattle.read_operations.specs.Meanings.{in_file, variable_meant, named_meant};

use crate::name_token::name;
use crate::number_token::{float_value, int_value};
use crate::steps::{expect, is_name, next_is};
use crate::string_token::{next_is_string, string_value};
use graphql_names::{FileId, Name};
use read_grammar::ParseError;
use read_tokens::{Terminal, TokenCursor};
use std::alloc::Global;
use tree_literals::Value;

/// Variable: `"$" Name`, its name.
#[tactic(auto, unfolding(read_grammar::specs::ValueReading::variable))]
pub fn variable(tokens: &mut TokenCursor<'_>, file: FileId) -> Result<Name, ParseError>
    ensures { Reads name_tree (reading.variable (in_file file) tokens.old) result tokens.new }
{
    expect(tokens, Terminal::Dollar)?;
    name(tokens, file)
}

/// A variable as a value, which is refused if `constant`.
fn variable_value(
    tokens: &mut TokenCursor<'_>,
    file: FileId,
    constant: bool,
) -> Result<Value, ParseError>
    ensures { Reads value_tree (variable_meant (in_file file) constant tokens.old) result tokens.new }
{
    if constant {
        return Err(ParseError::Unexpected);
    }
    Ok(Value::Variable(variable(tokens, file)?))
}

/// Whether the next token is a Name but `true`, `false` or `null`.
fn next_is_enum_value(tokens: &TokenCursor<'_>) -> bool
    ensures { result ≡ kinds.next_is kinds.is_enum_value (input.next tokens.now) }
{
    match tokens.peek() {
        None | Some(Terminal::True | Terminal::False | Terminal::Null) => false,
        Some(terminal) => is_name(terminal),
    }
}

/// EnumValue: `Name` but not `true`, `false`, `null`.
pub fn enum_value(tokens: &mut TokenCursor<'_>, file: FileId) -> Result<Name, ParseError>
    ensures { Reads name_tree (reading.enum_value (in_file file) tokens.old) result tokens.new }
{
    if !next_is_enum_value(tokens) {
        return Err(ParseError::Unexpected);
    }
    name(tokens, file)
}

/// An EnumValue as a value.
fn named_value(tokens: &mut TokenCursor<'_>, file: FileId) -> Result<Value, ParseError>
    ensures { Reads value_tree (named_meant (in_file file) tokens.old) result tokens.new }
{
    Ok(Value::Enum(enum_value(tokens, file)?))
}

/// Whether the next token is `true` or `false`.
fn next_is_boolean(tokens: &TokenCursor<'_>) -> bool
    ensures { result ≡ kinds.next_is kinds.is_boolean (input.next tokens.now) }
{
    matches!(tokens.peek(), Some(Terminal::True | Terminal::False))
}

/// BooleanValue: `true` or `false`.
// Here and in `null_value`, `file` is only for the contract.
#[tactic(auto, unfolding(read_grammar::specs::ValueReading::boolean_value))]
fn boolean_value(tokens: &mut TokenCursor<'_>, file: FileId) -> Result<Value, ParseError>
    ensures { Reads value_tree (reading.boolean_value (in_file file) tokens.old) result tokens.new }
{
    if next_is(tokens, Terminal::True) {
        tokens.skip();
        return Ok(Value::Boolean(true));
    }
    expect(tokens, Terminal::False)?;
    Ok(Value::Boolean(false))
}

/// NullValue: `null`.
#[tactic(auto, unfolding(read_grammar::specs::ValueReading::null_value))]
fn null_value(tokens: &mut TokenCursor<'_>, file: FileId) -> Result<Value, ParseError>
    ensures { Reads value_tree (reading.null_value (in_file file) tokens.old) result tokens.new }
{
    expect(tokens, Terminal::Null)?;
    Ok(Value::Null)
}

/// A value that is neither a list nor an object. If `constant`, variables are refused.
// Not inlined, so that its locals take no stack at each level of a value.
#[inline(never)]
pub fn plain_value(
    alloc: Global,
    tokens: &mut TokenCursor<'_>,
    file: FileId,
    constant: bool,
) -> Result<Value, ParseError>
    ensures { Reads value_tree (reading.any_value (in_file file) constant read.refuse read.refuse tokens.old) result tokens.new }
{
    if next_is(tokens, Terminal::Dollar) {
        return variable_value(tokens, file, constant);
    }
    if next_is(tokens, Terminal::Int) {
        return int_value(alloc, tokens, file);
    }
    if next_is(tokens, Terminal::Float) {
        return float_value(alloc, tokens, file);
    }
    if next_is_string(tokens) {
        return string_value(alloc, tokens, file);
    }
    if next_is_boolean(tokens) {
        return boolean_value(tokens, file);
    }
    if next_is(tokens, Terminal::Null) {
        return null_value(tokens, file);
    }
    if next_is_enum_value(tokens) {
        return named_value(tokens, file);
    }
    Err(ParseError::Unexpected)
}
