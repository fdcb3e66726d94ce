//! Numbers (sections 2.9.1 and 2.9.2).
ghost use Rattle.std.specs.Prelude.{◌≡◌};
ghost use Rattle.tree_literals.specs.ValueTree.{value_tree};
ghost use Rattle.read_grammar.specs.Reading.{Reads};
ghost use Rattle.read_grammar.specs.ValueReading as reading;
ghost use Rattle.read_operations.specs.Meanings.{in_file};

use crate::steps::next_is;
use graphql_names::FileId;
use read_grammar::ParseError;
use read_tokens::{Terminal, TokenCursor};
use std::alloc::Global;
use tree_literals::{FloatValue, IntValue, Value};

/// IntValue.
// `file` is only for the contract, which says in which file the places of a value are.
#[tactic(auto, using(crate::proofs::Tokens::next_is_int, crate::proofs::Tokens::int_refused))]
pub fn int_value(
    alloc: Global,
    tokens: &mut TokenCursor<'_>,
    file: FileId,
) -> Result<Value, ParseError>
    ensures { Reads value_tree (reading.int_value (in_file file) tokens.old) result tokens.new }
{
    if !next_is(tokens, Terminal::Int) {
        return Err(ParseError::Unexpected);
    }
    let text = tokens.skip();
    Ok(Value::Int(IntValue::new_parsed(alloc, text)?))
}

/// FloatValue.
#[tactic(auto, using(crate::proofs::Tokens::next_is_float, crate::proofs::Tokens::float_refused))]
pub fn float_value(
    alloc: Global,
    tokens: &mut TokenCursor<'_>,
    file: FileId,
) -> Result<Value, ParseError>
    ensures { Reads value_tree (reading.float_value (in_file file) tokens.old) result tokens.new }
{
    if !next_is(tokens, Terminal::Float) {
        return Err(ParseError::Unexpected);
    }
    let text = tokens.skip();
    Ok(Value::Float(FloatValue::new_parsed(alloc, text)?))
}
