//! Strings and descriptions (section 2.9.4).
ghost use Rattle.std.specs.Prelude.{◌≡◌};
ghost use Rattle.std.specs.String.{string_bytes};
ghost use Rattle.read_tokens.specs.Input as input;
ghost use Rattle.graphql_names.specs.Placed.{text_tree};
ghost use Rattle.tree_literals.specs.ValueTree.{value_tree};
ghost use Rattle.read_grammar.specs.Kinds as kinds;
ghost use Rattle.read_grammar.specs.Reading.{Reads};
ghost use Rattle.read_grammar.specs.TypeSystemReading as types;
ghost use Rattle.read_grammar.specs.ValueReading as reading;
ghost use Rattle.read_operations.specs.Meanings.{in_file, string_meant};
ghost use Rattle.read_operations.specs.StringBytes.{bytes_of};

use crate::steps::{begin, next_is, since};
use graphql_names::{FileId, NodeStr, TextPart};
use read_grammar::ParseError;
use read_tokens::{Terminal, TokenCursor, plain_block, plain_string};
use std::alloc::Global;
use tree_literals::Value;

/// Whether the next token is a string.
pub fn next_is_string(tokens: &TokenCursor<'_>) -> bool
    ensures { result ≡ kinds.next_is kinds.is_string (input.next tokens.now) }
{
    matches!(
        tokens.peek(),
        Some(Terminal::String | Terminal::BlockString),
    )
}

/// Takes a string, and gives the text that it stands for.
#[tactic(auto, using(crate::proofs::Tokens::next_is_quoted, crate::proofs::Tokens::next_is_block))]
fn string_text(alloc: Global, tokens: &mut TokenCursor<'_>) -> Result<String, ParseError>
    ensures { Reads string_bytes (string_meant tokens.old) result tokens.new }
{
    if next_is(tokens, Terminal::String) {
        let text = tokens.skip();
        return Ok(read_tokens::string_value(alloc, text)?);
    }
    if next_is(tokens, Terminal::BlockString) {
        let text = tokens.skip();
        return Ok(read_tokens::block_value(alloc, text)?);
    }
    Err(ParseError::Unexpected)
}

/// StringValue.
// `file` is only for the contract, which says in which file the places of a value are.
pub fn string_value(
    alloc: Global,
    tokens: &mut TokenCursor<'_>,
    file: FileId,
) -> Result<Value, ParseError>
    ensures { Reads value_tree (reading.string_value (in_file file) tokens.old) result tokens.new }
{
    Ok(Value::String(string_text(alloc, tokens)?))
}

/// What a string stands for: a part of the text that is read, or a text of its own.
#[derive(Drop)]
pub(crate) enum StringText {
    Part(TextPart),
    Own(String),
}

/// Takes a string: the part of the text for which it stands, where that stands there as it is. Then nothing is copied.
#[tactic(auto, using(crate::proofs::Tokens::next_is_quoted, crate::proofs::Tokens::next_is_block))]
fn string_part(alloc: Global, tokens: &mut TokenCursor<'_>) -> Result<StringText, ParseError>
    ensures { Reads bytes_of (string_meant tokens.old) result tokens.new }
{
    if next_is(tokens, Terminal::String) {
        let part = tokens.next_part()?;
        let text = tokens.skip();
        return match plain_string(text) {
            Some((start, end)) => Ok(StringText::Part(part.narrowed(start, end))),
            None => Ok(StringText::Own(read_tokens::string_value(alloc, text)?)),
        };
    }
    if next_is(tokens, Terminal::BlockString) {
        let part = tokens.next_part()?;
        let text = tokens.skip();
        return match plain_block(text) {
            Some((start, end)) => Ok(StringText::Part(part.narrowed(start, end))),
            None => Ok(StringText::Own(read_tokens::block_value(alloc, text)?)),
        };
    }
    Err(ParseError::Unexpected)
}

/// Description: a string, with its place.
pub fn description(
    alloc: Global,
    tokens: &mut TokenCursor<'_>,
    file: FileId,
) -> Result<NodeStr, ParseError>
    ensures { Reads text_tree (types.description (in_file file) tokens.old) result tokens.new }
{
    let begin = begin(tokens);
    let text = string_part(alloc, tokens)?;
    let place = since(tokens, file, begin);
    match text {
        StringText::Part(part) => Ok(NodeStr::from_part_parsed(part, place)),
        StringText::Own(text) => Ok(NodeStr::from_string_parsed(text, place)?),
    }
}
