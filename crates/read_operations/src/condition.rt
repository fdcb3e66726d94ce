//! Names of fragments and type conditions (section 2.8).
ghost use Rattle.std.specs.Prelude.{◌≡◌};
ghost use Rattle.read_tokens.specs.Input as input;
ghost use Rattle.graphql_names.specs.Placed.{name_tree};
ghost use Rattle.read_grammar.specs.Kinds as kinds;
ghost use Rattle.read_grammar.specs.OperationReading as reading;
ghost use Rattle.read_grammar.specs.Reading.{Reads};
ghost use Rattle.read_operations.specs.Meanings.{in_file};

use crate::{expect, name, next_is, next_is_name};
use graphql_names::{FileId, Name};
use read_grammar::ParseError;
use read_tokens::{Terminal, TokenCursor};

/// Whether the next token is a Name but `on`.
pub fn next_is_fragment_name(tokens: &TokenCursor<'_>) -> bool
    ensures { result ≡ kinds.next_is kinds.is_fragment_name (input.next tokens.now) }
{
    next_is_name(tokens) && !next_is(tokens, Terminal::On)
}

/// FragmentName: `Name` but not `on`.
pub fn fragment_name(tokens: &mut TokenCursor<'_>, file: FileId) -> Result<Name, ParseError>
    ensures { Reads name_tree (reading.fragment_name (in_file file) tokens.old) result tokens.new }
{
    if !next_is_fragment_name(tokens) {
        return Err(ParseError::Unexpected);
    }
    name(tokens, file)
}

/// TypeCondition: `"on" Name`, its name.
#[tactic(auto, unfolding(read_grammar::specs::OperationReading::type_condition))]
pub fn type_condition(tokens: &mut TokenCursor<'_>, file: FileId) -> Result<Name, ParseError>
    ensures { Reads name_tree (reading.type_condition (in_file file) tokens.old) result tokens.new }
{
    expect(tokens, Terminal::On)?;
    name(tokens, file)
}
