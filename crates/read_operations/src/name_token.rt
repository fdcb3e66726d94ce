//! Names (section 2.1.9).
ghost use Rattle.std.specs.Prelude.{◌≡◌};
ghost use Rattle.graphql_names.specs.Placed.{name_tree};
ghost use Rattle.read_grammar.specs.Reading.{Reads};
ghost use Rattle.read_grammar.specs.ValueReading as reading;
ghost use Rattle.read_operations.specs.Meanings.{in_file};

use crate::steps::{begin, next_is_name, since};
use graphql_names::{FileId, Name};
use read_grammar::ParseError;
use read_tokens::TokenCursor;

/// Takes a name, which is a part of the text.
#[tactic(auto, using(crate::proofs::Names::first_is_name, crate::proofs::Names::skipped_length, read_grammar::proofs::Moves::taken_no), unfolding(read_grammar::specs::ValueReading::name))]
pub fn name(tokens: &mut TokenCursor<'_>, file: FileId) -> Result<Name, ParseError>
    ensures { Reads name_tree (reading.name (in_file file) tokens.old) result tokens.new }
{
    if !next_is_name(tokens) {
        return Err(ParseError::Unexpected);
    }
    let begin = begin(tokens);
    let text = tokens.next_part()?;
    tokens.skip();
    let place = since(tokens, file, begin);
    Ok(Name::from_part_unchecked(text).with_location(place))
}
