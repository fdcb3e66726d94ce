//! Operation types (section 2.3).
ghost use Rattle.read_grammar.specs.OperationReading as reading;
ghost use Rattle.read_grammar.specs.Reading.{Reads};

use crate::steps::next_is;
use read_grammar::ParseError;
use read_tokens::{Terminal, TokenCursor};
use tree_directives::OperationType;

/// OperationType: `query`, `mutation` or `subscription`.
#[tactic(auto, using(read_grammar::proofs::Moves::mark_yes), unfolding(read_grammar::specs::OperationReading::operation_type))]
pub fn operation_type(tokens: &mut TokenCursor<'_>) -> Result<OperationType, ParseError>
    ensures { Reads (λ x. x) (reading.operation_type tokens.old) result tokens.new }
{
    if next_is(tokens, Terminal::Query) {
        tokens.skip();
        return Ok(OperationType::Query);
    }
    if next_is(tokens, Terminal::Mutation) {
        tokens.skip();
        return Ok(OperationType::Mutation);
    }
    if next_is(tokens, Terminal::Subscription) {
        tokens.skip();
        return Ok(OperationType::Subscription);
    }
    Err(ParseError::Unexpected)
}
