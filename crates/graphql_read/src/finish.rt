//! The end of a text, and the fault where reading stops.
ghost use Rattle.std.specs.Prelude.{◌≡◌};
ghost use Rattle.read_tokens.specs.Cursor.{next_offset};
ghost use Rattle.read_grammar.specs.Reading.{Reads};
ghost use Rattle.read_grammar.specs.Stops.{unexpected_at, fault_of};
ghost use Rattle.graphql_read.specs.Calls.{end_of_text};
ghost use Rattle.graphql_read.specs.ReadFaults.{fault_at, fault_view};

use crate::fault::{ReadFault, SyntaxFault, SyntaxFaultKind};
use read_tokens::TokenCursor;
use read_types::{ParseError, begin};

/// Whether the text ends here.
pub fn end_of_text(tokens: &TokenCursor<'_>) -> Result<(), ParseError>
    ensures { Reads (λ x. x) (end_of_text tokens.now) result tokens.now }
{
    if tokens.peek().is_some() || tokens.is_stuck() {
        return Err(ParseError::Unexpected);
    }
    Ok(())
}

/// What is wrong with the next token, or with the text if no token is left.
fn unexpected_kind(tokens: &TokenCursor<'_>) -> SyntaxFaultKind
    ensures { fault_at result (next_offset tokens.now) ≡ unexpected_at tokens.now.ahead tokens.now.ending }
{
    if tokens.peek().is_some() {
        return SyntaxFaultKind::Unexpected;
    }
    if tokens.is_stuck() {
        return SyntaxFaultKind::NoToken;
    }
    SyntaxFaultKind::End
}

/// The same with its place.
fn unexpected(tokens: &TokenCursor<'_>) -> SyntaxFault
    ensures { fault_at result.kind result.offset ≡ unexpected_at tokens.now.ahead tokens.now.ending }
{
    SyntaxFault {
        kind: unexpected_kind(tokens),
        offset: tokens.offset(),
    }
}

/// The fault at the point where reading stops.
pub fn fault(tokens: &TokenCursor<'_>, stop: ParseError) -> ReadFault
    ensures { fault_view result ≡ fault_of stop tokens.now }
{
    match stop {
        ParseError::Memory => ReadFault::Memory,
        ParseError::Unexpected => ReadFault::Syntax(unexpected(tokens)),
        ParseError::Nesting => ReadFault::Nesting {
            offset: begin(tokens),
        },
    }
}
