//! Steps of a cursor over tokens.
ghost use Rattle.std.specs.Prelude.{◌≡◌, ◌<◌, ◌-◌, OnOk, Some};
ghost use Rattle.read_tokens.specs.Input as input;
ghost use Rattle.read_grammar.specs.Kinds as kinds;
ghost use Rattle.read_grammar.specs.Meaning.{begin_of};
ghost use Rattle.read_grammar.specs.Places.{place_in};
ghost use Rattle.read_grammar.specs.Reading as read;
ghost use Rattle.read_grammar.specs.Reading.{Reads};

use graphql_names::{FileId, SourceSpan};
use read_grammar::ParseError;
use read_tokens::{Terminal, TokenCursor};

/// Whether the next token is this terminal.
pub fn next_is(tokens: &TokenCursor<'_>, terminal: Terminal) -> bool
    ensures { result ≡ kinds.next_is (kinds.is terminal) (input.next tokens.now) }
{
    tokens.peek() == Some(terminal)
}

/// Whether the next token is a Name.
pub fn next_is_name(tokens: &TokenCursor<'_>) -> bool
    ensures { result ≡ kinds.next_is kinds.is_name (input.next tokens.now) }
{
    match tokens.peek() {
        None => false,
        Some(terminal) => is_name(terminal),
    }
}

/// Whether a terminal may be a Name.
pub fn is_name(terminal: Terminal) -> bool
    ensures { result ≡ kinds.is_name terminal }
{
    match terminal {
        Terminal::Bang
        | Terminal::Dollar
        | Terminal::Ampersand
        | Terminal::OpenParen
        | Terminal::CloseParen
        | Terminal::Spread
        | Terminal::Colon
        | Terminal::Equals
        | Terminal::At
        | Terminal::OpenBracket
        | Terminal::CloseBracket
        | Terminal::OpenBrace
        | Terminal::Pipe
        | Terminal::CloseBrace
        | Terminal::Int
        | Terminal::Float
        | Terminal::String
        | Terminal::BlockString => false,
        _ => true,
    }
}

/// Where the next token begins; 0 if none is left.
pub fn begin(tokens: &TokenCursor<'_>) -> usize
    ensures { result ≡ begin_of tokens.now.ahead }
{
    if tokens.peek().is_none() {
        return 0;
    }
    tokens.offset()
}

/// Takes this terminal.
#[tactic(auto, using(read_grammar::proofs::Moves::mark_yes, read_grammar::proofs::Moves::mark_no))]
pub fn expect(tokens: &mut TokenCursor<'_>, terminal: Terminal) -> Result<(), ParseError>
    ensures { Reads (λ x. x) (read.mark (kinds.is terminal) tokens.old) result tokens.new }
{
    if !next_is(tokens, terminal) {
        return Err(ParseError::Unexpected);
    }
    tokens.skip();
    Ok(())
}

/// Takes an opening bracket, if one more may be open.
#[tactic(auto, using(read_grammar::proofs::Moves::mark_yes, read_grammar::proofs::Moves::mark_no))]
pub fn open(
    tokens: &mut TokenCursor<'_>,
    terminal: Terminal,
    depth: usize,
) -> Result<(), ParseError>
    ensures reads { Reads (λ x. x) (read.opening (kinds.is terminal) depth tokens.old) result tokens.new }
    ensures deep { OnOk result (0 < depth) }
{
    if !next_is(tokens, terminal) {
        return Err(ParseError::Unexpected);
    }
    // Tested second: a bracket that is not allowed here is `Unexpected`, however many are open.
    if depth == 0 {
        return Err(ParseError::Nesting);
    }
    tokens.skip();
    Ok(())
}

/// The place from where something begins to the end of the last token that was taken.
pub fn since(tokens: &TokenCursor<'_>, file: FileId, begin: usize) -> SourceSpan
    ensures place { Some result ≡ place_in file.0 begin tokens.now.last }
    ensures length { result.length ≡ tokens.now.last - begin }
{
    SourceSpan {
        file_id: file,
        offset: begin,
        // Saturating, so that it need not be known here that a token was taken since `begin`.
        length: tokens.last().saturating_sub(begin),
    }
}
