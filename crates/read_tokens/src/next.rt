//! The next token of a text.
ghost use Rattle.std.specs.Prelude.{◌≡◌, ◌≤◌, [], length, take, drop, Some, IfOk};
ghost use Rattle.std.specs.Rc.{rc_str_bytes};
ghost use Rattle.std.specs.Str.{IsCharBoundary};
ghost use Rattle.graphql_names.specs.TextPart.{part_bytes};
ghost use Rattle.read_tokens.specs.Tokens.{token_at};
ghost use Rattle.read_tokens.specs.Lex.{past_ignored, StartsAt, GoesOn};
ghost use Rattle.read_tokens.specs.declared.token.TokenKind.{TokenKind};

use crate::lex::{ignored_len, token_at};
use crate::token::{NextToken, Token, TokenKind};
use graphql_names::TextPart;
use std::alloc::AllocError;
use std::rc::RcStr;

/// Where the ignored pieces end that begin at an offset and follow one another.
pub(crate) fn past_ignored(text: &str, offset: usize) -> usize
    requires { offset ≤ length text.now }
    ensures place { result ≡ past_ignored text.now offset }
    ensures within { result ≤ length text.now }
{
    let (_, rest) = text.as_bytes().split_at(offset);
    offset + ignored_len(rest)
}

/// The kind and the length of the token that starts at a place.
pub(crate) fn token_from(text: &str, at: usize) -> Option<(TokenKind, usize)>
    requires { at ≤ length text.now }
    ensures { result ≡ token_at (drop at text.now) }
{
    let (_, rest) = text.as_bytes().split_at(at);
    token_at(rest)
}

/// The text of the token that starts at a place and has this length.
#[tactic(auto, using(crate::proofs::Ends::cut_before, crate::proofs::Ends::cut_after, crate::proofs::Ends::token_fits))]
pub(crate) fn token_text(text: &str, at: usize, length: usize) -> &str
    requires { (kind : TokenKind) × (token_at (drop at text.now) ≡ Some (kind, length)) }
    ensures { result.now ≡ take length (drop at text.now) }
{
    &text[at..at + length]
}

/// The token that starts at a place of a shared text and has this length, as a part of the text.
#[tactic(auto, using(crate::proofs::Ends::cut_before, crate::proofs::Ends::cut_after, crate::proofs::Ends::token_fits))]
pub(crate) fn token_part(shared: &RcStr, at: usize, length: usize) -> Result<TextPart, AllocError>
    requires { (kind : TokenKind) × (token_at (drop at (rc_str_bytes shared.now)) ≡ Some (kind, length)) }
    ensures { IfOk result (λ part. part_bytes part ≡ take length (drop at (rc_str_bytes shared.now))) }
{
    TextPart::new(shared, at, at + length)
}

/// The empty part at the end of a shared text.
#[tactic(auto, using(crate::proofs::Ends::cut_at_end))]
pub(crate) fn end_part(shared: &RcStr) -> Result<TextPart, AllocError>
    ensures { IfOk result (λ part. part_bytes part ≡ []) }
{
    let end = shared.as_str().len();
    TextPart::new(shared, end, end)
}

/// The next token of the text from the offset on, or that nothing is left, or that no token starts where one would have to.
///
/// A token has at least one byte, and the text may be cut after it: so its end is an offset from which to go on.
pub fn next_token(text: &str, offset: usize) -> NextToken<'_>
    requires { IsCharBoundary text.now offset }
    ensures starts { StartsAt text.now (past_ignored text.now offset) result }
    ensures goes_on { GoesOn text.now result }
{
    let at = past_ignored(text, offset);
    if at == text.len() {
        return NextToken::End;
    }
    let Some((kind, length)) = token_from(text, at) else {
        return NextToken::NoToken(at);
    };
    NextToken::Token(Token {
        kind,
        text: token_text(text, at, length),
        offset: at,
    })
}
