//! A cursor over the tokens of a text.
ghost use Rattle.std.specs.Prelude.{◌≡◌, ◌≤◌, length, drop, IfOk};
ghost use Rattle.std.specs.Rc.{rc_str_bytes};
ghost use Rattle.graphql_names.specs.TextPart.{part_bytes};
ghost use Rattle.read_tokens.specs.Input as input;
ghost use Rattle.read_tokens.specs.Cursor as spec;
ghost use Rattle.read_tokens.specs.Forms.{FormOf};

use crate::next::{end_part, past_ignored, token_from, token_part, token_text};
use crate::terminal::Terminal;
use crate::terminals::terminal_of;
use graphql_names::TextPart;
use std::alloc::AllocError;
use std::marker::Model;
use std::rc::RcStr;

/// The tokens of a text, one after the other. Each is cut when it comes, and none is kept.
#[derive(Drop)]
pub struct TokenCursor<'a> {
    /// The text as others share it, and its bytes.
    shared: &'a RcStr,
    text: &'a str,
    /// Where the next token begins, or the tokens end, in bytes.
    at: usize,
    /// The symbol of the next token, and its length in bytes.
    next: Option<(Terminal, usize)>,
    last: usize,
}

impl<'a> Model for TokenCursor<'a> {
    ghost use Rattle.read_tokens.specs.Input.{Input};

    ghost Value = { Input };

    ghost use Rattle.read_tokens.specs.Cursor.{source_of, IsReady};

    ghost view = { source_of };

    ghost invariant = { IsReady };
}

/// The symbol of the token that starts at a place, and its length.
#[tactic(auto, unfolding(crate::specs::Cursor::symbol_at))]
fn symbol_at(text: &str, at: usize) -> Option<(Terminal, usize)>
    requires { at ≤ length text.now }
    ensures { result ≡ spec.symbol_at (drop at text.now) }
{
    let (kind, length) = token_from(text, at)?;
    Some((
        terminal_of(kind, token_text(text, at, length).as_bytes()),
        length,
    ))
}

impl<'a> TokenCursor<'a> {
    /// The tokens of a text, of which names are then parts.
    #[tactic(auto, using(crate::proofs::Rests::from_past, crate::proofs::Rests::nothing_ignored, crate::proofs::Lexed::ends_as))]
    pub fn new(shared: &'a RcStr) -> TokenCursor<'a>
        ensures shows { result ≡ spec.input_from 0 0 (rc_str_bytes shared.now) }
        ensures lexed { spec.EndsAs (rc_str_bytes shared.now) result.ahead result.ending }
    {
        let text = shared.as_str();
        let at = past_ignored(text, 0);
        TokenCursor {
            shared,
            text,
            at,
            next: symbol_at(text, at),
            last: 0,
        }
    }

    /// The symbol of the next token.
    #[tactic(auto, using(crate::proofs::Rests::next_is))]
    pub fn peek(&self) -> Option<Terminal>
        ensures { result ≡ input.next self.now }
    {
        match self.next {
            None => None,
            Some((terminal, _)) => Some(terminal),
        }
    }

    /// The text of the next token as a part of the shared text, which is not copied. It is empty if no
    /// token is left. Memory is refused only if the text is shared as often as can be counted.
    #[tactic(auto, using(crate::proofs::Rests::skip_text, crate::proofs::Rests::skip_none, crate::proofs::Rests::symbol_token))]
    pub fn next_part(&self) -> Result<TextPart, AllocError>
        ensures { IfOk result (λ part. part_bytes part ≡ spec.text_of self.now.ahead) }
    {
        match self.next {
            None => end_part(self.shared),
            Some((_, length)) => token_part(self.shared, self.at, length),
        }
    }

    /// Passes over the next token and gives its text, which is empty if no token is left.
    #[tactic(auto, using(crate::proofs::Rests::skip_text, crate::proofs::Rests::skip_after, crate::proofs::Rests::skip_none, crate::proofs::Rests::nothing_ignored, crate::proofs::Rests::symbol_token, crate::proofs::Ends::token_fits))]
    pub fn skip(&mut self) -> &'a str
        ensures text { result.now ≡ spec.text_of self.old.ahead }
        ensures following { self.new ≡ spec.skipped self.old }
        ensures form { FormOf (input.next self.old) result.now }
    {
        let Some((_, length)) = self.next else {
            return "";
        };
        let token = token_text(self.text, self.at, length);
        let last = self.at + length;
        let at = past_ignored(self.text, last);
        // Found once for each token, as `peek` is called many times before the token is taken.
        self.next = symbol_at(self.text, at);
        self.at = at;
        self.last = last;
        token
    }

    /// Where the next token begins, or, if none is left, where the text ends or no token starts, in bytes.
    #[tactic(auto, using(crate::proofs::Rests::offset_is))]
    pub fn offset(&self) -> usize
        ensures { result ≡ spec.next_offset self.now }
    {
        self.at
    }

    /// Where the last token ends that was passed over, in bytes; 0 before the first.
    pub fn last(&self) -> usize
        ensures { result ≡ self.now.last }
    {
        self.last
    }

    /// Whether no token is left because none starts where the text goes on.
    #[tactic(auto, using(crate::proofs::Rests::stuck_is))]
    pub fn is_stuck(&self) -> bool
        ensures { result ≡ spec.is_stuck self.now }
    {
        self.next.is_none() && self.at < self.text.len()
    }
}
