//! Why reading stops.
ghost use Rattle.std.specs.Prelude.{◌≡◌};
ghost use Rattle.read_grammar.specs.declared.parse_error.ParseError.TheVariants.{Memory};

use std::alloc::{AllocError, AllocFailed};

/// Why reading stops. The input then begins with the token at which it stops.
#[derive(Clone, Copy, PartialEq, Eq, Debug)]
pub enum ParseError {
    /// Memory ran out.
    Memory,
    /// The next token can't follow, or tokens are missing at the end.
    Unexpected,
    /// The next token opens one bracket too many.
    Nesting,
}

impl From<AllocError> for ParseError {
    ghost from_gives = { λ _ e. e ≡ Memory };

    fn from(_: AllocError) -> ParseError {
        ParseError::Memory
    }
}

impl<T: Drop> From<AllocFailed<T>> for ParseError {
    ghost from_gives = { λ _ e. e ≡ Memory };

    fn from(_: AllocFailed<T>) -> ParseError {
        ParseError::Memory
    }
}
