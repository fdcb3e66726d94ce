//! Why a text is not read.

use std::alloc::AllocError;
use thiserror::Error;

/// What is wrong with the tokens of a text.
#[derive(Clone, Copy, PartialEq, Eq, Debug, Error)]
pub enum SyntaxFaultKind {
    /// The text goes on at the place, but no token starts there.
    #[error("no token starts here")]
    NoToken,
    /// The token at the place cannot follow those before it.
    #[error("unexpected token")]
    Unexpected,
    /// The text ends at the place, but more has to follow.
    #[error("unexpected end of text")]
    End,
}

/// What is wrong with a text, and where, in bytes.
#[derive(Clone, Copy, PartialEq, Eq, Debug, Error)]
#[error("{kind} at {offset}")]
pub struct SyntaxFault {
    pub kind: SyntaxFaultKind,
    pub offset: usize,
}

/// Why a text is not read.
#[derive(Clone, Copy, PartialEq, Eq, Debug, Error)]
pub enum ReadFault {
    /// The text does not match the grammar (appendix B).
    #[error(transparent)]
    Syntax(SyntaxFault),
    /// The bracket that opens at this offset is one too many open at once.
    #[error("too many open brackets at {offset}")]
    Nesting { offset: usize },
    /// Memory ran out.
    #[error("out of memory")]
    Memory,
}

impl From<AllocError> for ReadFault {
    ghost use Rattle.std.specs.Prelude.{◌≡◌};
    ghost use Rattle.graphql_read.specs.declared.fault.ReadFault.TheVariants.{Memory};

    ghost from_gives = { λ _ e. e ≡ Memory };

    fn from(_: AllocError) -> ReadFault {
        ReadFault::Memory
    }
}
