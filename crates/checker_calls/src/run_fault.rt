//! How a run ends.

use std::alloc::{AllocError, AllocFailed};
use thiserror::Error;

/// What a run found.
#[derive(Clone, Copy, Debug, PartialEq, Eq)]
pub enum Outcome {
    /// The pair is accepted.
    Accepted,
    /// Some text is refused.
    Refused,
}

/// Why a run has no outcome. Texts are counted from 1, the schema texts before the document.
#[derive(Clone, Copy, Debug, PartialEq, Eq, Error)]
pub enum RunFault {
    /// Memory ran out.
    #[error("out of memory")]
    Memory,
    /// The reader of this text has failed.
    #[error("file {0} cannot be read")]
    Reader(usize),
    /// This text is not UTF-8.
    #[error("file {0} is not UTF-8")]
    NotUtf8(usize),
    /// The writer has failed or took nothing; it has taken so many bytes.
    #[error("output failed")]
    Writer(usize),
}

impl From<AllocError> for RunFault {
    ghost use Rattle.std.specs.Prelude.{◌≡◌};
    ghost use Rattle.checker_calls.specs.declared.run_fault.RunFault.TheVariants.{Memory};

    ghost from_gives = { λ _ e. e ≡ Memory };

    fn from(_refused: AllocError) -> RunFault {
        RunFault::Memory
    }
}

impl<T: Drop> From<AllocFailed<T>> for RunFault {
    ghost use Rattle.std.specs.Prelude.{◌≡◌};
    ghost use Rattle.checker_calls.specs.declared.run_fault.RunFault.TheVariants.{Memory};

    ghost from_gives = { λ _ e. e ≡ Memory };

    fn from(_refused: AllocFailed<T>) -> RunFault {
        RunFault::Memory
    }
}
