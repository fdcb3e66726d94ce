//! Why a builder of documents refuses.
use std::alloc::AllocError;
use thiserror::Error;

/// Why a builder of documents refuses.
#[derive(Clone, Copy, Debug, PartialEq, Eq, Error)]
pub enum BuilderRefusal {
    /// Memory ran out.
    #[error("out of memory")]
    Memory,
    /// Memory ran out at an earlier call.
    #[error("out of memory at an earlier call")]
    Failed,
}

impl From<AllocError> for BuilderRefusal {
    ghost use Rattle.std.specs.Prelude.{◌≡◌};
    ghost use Rattle.document_typing.specs.declared.refusal.BuilderRefusal.TheVariants.{Memory};

    ghost from_gives = { λ _ e. e ≡ Memory };

    fn from(_refused: AllocError) -> BuilderRefusal {
        BuilderRefusal::Memory
    }
}
