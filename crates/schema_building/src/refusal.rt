//! Why a schema builder refuses.

use graphql_names::Spent;
use std::alloc::AllocError;
use thiserror::Error;

/// Why a schema builder refuses.
#[derive(Clone, Copy, Debug, PartialEq, Eq, Error)]
pub enum BuilderRefusal {
    /// Memory ran out.
    #[error("out of memory")]
    Memory,
    /// There are no numbers for the extensions.
    #[error("no number is left for an extension")]
    Spent,
    /// Memory or numbers ran out at an earlier call.
    #[error("out of memory or numbers at an earlier call")]
    Failed,
}

impl From<AllocError> for BuilderRefusal {
    ghost use Rattle.std.specs.Prelude.{◌≡◌};
    ghost use Rattle.schema_building.specs.declared.refusal.BuilderRefusal.TheVariants.{Memory};

    ghost from_gives = { λ _ e. e ≡ Memory };

    fn from(_refused: AllocError) -> BuilderRefusal {
        BuilderRefusal::Memory
    }
}

impl From<Spent> for BuilderRefusal {
    ghost use Rattle.std.specs.Prelude.{◌≡◌};
    ghost use Rattle.schema_building.specs.declared.refusal.BuilderRefusal.TheVariants.{Spent};

    ghost from_gives = { λ _ e. e ≡ Spent };

    fn from(_spent: Spent) -> BuilderRefusal {
        BuilderRefusal::Spent
    }
}
