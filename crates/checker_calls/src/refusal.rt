//! Why texts are not accepted.

ghost use Rattle.verdict_definitions.specs.in_faults.DetailsView.{details_at};
ghost use Rattle.checker_calls.specs.TellsOnly.{TellsOnly};

use graphql_names::SourceSpan;
use std::alloc::{AllocError, Global};
use std::fmt;
use thiserror::Error;
use verdict_definitions::{Details, DiagnosticList};

/// Why texts are not accepted.
#[derive(Drop, Error)]
pub enum Refusal {
    /// What is wrong with them; the list is never empty.
    #[error("the texts are refused")]
    Faults(DiagnosticList),
    /// Memory ran out.
    #[error("out of memory")]
    Memory,
    /// Memory ran out at an earlier call.
    #[error("memory ran out at an earlier call")]
    Failed,
}

/// The text of `Display`. What is in a list is not shown.
impl fmt::Debug for Refusal {
    fn fmt<W: fmt::Write>(&self, f: &mut fmt::Formatter<W>) -> fmt::Result {
        fmt::Display::fmt(self, f)
    }
}

impl From<AllocError> for Refusal {
    ghost use Rattle.std.specs.Prelude.{◌≡◌};
    ghost use Rattle.checker_calls.specs.declared.refusal.Refusal.TheVariants.{Memory};

    ghost from_gives = { λ _ e. e ≡ Memory };

    fn from(_refused: AllocError) -> Refusal {
        Refusal::Memory
    }
}

/// The refusal that tells this alone.
pub fn only(alloc: Global, place: Option<SourceSpan>, details: Details) -> Refusal
    ensures { TellsOnly (details_at (place, details)) result }
{
    let mut list = DiagnosticList::new(alloc);
    match list.push(place, details) {
        Ok(()) => Refusal::Faults(list),
        Err(_) => Refusal::Memory,
    }
}
