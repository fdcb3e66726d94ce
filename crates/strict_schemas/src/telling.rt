//! A departure of what has a name.
ghost use Rattle.std.specs.Prelude.{OnOk};
ghost use Rattle.strict_documents.specs.Departing.{departure_if};
ghost use Rattle.strict_documents.specs.DepartureViews.{Tells};

use graphql_names::{Name, SourceSpan};
use std::alloc::AllocError;
use strict_documents::{Departure, DepartureKind, tell};

/// Adds that departure, where `is_told`.
pub(crate) fn tell_if(
    is_told: bool,
    location: Option<SourceSpan>,
    kind: DepartureKind,
    name: &Name,
    departures: &mut Vec<Departure>,
) -> Result<(), AllocError>
    ensures { OnOk result (Tells departures.old departures.new (departure_if is_told location kind name.now.text)) }
{
    if !is_told {
        return Ok(());
    }
    let name = Some(name.clone()?);
    tell(
        departures,
        Some(Departure {
            location,
            kind,
            name,
        }),
    )
}
