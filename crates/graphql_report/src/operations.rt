//! The operation that a fault is in, if its data name it.

ghost use Rattle.std.specs.Prelude.{◌≡◌, OnOk, option_map};
ghost use Rattle.graphql_faults.specs.DetailsView.{details_of};
ghost use Rattle.graphql_report.specs.ToldPlaces.{operation_of, AddsOperation};

use fault_document_errors::BuildError;
use graphql_faults::Details;
use graphql_names::Name;
use report_forms::{Related, Source, path_at, place_at};
use std::alloc::{AllocError, Global};

/// Adds the operation that the data of the fault name, at its name, if they name one. `path` is the name of the text if that
/// has no place.
#[tactic(auto, using(crate::proofs::InOperations::adds_none, crate::proofs::InOperations::adds_one))]
pub(crate) fn push_operation(
    alloc: Global,
    all: &mut Vec<Related>,
    sources: &[Source<'_>],
    path: &str,
    details: &Details,
) -> Result<(), AllocError>
    ensures { OnOk result (AddsOperation (details_of details.now) all.old.items all.new.items) }
{
    let Some(name) = operation_of(details) else {
        return Ok(());
    };
    let place = name.location();
    let path = path_at(sources, path, place);
    let path = String::from_str(alloc, path)?;
    let start = match place_at(sources, place) {
        None => None,
        Some(place) => Some(place.start),
    };
    let name = name.as_str();
    let words = format!(in alloc; "in operation `{name}`")?;
    all.push(Related { path, start, words })?;
    Ok(())
}

/// The name of the operation, if the data have it.
fn operation_of(details: &Details) -> Option<&Name>
    ensures { option_map (λ name. name.now.text) result ≡ operation_of (details_of details.now) }
{
    match details {
        Details::DocumentBuild(
            BuildError::SubscriptionUsesMultipleFields { name }
            | BuildError::SubscriptionUsesIntrospection { name, .. }
            | BuildError::SubscriptionUsesConditionalSelection { name },
        ) => name.as_ref(),
        _ => None,
    }
}
