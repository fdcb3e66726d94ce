//! An entry of a fault.

ghost use Rattle.std.specs.Prelude.{IfOk};
ghost use Rattle.graphql_faults.specs.DetailsView.{details_of, details_at};
ghost use Rattle.graphql_report.specs.Reports.{Tells, HasPlaces};

use crate::fields::fields_of;
use crate::found::push_found;
use crate::hints::{Hints, hint_of};
use crate::operations::push_operation;
use crate::told_places::places_of;
use graphql_faults::Details;
use graphql_names::SourceSpan;
use graphql_schema::Schema;
use report_forms::{Entry, Related, Source, related};
use std::alloc::{AllocError, Global};

/// The entry of a fault and its place. `path` is the name of the text if it has no place.
pub(crate) fn entry_of(
    alloc: Global,
    hints: &mut Hints<'_>,
    sources: &[Source<'_>],
    schema: Option<&Schema>,
    path: &str,
    fault: &(Option<SourceSpan>, Details),
) -> Result<Entry, AllocError>
    ensures { IfOk result (Tells sources.now path.now (details_at fault.now)) }
{
    let (place, details) = fault;
    let mut entry = Entry::at(alloc, sources, path, *place)?;
    entry.rule = details.name();
    entry.message = details.to_string(alloc)?;
    entry.related = related_of(alloc, hints, sources, path, *place, details)?;
    entry.hint = hint_of(alloc, hints, sources, schema, *place, details)?;
    entry.fields = fields_of(alloc, details)?;
    Ok(entry)
}

/// The places that belong to the fault, apart from its own: those that its data have, one that is found in the texts, and the
/// operation that its data name.
#[tactic(auto, using(crate::proofs::Finding::with_found))]
fn related_of(
    alloc: Global,
    hints: &mut Hints<'_>,
    sources: &[Source<'_>],
    path: &str,
    own: Option<SourceSpan>,
    details: &Details,
) -> Result<Vec<Related>, AllocError>
    ensures { IfOk result (λ related. HasPlaces sources.now own (details_of details.now) related.items) }
{
    let mut noted = places_of(alloc, details)?;
    push_found(alloc, &mut noted, hints, sources, own, details)?;
    let mut related = related(alloc, sources, own, &noted)?;
    push_operation(alloc, &mut related, sources, path, details)?;
    Ok(related)
}
