//! Adding breaches to a list of faults.
ghost use Rattle.std.specs.Prelude.{◌≡◌, ◌++◌, map, OnErr, OnOk};
ghost use Rattle.rule_field_groups.specs.in_document_definitions.DocumentFaults.{OfDocument};
ghost use Rattle.graphql_faults.specs.DetailsTree.{of_document};
ghost use Rattle.graphql_faults.specs.DetailsView.{diagnostics_of, BeginsAs};
ghost use Rattle.rule_field_groups.specs.in_sets.in_reach.Broken.{brokens_of};

use graphql_faults::{Details, DiagnosticList};
use rule_field_groups::Breach;
use std::alloc::AllocError;

/// Appends the breaches, in order. If memory is refused, the old list is a prefix of the new one.
pub fn append_breaches(list: &mut DiagnosticList, breaches: Vec<Breach>) -> Result<(), AllocError>
    ensures added { OnOk result (diagnostics_of list.new ≡ diagnostics_of list.old ++ map (λ b. of_document (OfDocument b)) (brokens_of breaches)) }
    ensures begins { OnErr result (BeginsAs (diagnostics_of list.old) (diagnostics_of list.new)) }
{
    for (place, breach) in breaches {
        list.push(place, Details::DocumentBuild(breach))?;
    }
    Ok(())
}
