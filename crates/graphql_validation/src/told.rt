//! Adding what is told to a list.
ghost use Rattle.std.specs.Prelude.{◌≡◌, ◌++◌, map, take, OnErr, OnOk};
ghost use Rattle.fault_data.specs.FaultView.{faults_of};
ghost use Rattle.rule_definitions.specs.Room.{most_told};
ghost use Rattle.rule_merging.specs.in_faults.DetailsTree.{of_document};
ghost use Rattle.rule_merging.specs.in_faults.DetailsView.{diagnostics_of, BeginsAs};
ghost use Rattle.rule_fragments.specs.in_reach.Broken.{brokens_of};
ghost use Rattle.graphql_validation.specs.Operations.{bound_told, all_told};
ghost use Rattle.graphql_validation.specs.OperationChecks.{AddsDetails};

use fault_data::{Fault, MOST_TOLD};
use rule_merging::{Breach, Details, DiagnosticList, append_breaches};
use std::alloc::AllocError;

/// Adds that selections are nested too deeply, if they are.
fn append_bound(list: &mut DiagnosticList, is_passed: bool) -> Result<(), AllocError>
    ensures added { OnOk result (diagnostics_of list.new ≡ diagnostics_of list.old ++ map of_document (bound_told is_passed)) }
    ensures kept { OnErr result (diagnostics_of list.new ≡ diagnostics_of list.old) }
{
    if is_passed {
        list.push(None, Details::RecursionLimitError)?;
    }
    Ok(())
}

/// Appends what is told of a document: faults, then breaches, then the bound. If memory is refused, the old list stays
/// first.
pub(crate) fn append_told(
    list: &mut DiagnosticList,
    faults: Vec<Fault>,
    breaches: Vec<Breach>,
    is_passed: bool,
) -> Result<(), AllocError>
    ensures added { OnOk result (AddsDetails list.old list.new (all_told (faults_of faults) (brokens_of breaches) is_passed)) }
    ensures begins { OnErr result (BeginsAs (diagnostics_of list.old) (diagnostics_of list.new)) }
{
    list.append_faults(faults)?;
    append_breaches(list, breaches)?;
    append_bound(list, is_passed)
}

/// Keeps the first [`MOST_TOLD`] of what is told of a document: faults, then breaches, then the bound. Returns whether the
/// bound is told.
pub(crate) fn keep_first(
    faults: &mut Vec<Fault>,
    breaches: &mut Vec<Breach>,
    is_passed: bool,
) -> bool
    ensures { all_told (faults_of faults.new) (brokens_of breaches.new) result ≡ take most_told (all_told (faults_of faults.old) (brokens_of breaches.old) is_passed) }
{
    faults.truncate(MOST_TOLD);
    let room = MOST_TOLD - faults.len();
    breaches.truncate(room);
    is_passed && breaches.len() < room
}

/// Appends the first [`MOST_TOLD`] of what is told of a document. If memory is refused, the old list is a prefix of the new one.
pub(crate) fn append_all(
    list: &mut DiagnosticList,
    mut faults: Vec<Fault>,
    mut breaches: Vec<Breach>,
    is_passed: bool,
) -> Result<(), AllocError>
    ensures added { OnOk result (AddsDetails list.old list.new (take most_told (all_told (faults_of faults) (brokens_of breaches) is_passed))) }
    ensures begins { OnErr result (BeginsAs (diagnostics_of list.old) (diagnostics_of list.new)) }
{
    let is_told = keep_first(&mut faults, &mut breaches, is_passed);
    append_told(list, faults, breaches, is_told)
}
