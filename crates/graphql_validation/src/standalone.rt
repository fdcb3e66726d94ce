//! Every rule on a document without a schema.
ghost use Rattle.std.specs.Prelude.{OnErr, OnOk};
ghost use Rattle.rule_fragments.specs.in_typed_operations.DocumentView.{document_meant};
ghost use Rattle.rule_merging.specs.in_faults.DetailsView.{diagnostics_of, BeginsAs};
ghost use Rattle.graphql_validation.specs.ValidationFaults.{NamedAloneTold, TellsOnce, SilenceMeansValidAlone, ValidAloneMeansSilence};

use crate::alone::faults_alone;
use crate::found::fragments_differ;
use crate::told::append_all;
use document_typed_operations::ExecutableDocument;
use graphql_faults::each_once;
use rule_fragments::{deferred_breaches, passes_path_bound};
use rule_merging::DiagnosticList;
use std::alloc::{AllocError, Global};

/// Tells what breaks the rules that need no schema (sections 5.4.2, 5.5, 5.6.3, 5.7.1 and 5.8): UniqueArgument,
/// UniqueInputValue, UniqueVariable, UnusedVariable, UndefinedFragment, UnusedFragment, RecursiveFragmentDefinition, those on
/// `@defer`, and each directive that is used as UndefinedDirective; all of it, or 1,000 faults. Nothing is told exactly when they
/// hold, apart from the bounds on how deep spreads and selections nest. Fragments are under their own names, as in each
/// document that is built. If memory is refused, the old list is a prefix of the new one.
pub fn validate_standalone_executable(
    alloc: Global,
    list: &mut DiagnosticList,
    document: &ExecutableDocument,
) -> Result<(), AllocError>
    ensures told { OnOk result (NamedAloneTold (document_meant document.now) (diagnostics_of list.old) (diagnostics_of list.new)) }
    ensures once { OnOk result (TellsOnce (diagnostics_of list.old) (diagnostics_of list.new)) }
    ensures silent { OnOk result (SilenceMeansValidAlone (document_meant document.now) (diagnostics_of list.old) (diagnostics_of list.new)) }
    ensures accepts { OnOk result (ValidAloneMeansSilence (document_meant document.now) (diagnostics_of list.old) (diagnostics_of list.new)) }
    ensures begins { OnErr result (BeginsAs (diagnostics_of list.old) (diagnostics_of list.new)) }
{
    fragments_differ(document);
    let faults = faults_alone(alloc, document)?;
    let breaches = each_once(deferred_breaches(alloc, document)?)?;
    let is_passed = passes_path_bound(document);
    append_all(list, faults, breaches, is_passed)
}
