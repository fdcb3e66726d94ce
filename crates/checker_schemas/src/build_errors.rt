//! What a builder of a schema finds, as a list of faults.

ghost use Rattle.std.specs.Prelude.{◌≡◌, map, IfOk};
ghost use Rattle.schema_fold.specs.FaultView.{faults_of};
ghost use Rattle.graphql_rules.specs.in_faults.DetailsTree.{of_folding};
ghost use Rattle.graphql_rules.specs.in_faults.DetailsView.{diagnostics_of};

use graphql_names::SourceSpan;
use graphql_rules::DiagnosticList;
use schema_fold::BuildError;
use std::alloc::{AllocError, Global};

/// What breaks rules of folding, in order.
pub(crate) fn schema_errors(
    alloc: Global,
    errors: Vec<(Option<SourceSpan>, BuildError)>,
) -> Result<DiagnosticList, AllocError>
    ensures { IfOk result (λ list. diagnostics_of list ≡ map of_folding (faults_of errors)) }
{
    let mut list = DiagnosticList::new(alloc);
    list.append_schema_errors(errors)?;
    Ok(list)
}
