//! What a builder of a document finds, as a list of faults.

ghost use Rattle.std.specs.Prelude.{◌≡◌, map, IfOk};
ghost use Rattle.book_validity.specs.in_typing.FaultView.{faults_of};
ghost use Rattle.graphql_faults.specs.DetailsTree.{of_typing};
ghost use Rattle.graphql_faults.specs.DetailsView.{diagnostics_of};

use fault_document_errors::BuildError;
use graphql_faults::DiagnosticList;
use graphql_names::SourceSpan;
use std::alloc::{AllocError, Global};

/// What breaks rules of typing, in order.
pub(crate) fn document_errors(
    alloc: Global,
    errors: Vec<(Option<SourceSpan>, BuildError)>,
) -> Result<DiagnosticList, AllocError>
    ensures { IfOk result (λ list. diagnostics_of list ≡ map of_typing (faults_of errors)) }
{
    let mut list = DiagnosticList::new(alloc);
    list.append_document_errors(errors)?;
    Ok(list)
}
