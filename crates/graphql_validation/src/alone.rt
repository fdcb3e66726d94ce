//! What is judged without a schema, operation by operation.
ghost use Rattle.std.specs.Prelude.{IfOk, OnOk};
ghost use Rattle.rule_fragments.specs.in_typed_operations.DocumentView.{document_meant, operation_meant};
ghost use Rattle.fault_data.specs.Adds.{Adds};
ghost use Rattle.fault_data.specs.FaultView.{faults_of};
ghost use Rattle.graphql_faults.specs.Once.{EachOnce};
ghost use Rattle.graphql_validation.specs.OperationChecks.{FindsAlone, NotesReached, FindsAllAlone, NotesAllReached, TellsAlone};

use crate::found::{Found, check_fragments, note_fragments};
use document_typed_operations::{ExecutableDocument, Operation};
use fault_data::{Fault, is_full};
use graphql_faults::each_once;
use graphql_names::Node;
use rule_fragments::{check_spreads, reach};
use rule_selections::check_selections_alone;
use rule_variables::check_variables_alone;
use std::alloc::{AllocError, Global};

/// Adds the faults of an operation without a schema, and notes the fragments that it reaches.
fn check_operation(
    document: &ExecutableDocument,
    operation: &Node<Operation>,
    found: &mut Found,
) -> Result<(), AllocError>
    ensures told { OnOk result (FindsAlone (document_meant document.now) (operation_meant operation.now) found.old found.new) }
    ensures noted { OnOk result (NotesReached (document_meant document.now) (operation_meant operation.now) found.old found.new) }
{
    let alloc = *found.faults.allocator();
    let fragments = &document.fragments;
    let reach = reach(alloc, &operation.content().selection_set, fragments)?;
    check_variables_alone(operation, &reach, &mut found.faults)?;
    check_spreads(fragments, &reach, &mut found.faults)?;
    check_selections_alone(operation, &reach, &mut found.faults)?;
    note_fragments(&reach, &mut found.used)
}

/// The faults of each operation without a schema, and the fragments that operations reach, until the list is full. A fault that
/// operations share is found once.
fn check_operations(alloc: Global, document: &ExecutableDocument) -> Result<Found, AllocError>
    ensures told { IfOk result (λ found. FindsAllAlone (document_meant document.now) found) }
    ensures noted { IfOk result (λ found. NotesAllReached (document_meant document.now) found) }
{
    let mut found = Found::new(alloc);
    for operation in document.operations.iter() {
        if is_full(&found.faults) {
            return Ok(found);
        }
        let before = found.take_faults();
        check_operation(document, operation, &mut found)?;
        found.join(before)?;
    }
    Ok(found)
}

/// The faults of a document without a schema, each once: all, or 1,000.
pub(crate) fn faults_alone(
    alloc: Global,
    document: &ExecutableDocument,
) -> Result<Vec<Fault>, AllocError>
    ensures told { IfOk result (λ r. TellsAlone (document_meant document.now) (faults_of r)) }
    ensures once { IfOk result (λ r. EachOnce (faults_of r)) }
{
    let found = check_operations(alloc, document)?;
    each_once(check_fragments(document, found)?)
}
