//! What is judged under a schema, operation by operation.
ghost use Rattle.std.specs.Prelude.{IfOk, OnOk};
ghost use Rattle.std.specs.Option.{option_copied};
ghost use Rattle.fault_data.specs.Adds.{Adds};
ghost use Rattle.fault_data.specs.FaultView.{faults_of};
ghost use Rattle.graphql_faults.specs.Once.{EachOnce};
ghost use Rattle.rule_definitions.specs.Judged.{judged};
ghost use Rattle.rule_fragments.specs.in_schema.SchemaOf.{schema_tree};
ghost use Rattle.rule_fragments.specs.in_typed_operations.DocumentView.{document_meant, operation_meant};
ghost use Rattle.rule_fragments.specs.Possible.{ArePossibleIfFound};
ghost use Rattle.graphql_validation.specs.OperationChecks.{FindsUnder, NotesUnder, StayPossible, FindsAllUnder, NotesAllUnder, TellsUnder};

use crate::found::{Found, check_fragments, note_fragments};
use document_typed_operations::{ExecutableDocument, FragmentMap, Operation};
use fault_data::{Fault, is_full};
use graphql_faults::each_once;
use graphql_names::Node;
use rule_fragments::{
    PossibleTypes, applying_conditions, check_applications, check_spreads, for_document, reach,
};
use rule_selections::{IndexedSchema, check_selections, settled_fragments};
use rule_variables::{check_variables, check_variables_alone};
use std::alloc::{AllocError, Global};

/// Adds the faults of an operation under a schema, and notes the fragments that it reaches, where `fragments` replace those of
/// its document. The possible types of the schema are found when they are first needed.
fn check_operation(
    schema: &IndexedSchema<'_>,
    possible: &mut Option<PossibleTypes>,
    fragments: &FragmentMap,
    operation: &Node<Operation>,
    found: &mut Found,
) -> Result<(), AllocError>
    ensures told { OnOk result (FindsUnder (schema_tree schema.now) fragments.now (operation_meant operation.now) possible.old found.old found.new) }
    ensures noted { OnOk result (NotesUnder (schema_tree schema.now) fragments.now (operation_meant operation.now) found.old found.new) }
    ensures right { OnOk result (StayPossible (schema_tree schema.now) possible.old possible.new) }
{
    // From the list of faults: as a parameter it would be the sixth.
    let alloc = *found.faults.allocator();
    let reach = reach(alloc, &operation.content().selection_set, fragments)?;
    check_variables_alone(operation, &reach, &mut found.faults)?;
    check_variables(schema, operation, &mut found.faults)?;
    check_selections(schema, operation, &reach, &mut found.faults)?;
    check_spreads(fragments, &reach, &mut found.faults)?;
    check_applications(
        schema.schema(),
        possible,
        fragments,
        &reach,
        &mut found.faults,
    )?;
    note_fragments(&reach, &mut found.used)
}

/// The faults of each operation under a schema, and the fragments that operations reach, until the list is full; `fragments`
/// replace those of the document. A fault that operations share is found once.
fn check_operations(
    alloc: Global,
    schema: &IndexedSchema<'_>,
    possible: &mut Option<PossibleTypes>,
    document: &ExecutableDocument,
    fragments: &FragmentMap,
) -> Result<Found, AllocError>
    ensures told { IfOk result (λ found. FindsAllUnder (schema_tree schema.now) (document_meant document.now) fragments.now possible.old found) }
    ensures noted { IfOk result (λ found. NotesAllUnder (schema_tree schema.now) (document_meant document.now) fragments.now found) }
    ensures right { IfOk result (λ found. StayPossible (schema_tree schema.now) possible.old possible.new) }
{
    let mut found = Found::new(alloc);
    for operation in document.operations.iter() {
        if is_full(&found.faults) {
            return Ok(found);
        }
        let before = found.take_faults();
        check_operation(schema, possible, fragments, operation, &mut found)?;
        found.join(before)?;
    }
    Ok(found)
}

/// The faults of a document under a schema, each once: all, or 1,000. What several operations share is judged once, if it
/// breaks no rule under the variables that all of them define alike. `possible` has the possible types of the schema, if
/// they are found already. If not, they are found once, when a fragment that several operations may share, or that an
/// operation reaches, is on another type than the set that applies it; if there is none, never.
pub(crate) fn faults_under(
    alloc: Global,
    schema: &IndexedSchema<'_>,
    possible: Option<&PossibleTypes>,
    document: &ExecutableDocument,
) -> Result<Vec<Fault>, AllocError>
    requires { ArePossibleIfFound (judged (schema_tree schema.now)) (option_copied possible) }
    ensures told { IfOk result (λ r. TellsUnder (schema_tree schema.now) (document_meant document.now) (faults_of r)) }
    ensures once { IfOk result (λ r. EachOnce (faults_of r)) }
{
    let mut possible = for_document(alloc, possible)?;
    let applying = applying_conditions(alloc, schema.schema(), &mut possible, document)?;
    let settled = settled_fragments(alloc, schema, &applying, document)?;
    let fragments = settled.as_ref().unwrap_or(&document.fragments);
    let found = check_operations(alloc, schema, &mut possible, document, fragments)?;
    each_once(check_fragments(document, found)?)
}
