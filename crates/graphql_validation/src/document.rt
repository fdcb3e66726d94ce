//! Every rule on a document under a schema.
ghost use Rattle.std.specs.Prelude.{◌≡◌, ◌↔◌, [], false, IfOk, IsTrue, OnErr, OnOk};
ghost use Rattle.std.specs.Option.{option_copied};
ghost use Rattle.rule_fragments.specs.in_schema.SchemaOf.{schema_tree};
ghost use Rattle.rule_fragments.specs.in_typed_operations.DocumentView.{document_meant};
ghost use Rattle.rule_document_definitions.specs.Selected.{operations};
ghost use Rattle.fault_data.specs.FaultView.{faults_of};
ghost use Rattle.rule_merging.specs.in_faults.DetailsView.{diagnostics_of, BeginsAs};
ghost use Rattle.rule_fragments.specs.in_reach.Broken.{brokens_of};
ghost use Rattle.rule_definitions.specs.Judged.{judged};
ghost use Rattle.rule_merging.specs.Merged.{DocumentMergingTold};
ghost use Rattle.rule_fragments.specs.Possible.{ArePossibleIfFound};
ghost use Rattle.graphql_validation.specs.TellsDocument.{TypedDocumentTold, SilenceMeansValid, ValidMeansSilence};
ghost use Rattle.graphql_validation.specs.ValidationFaults.{TellsOnce};
ghost use Rattle.graphql_validation.specs.OperationChecks.{TellsMerging, AllMerge};

use crate::found::fragments_differ;
use crate::told::append_all;
use crate::under_schema::faults_under;
use document_typed_operations::ExecutableDocument;
use fault_data::{Fault, MOST_TOLD};
use graphql_faults::each_once;
use rule_fragments::{PossibleTypes, Schema, document_breaches, passes_path_bound};
use rule_merging::{Breach, DiagnosticList, FieldsInSetCanMerge};
use rule_selections::{IndexedSchema, SchemaInputs};
use std::alloc::{AllocError, Global};

/// Whether nothing is told.
fn is_nothing(faults: &Vec<Fault>, breaches: &Vec<Breach>, is_passed: bool) -> bool
    ensures { IsTrue result ↔ ((faults_of faults.now ≡ []) × ((brokens_of breaches.now ≡ []) × (is_passed ≡ false))) }
{
    faults.is_empty() && breaches.is_empty() && !is_passed
}

/// What does not merge in each operation, until [`MOST_TOLD`] or more are told.
fn merge_each(
    alloc: Global,
    schema: &Schema,
    document: &ExecutableDocument,
) -> Result<DiagnosticList, AllocError>
    ensures told { IfOk result (λ list. DocumentMergingTold (judged (schema_tree schema.now)) (document_meant document.now) [] (diagnostics_of list)) }
    ensures merged { IfOk result (λ list. diagnostics_of list ≡ [] → AllMerge (schema_tree schema.now) (document_meant document.now)) }
{
    let mut list = DiagnosticList::new(alloc);
    let mut merger = FieldsInSetCanMerge::new(alloc, schema, document);
    for operation in document.operations.iter() {
        merger.validate_operation(operation, &mut list)?;
        if list.len() >= MOST_TOLD {
            return Ok(list);
        }
    }
    Ok(list)
}

/// Adds the first [`MOST_TOLD`] of what does not merge in the operations, each once.
fn merge_operations(
    alloc: Global,
    list: &mut DiagnosticList,
    schema: &Schema,
    document: &ExecutableDocument,
) -> Result<(), AllocError>
    ensures told { OnOk result (TellsMerging (schema_tree schema.now) (document_meant document.now) list.old list.new) }
    ensures merged { OnOk result (diagnostics_of list.new ≡ diagnostics_of list.old → AllMerge (schema_tree schema.now) (document_meant document.now)) }
    ensures begins { OnErr result (BeginsAs (diagnostics_of list.old) (diagnostics_of list.new)) }
{
    let merged = merge_each(alloc, schema, document)?;
    let mut told = DiagnosticList::from_vec(each_once(merged.into_vec())?);
    told.truncate(MOST_TOLD);
    list.append(&mut told)
}

/// Tells what breaks the rules on a document under a schema (section 5, from 5.2.3 on, and the rules on `@defer`): all of it,
/// each once, or [`MOST_TOLD`] faults. If all other rules hold, the rule on merging is checked too (section 5.3.2). If the
/// document is typed, as each that is built, nothing is told exactly when all rules hold, apart from the bounds on how deep
/// spreads, selections and fields nest. If memory is refused, the old list is a prefix of the new one.
pub fn validate_executable_document(
    alloc: Global,
    list: &mut DiagnosticList,
    schema: &Schema,
    document: &ExecutableDocument,
) -> Result<(), AllocError>
    ensures told { OnOk result (TypedDocumentTold (schema_tree schema.now) (document_meant document.now) (diagnostics_of list.old) (diagnostics_of list.new)) }
    ensures once { OnOk result (TellsOnce (diagnostics_of list.old) (diagnostics_of list.new)) }
    ensures silent { OnOk result (SilenceMeansValid (schema_tree schema.now) (document_meant document.now) (diagnostics_of list.old) (diagnostics_of list.new)) }
    ensures accepts { OnOk result (ValidMeansSilence (schema_tree schema.now) (document_meant document.now) (diagnostics_of list.old) (diagnostics_of list.new)) }
    ensures begins { OnErr result (BeginsAs (diagnostics_of list.old) (diagnostics_of list.new)) }
{
    let inputs = SchemaInputs::new(alloc, &schema.types, &schema.directive_definitions)?;
    let schema = IndexedSchema::new(schema, &inputs);
    validate_with_possible_types(alloc, list, &schema, None, document)
}

/// What [`validate_executable_document`] tells, if what the schema defines of many input values is found already, and the
/// possible types of the schema may be: then they are not found again.
pub fn validate_with_possible_types(
    alloc: Global,
    list: &mut DiagnosticList,
    schema: &IndexedSchema<'_>,
    possible: Option<&PossibleTypes>,
    document: &ExecutableDocument,
) -> Result<(), AllocError>
    requires { ArePossibleIfFound (judged (schema_tree schema.now)) (option_copied possible) }
    ensures told { OnOk result (TypedDocumentTold (schema_tree schema.now) (document_meant document.now) (diagnostics_of list.old) (diagnostics_of list.new)) }
    ensures once { OnOk result (TellsOnce (diagnostics_of list.old) (diagnostics_of list.new)) }
    ensures silent { OnOk result (SilenceMeansValid (schema_tree schema.now) (document_meant document.now) (diagnostics_of list.old) (diagnostics_of list.new)) }
    ensures accepts { OnOk result (ValidMeansSilence (schema_tree schema.now) (document_meant document.now) (diagnostics_of list.old) (diagnostics_of list.new)) }
    ensures begins { OnErr result (BeginsAs (diagnostics_of list.old) (diagnostics_of list.new)) }
{
    // For its contract only: no two fragments have one name, which the rules take for granted.
    fragments_differ(document);
    let faults = faults_under(alloc, schema, possible, document)?;
    let breaches = each_once(document_breaches(alloc, document)?)?;
    let is_passed = passes_path_bound(document);
    if is_nothing(&faults, &breaches, is_passed) {
        return merge_operations(alloc, list, schema.schema(), document);
    }
    append_all(list, faults, breaches, is_passed)
}
