//! Every rule on a field set.
ghost use Rattle.std.specs.Prelude.{◌≡◌, None, IfOk, OnErr, OnOk};
ghost use Rattle.graphql_names.specs.Placed.{Place};
ghost use Rattle.rule_fragments.specs.in_schema.SchemaOf.{schema_tree};
ghost use Rattle.rule_document_definitions.specs.FieldSets.{document_of_set};
ghost use Rattle.rule_merging.specs.in_faults.DetailsView.{diagnostics_of, BeginsAs};
ghost use Rattle.document_typed_operations.specs.TypedDocument.{typed_operation_tree};
ghost use Rattle.document_typed_selections.specs.TypedTree.{typed_set_tree};
ghost use Rattle.rule_fragments.specs.in_typed_operations.DocumentView.{document_meant};
ghost use Rattle.graphql_validation.specs.Operations.{query_on};
ghost use Rattle.graphql_validation.specs.ValidationFaults.{set_meant, TellsOnce, TypedFieldSetTold, SilenceMeansValidSet, ValidSetMeansSilence};

use crate::told::append_all;
use crate::under_schema::faults_under;
use document_typed_operations::{ExecutableDocument, FieldSet, Operation, OperationMap};
use graphql_names::Node;
use indexmap::IndexMap;
use rule_fragments::{Schema, passes_path_bound};
use rule_merging::DiagnosticList;
use rule_selections::{IndexedSchema, SchemaInputs};
use std::alloc::{AllocError, Global};
use tree_directives::{DirectiveList, OperationType};

/// A query that selects what the set does. It shares the contents of the set.
fn query_on(alloc: Global, set: &FieldSet) -> Result<Operation, AllocError>
    ensures { IfOk result (λ o. typed_operation_tree o ≡ query_on (typed_set_tree set.now.selection_set)) }
{
    let selection_set = set.selection_set.clone()?;
    Ok(Operation {
        operation_type: OperationType::Query,
        name: None,
        variables: Vec::new(alloc),
        directives: DirectiveList(Vec::new(alloc)),
        selection_set,
    })
}

/// The document whose only operation selects what the set does.
fn document_of_set(alloc: Global, set: &FieldSet) -> Result<ExecutableDocument, AllocError>
    ensures { IfOk result (λ d. document_meant d ≡ document_of_set {P = Place} None (set_meant set.now)) }
{
    let operation = Node::new(alloc, query_on(alloc, set)?)?;
    Ok(ExecutableDocument {
        sources: IndexMap::new(alloc),
        operations: OperationMap::from_one(alloc, operation)?,
        fragments: IndexMap::new(alloc),
    })
}

/// Tells what breaks the rules on a field set under a schema (sections 5.3 to 5.8): those on a document whose only operation
/// selects it, without variables and fragments, except the rules on merging, on subscriptions and on `@defer`; all of it, or
/// 1,000 faults. If the set is typed, as each that is made from selections, nothing is told exactly when those rules hold, apart
/// from the bound on how deep selections nest. If memory is refused, the old list is a prefix of the new one.
pub fn validate_field_set(
    alloc: Global,
    list: &mut DiagnosticList,
    schema: &Schema,
    field_set: &FieldSet,
) -> Result<(), AllocError>
    ensures told { OnOk result (TypedFieldSetTold (schema_tree schema.now) (set_meant field_set.now) (diagnostics_of list.old) (diagnostics_of list.new)) }
    ensures once { OnOk result (TellsOnce (diagnostics_of list.old) (diagnostics_of list.new)) }
    ensures silent { OnOk result (SilenceMeansValidSet (schema_tree schema.now) (set_meant field_set.now) (diagnostics_of list.old) (diagnostics_of list.new)) }
    ensures accepts { OnOk result (ValidSetMeansSilence (schema_tree schema.now) (set_meant field_set.now) (diagnostics_of list.old) (diagnostics_of list.new)) }
    ensures begins { OnErr result (BeginsAs (diagnostics_of list.old) (diagnostics_of list.new)) }
{
    // As a document of one query, so that no rule is written a second time for sets.
    let document = document_of_set(alloc, field_set)?;
    let inputs = SchemaInputs::new(alloc, &schema.types, &schema.directive_definitions)?;
    let schema = IndexedSchema::new(schema, &inputs);
    let faults = faults_under(alloc, &schema, None, &document)?;
    let is_passed = passes_path_bound(&document);
    append_all(list, faults, Vec::new(alloc), is_passed)
}
