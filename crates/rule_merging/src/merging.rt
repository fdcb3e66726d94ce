//! Whether the fields of operations merge.
ghost use Rattle.std.specs.Prelude.{◌≡◌, ◌↔◌, ◌++◌, [], false, map, IsTrue, OnOk, OnErr};
ghost use Rattle.graphql_faults.specs.DetailsTree.{of_document};
ghost use Rattle.graphql_faults.specs.DetailsView.{diagnostics_of, BeginsAs};
ghost use Rattle.rule_field_groups.specs.in_sets.in_reach.Broken.{brokens_of};
ghost use Rattle.rule_field_groups.specs.in_definitions.Judged.{judged};
ghost use Rattle.rule_field_groups.specs.in_sets.in_schema.SchemaOf.{schema_tree};
ghost use Rattle.rule_field_groups.specs.in_sets.in_reach.in_typed_operations.DocumentView.{document_meant, operation_meant};
ghost use Rattle.rule_merging.specs.Merged.{AreSettledIf, limit_told, conflicts_told};
ghost use Rattle.rule_merging.specs.OfProgram.{AddsDetails};

use crate::operation::{Examined, examine_operation};
use crate::told::append_breaches;
use document_typed_operations::{ExecutableDocument, Operation};
use graphql_faults::{Details, DiagnosticList};
use graphql_names::Node;
use rule_field_groups::{Breach, Schema};
use std::alloc::{AllocError, Global};

/// Whether the fields of operations merge (section 5.3.2, "FieldsInSetCanMerge"). What was examined is kept over all
/// operations of a document, so that no list of fields is examined twice. If no two fields of an operation have one response
/// key, in any of its sets, nothing of it is examined, and nothing is kept.
///
/// A value is clean at first, and after each call on a clean one that ends and adds nothing.
pub struct FieldsInSetCanMerge<'doc> {
    alloc: Global,
    schema: &'doc Schema,
    document: &'doc ExecutableDocument,
    examined: Examined<'doc>,
    is_clean: bool,
    ghost settled: { ∥ AreSettledIf (judged (schema_tree schema.now)) (document_meant document.now) is_clean examined ∥₁ },
}

impl Drop for FieldsInSetCanMerge<'_> {
    fn drop(self) {
        let FieldsInSetCanMerge {
            alloc: _,
            schema: _,
            document: _,
            examined: _,
            is_clean: _,
        } = self;
    }
}

impl<'doc> FieldsInSetCanMerge<'doc> {
    ghost use Rattle.rule_merging.specs.Merger.{merger_of, IsReady, IsCountedMerger, ComparesFew, ComparesFewInDocument, LooksAtFewPairs, OnlyGrows, MergerTold, SilenceMeansMerging, KeepsClosed, AddsNothing, StaysCleanInSilence, StaysCounted};

    /// A clean value, for the operations of the document.
    pub fn new(
        alloc: Global,
        schema: &'doc Schema,
        document: &'doc ExecutableDocument,
    ) -> FieldsInSetCanMerge<'doc>
        ensures schema { (merger_of result).schema ≡ judged (schema_tree schema.now) }
        ensures document { (merger_of result).document ≡ document_meant document.now }
        ensures ready { IsReady result }
        ensures clean { IsTrue (merger_of result).is_clean }
        ensures counted { IsCountedMerger (merger_of result) }
        ensures none { (merger_of result).lists ≡ [] }
        ensures zero { (merger_of result).comparisons ≡ 0 }
    {
        FieldsInSetCanMerge {
            alloc,
            schema,
            document,
            examined: Examined::new(alloc, schema, document),
            is_clean: true,
        }
    }

    /// Whether the value is clean: each call on it ended, and none added anything.
    pub fn is_clean(&self) -> bool
        ensures { result ≡ (merger_of self.now).is_clean }
    {
        self.is_clean
    }

    /// How often the shapes of two fields were compared, in all calls; if this is the greatest number, at least as often.
    pub fn comparisons(&self) -> u128
        ensures is { result ≡ (merger_of self.now).comparisons }
        ensures few { ComparesFew (merger_of self.now) }
        ensures in_document { ComparesFewInDocument (merger_of self.now) }
    {
        self.examined.comparisons()
    }

    /// Tells what does not merge in the operation: ConflictingFieldType if fields of one response key differ in shape,
    /// ConflictingFieldName and ConflictingFieldArgument if one object may have both; each at the later field in the text.
    /// After 128 levels of fields it tells the bound, at the operation, and what is below is not examined. A clean value that
    /// adds nothing has shown that the fields merge. If memory is refused, the old list is a prefix of the new one, and the
    /// value is not clean.
    pub fn validate_operation(
        &mut self,
        operation: &'doc Node<Operation>,
        list: &mut DiagnosticList,
    ) -> Result<(), AllocError>
        requires ready { IsReady self.old }
        ensures ready { IsReady self.new }
        ensures told { OnOk result (MergerTold (merger_of self.old) (operation_meant operation.now) (diagnostics_of list.old) (diagnostics_of list.new)) }
        ensures merged { OnOk result (SilenceMeansMerging (merger_of self.old) (operation_meant operation.now) (diagnostics_of list.old) (diagnostics_of list.new)) }
        ensures closed { OnOk result (KeepsClosed (merger_of self.old) (merger_of self.new) (operation_meant operation.now) (AddsNothing list.old list.new)) }
        ensures clean { OnOk result (StaysCleanInSilence (merger_of self.old) (merger_of self.new) (diagnostics_of list.old) (diagnostics_of list.new)) }
        ensures refused { OnErr result ((merger_of self.new).is_clean ≡ false) }
        ensures begins { OnErr result (BeginsAs (diagnostics_of list.old) (diagnostics_of list.new)) }
        ensures schema { (merger_of self.new).schema ≡ (merger_of self.old).schema }
        ensures document { (merger_of self.new).document ≡ (merger_of self.old).document }
        ensures counted { StaysCounted (merger_of self.old) (merger_of self.new) (operation_meant operation.now) }
        ensures grown { OnlyGrows (merger_of self.old) (merger_of self.new) }
        ensures pairs { OnOk result (LooksAtFewPairs (merger_of self.new)) }
    {
        let was_clean = self.is_clean;
        self.is_clean = false;
        let mut breaches = Vec::new(self.alloc);
        let (schema, document) = (self.schema, self.document);
        let examined = &mut self.examined;
        let left = examine_operation(schema, document, operation, examined, &mut breaches)?;
        let stays = stays_clean(was_clean, &breaches, left);
        append_conflicts(list, operation, breaches, left)?;
        self.is_clean = stays;
        Ok(())
    }
}

/// Whether a value stays clean: it was, nothing is told, and no list of fields is left.
fn stays_clean(was_clean: bool, breaches: &Vec<Breach>, left: bool) -> bool
    ensures { IsTrue result ↔ (IsTrue was_clean × ((brokens_of breaches.now ≡ []) × (left ≡ false))) }
{
    was_clean && breaches.is_empty() && !left
}

/// Adds that the chains of fields of the operation are too long, if lists of fields are left.
fn append_limit(
    list: &mut DiagnosticList,
    operation: &Node<Operation>,
    left: bool,
) -> Result<(), AllocError>
    ensures added { OnOk result (diagnostics_of list.new ≡ diagnostics_of list.old ++ map of_document (limit_told (operation_meant operation.now).place left)) }
    ensures kept { OnErr result (diagnostics_of list.new ≡ diagnostics_of list.old) }
{
    if left {
        list.push(operation.location(), Details::RecursionLimitError)?;
    }
    Ok(())
}

/// Appends all that merging tells of the operation. If memory is refused, the old list is a prefix of the new one.
fn append_conflicts(
    list: &mut DiagnosticList,
    operation: &Node<Operation>,
    breaches: Vec<Breach>,
    left: bool,
) -> Result<(), AllocError>
    ensures added { OnOk result (AddsDetails list.old list.new (conflicts_told (brokens_of breaches) (operation_meant operation.now).place left)) }
    ensures begins { OnErr result (BeginsAs (diagnostics_of list.old) (diagnostics_of list.new)) }
{
    append_breaches(list, breaches)?;
    append_limit(list, operation, left)
}
