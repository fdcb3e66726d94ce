//! The examination of an operation, in both passes.
ghost use Rattle.std.specs.Prelude.{◌≡◌, ◌||◌, List, IfOk, OnOk, IsTrue, []};
ghost use Rattle.rule_field_groups.specs.in_sets.in_schema.SchemaOf.{schema_tree};
ghost use Rattle.rule_field_groups.specs.in_definitions.Judged.{judged};
ghost use Rattle.graphql_names.specs.Placed.{Place};
ghost use Rattle.rule_field_groups.specs.in_spec_document.MeantTree.{MeantOperation, MeantDocument, meant_of_set};
ghost use Rattle.rule_field_groups.specs.in_sets.in_reach.in_typed_operations.DocumentView.{document_meant, operation_meant};
ghost use Rattle.rule_field_groups.specs.in_definitions.Judged.{Judged};
ghost use Rattle.rule_field_groups.specs.in_typed_selections.TypedTree.{typed_set_tree};
ghost use Rattle.rule_field_groups.specs.in_document_definitions.ReadFields.{fragments_read, set_read};
ghost use Rattle.rule_reach.specs.LoneKeys.{AreKeysLone};
ghost use Rattle.rule_field_groups.specs.in_sets.Nodes.{AreSets, HasAllStarts};
ghost use Rattle.rule_field_groups.specs.in_sets.Read.{set_at};
ghost use Rattle.rule_merging.specs.Verdict.{comparisons_of, lists_examined, AreBothSettled, IsCounted, StaysCountedIn, OnlyGrow, ExaminesOperation, AreSetsFor, AreKnown, LooksAtFew, Begins};

use crate::examination::Examination;
use document_typed_operations::{ExecutableDocument, Operation};
use graphql_names::Node;
use rule_field_groups::{Breach, FieldSets, MergeState, Pass, Schema, SelectionSet};
use rule_reach::keys_differ;
use std::alloc::{AllocError, Global};

/// What was examined in each pass, over all operations so far, and how often shapes were compared.
pub struct Examined<'doc> {
    /// The sets of the document, as far as they were examined.
    pub(crate) sets: FieldSets<'doc>,
    pub(crate) shapes: MergeState,
    pub(crate) selections: MergeState,
    /// Whether the next operation is checked for lone keys: all so far were checked, and no two fields of one set had one key.
    pub(crate) may_be_lone: bool,
}

impl Drop for Examined<'_> {
    fn drop(self) {
        let Examined {
            sets: _,
            shapes: _,
            selections: _,
            may_be_lone: _,
        } = self;
    }
}

impl<'doc> Examined<'doc> {
    /// Nothing examined yet.
    pub fn new(
        alloc: Global,
        schema: &'doc Schema,
        document: &'doc ExecutableDocument,
    ) -> Examined<'doc>
        ensures sets { AreSetsFor (judged (schema_tree schema.now)) (document_meant document.now) result.sets }
        ensures settled { (s : Judged) → (d : MeantDocument Place) → AreBothSettled s d result }
        ensures counted { (d : MeantDocument Place) (os : List (MeantOperation Place)) → IsCounted d os result }
        ensures none { comparisons_of result ≡ 0 }
        ensures lists { lists_examined result ≡ [] }
    {
        Examined {
            sets: FieldSets::new(alloc, schema, &document.fragments),
            shapes: MergeState::new(alloc),
            selections: MergeState::new(alloc),
            may_be_lone: true,
        }
    }

    /// How often the shapes of two fields were compared; if this is the greatest number, at least as often.
    pub fn comparisons(&self) -> u128
        ensures { result ≡ comparisons_of self.now }
    {
        self.shapes.comparisons
    }

    /// Whether all that was examined has numbers of these sets.
    fn is_known(&self) -> bool
        ensures { IsTrue result → AreKnown self.now }
    {
        let (fields, sets) = self.sets.counts();
        self.shapes.is_known(fields, sets) && self.selections.is_known(fields, sets)
    }
}

/// Adds the set of an operation to those of the document, and returns its node. What was examined means what it meant.
fn begin<'doc>(examined: &mut Examined<'doc>, set: &'doc SelectionSet) -> Result<usize, AllocError>
    requires sets { AreSets examined.old.sets }
    ensures begun { Begins examined.old examined.new }
    ensures node { IfOk result (λ n. (set_at examined.new.sets n ≡ meant_of_set (typed_set_tree set.now)) × HasAllStarts examined.new.sets) }
{
    // the numbers in it are numbers of these sets; the check tells the prover so
    if !examined.is_known() {
        return Err(AllocError);
    }
    examined.sets.add_set(set)
}

/// Whether fields are left below 128 levels in one of the passes. Fails if numbers of other sets are there, which is never so.
fn left_in_either(examined: &Examined<'_>, left: bool, too: bool) -> Result<bool, AllocError>
    ensures left { IfOk result (λ some. some ≡ (left || too)) }
    ensures pairs { OnOk result (LooksAtFew examined.now) }
{
    // the numbers in it are numbers of these sets; the check tells the prover so
    if !examined.is_known() {
        return Err(AllocError);
    }
    Ok(left || too)
}

/// Examines lists of the fields of an operation and of all below them, in both passes. Answers whether fields are left below 128
/// levels.
fn examine_lists<'doc>(
    schema: &'doc Schema,
    document: &'doc ExecutableDocument,
    operation: &'doc Node<Operation>,
    examined: &mut Examined<'doc>,
    breaches: &mut Vec<Breach>,
) -> Result<bool, AllocError>
    requires sets { AreSetsFor (judged (schema_tree schema.now)) (document_meant document.now) examined.old.sets }
    ensures sets { AreSetsFor (judged (schema_tree schema.now)) (document_meant document.now) examined.new.sets }
    ensures examined { IfOk result (λ left. ExaminesOperation (judged (schema_tree schema.now)) (document_meant document.now) (operation_meant operation.now) examined.old examined.new breaches.old breaches.new left) }
    ensures pairs { OnOk result (LooksAtFew examined.new) }
    ensures counted { StaysCountedIn (document_meant document.now) (operation_meant operation.now) examined.old examined.new }
    ensures grown { OnlyGrow (lists_examined examined.old) (comparisons_of examined.old) (lists_examined examined.new) (comparisons_of examined.new) }
{
    let start = begin(examined, &operation.content().selection_set)?;
    let sets = &examined.sets;
    let by_shape = Examination {
        pass: Pass::Shapes,
        schema,
        document,
        sets,
    };
    let left = by_shape.examine_all(start, &mut examined.shapes, breaches)?;
    let by_selection = Examination {
        pass: Pass::Selections,
        schema,
        document,
        sets,
    };
    let too = by_selection.examine_all(start, &mut examined.selections, breaches)?;
    left_in_either(examined, left, too)
}

/// Whether no two fields of an operation have one key, in any of its sets, if this is asked. A no tells nothing.
fn has_lone_keys(
    alloc: Global,
    document: &ExecutableDocument,
    operation: &Node<Operation>,
    is_asked: bool,
) -> Result<bool, AllocError>
    ensures { IfOk result (λ is_lone. IsTrue is_lone → AreKeysLone (fragments_read (document_meant document.now)) (set_read (operation_meant operation.now).set)) }
{
    if !is_asked {
        return Ok(false);
    }
    keys_differ(alloc, document, &operation.content().selection_set)
}

/// Examines the fields of an operation and all below them, in both passes. Answers whether fields are left below 128 levels. If
/// no two of them have one key, in any set, there is nothing to merge, and no list of them is made.
pub fn examine_operation<'doc>(
    schema: &'doc Schema,
    document: &'doc ExecutableDocument,
    operation: &'doc Node<Operation>,
    examined: &mut Examined<'doc>,
    breaches: &mut Vec<Breach>,
) -> Result<bool, AllocError>
    requires sets { AreSetsFor (judged (schema_tree schema.now)) (document_meant document.now) examined.old.sets }
    ensures sets { AreSetsFor (judged (schema_tree schema.now)) (document_meant document.now) examined.new.sets }
    ensures examined { IfOk result (λ left. ExaminesOperation (judged (schema_tree schema.now)) (document_meant document.now) (operation_meant operation.now) examined.old examined.new breaches.old breaches.new left) }
    ensures pairs { OnOk result (LooksAtFew examined.new) }
    ensures counted { StaysCountedIn (document_meant document.now) (operation_meant operation.now) examined.old examined.new }
    ensures grown { OnlyGrow (lists_examined examined.old) (comparisons_of examined.old) (lists_examined examined.new) (comparisons_of examined.new) }
{
    let alloc = *breaches.allocator();
    let is_lone = has_lone_keys(alloc, document, operation, examined.may_be_lone)?;
    examined.may_be_lone = is_lone;
    if is_lone {
        return left_in_either(examined, false, false);
    }
    examine_lists(schema, document, operation, examined, breaches)
}
