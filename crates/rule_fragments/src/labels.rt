//! Rules on the labels of `@defer`, over the whole document. They are not in the specification of October 2021, but in the
//! proposal on incremental delivery; the directive is judged by its name.
ghost use Rattle.std.specs.Prelude.{◌≡◌, ◌++◌, flat_map, IfOk, OnOk};
ghost use Rattle.schema_components.specs.Lists.{each_place};
ghost use Rattle.graphql_names.specs.Placed.{node_tree};
ghost use Rattle.tree_literals.specs.ValueTree.{value_tree};
ghost use Rattle.tree_directives.specs.DirectiveTree.{directive_tree};
ghost use Rattle.spec_document.specs.MeantTree.{meant_of_set};
ghost use Rattle.document_typed_selections.specs.TypedTree.{typed_set_tree};
ghost use Rattle.rule_selection_queries.specs.in_reach.in_typed_operations.DocumentView.{document_meant};
ghost use Rattle.rule_document_definitions.specs.DeferUses.{labels};
ghost use Rattle.rule_document_definitions.specs.Defer.{LabelsBreak};
ghost use Rattle.indexmap.specs.IndexMap.{get_by_text};
ghost use Rattle.rule_fragments.specs.Broken.{AddsBroken, AddsThese};
ghost use Rattle.rule_fragments.specs.Labels.{values_meant, label_of, labels_of, labels_at, labels_in, variable_label, label_again, label_breaks, told_again, NotesFirst, NotesLabel};
ghost use Rattle.rule_selection_queries.specs.Lent.{lent};
ghost use Rattle.rule_fragments.specs.Rooted.{operation_set, fragment_set, alone_told};

use crate::breach::Breach;
use document_typed_operations::{ExecutableDocument, Fragment, Operation};
use document_typed_selections::{Selection, SelectionSet};
use fault_document_errors::BuildError;
use graphql_names::{Node, SourceSpan};
use indexmap::IndexMap;
use rule_selection_queries::tell_breach;
use std::alloc::{AllocError, Global};
use tree_directives::Directive;
use tree_literals::Value;

/// Adds the value of the argument `label` of the directive, if it is `@defer`. It is a copy that shares its contents.
fn push_label(directive: &Node<Directive>, found: &mut Vec<Node<Value>>) -> Result<(), AllocError>
    ensures { OnOk result (values_meant found.new.items ≡ values_meant found.old.items ++ label_of (node_tree directive_tree directive.now)) }
{
    if directive.content().name.as_str() != "defer" {
        return Ok(());
    }
    if let Some(label) = directive.content().specified_argument_by_name("label") {
        found.push(label.clone()?)?;
    }
    Ok(())
}

/// Adds the labels on the selection itself.
fn push_own_labels(selection: &Selection, found: &mut Vec<Node<Value>>) -> Result<(), AllocError>
    ensures { OnOk result (values_meant found.new.items ≡ values_meant found.old.items ++ labels_of (lent selection.now)) }
{
    let directives = selection.directives().as_slice();
    for directive in directives {
        push_label(directive, found)?;
    }
    Ok(())
}

/// Adds the labels in the set, in the order of the text. Spreads are not entered.
#[cycle(labelled)]
fn push_labels_in(set: &SelectionSet, found: &mut Vec<Node<Value>>) -> Result<(), AllocError>
    ensures { OnOk result (values_meant found.new.items ≡ values_meant found.old.items ++ labels_in (meant_of_set (typed_set_tree set.now))) }
{
    for selection in &set.selections {
        push_labels(selection, found)?;
    }
    Ok(())
}

/// Adds the labels on the selection, and those in it.
#[cycle(labelled)]
fn push_labels(selection: &Selection, found: &mut Vec<Node<Value>>) -> Result<(), AllocError>
    ensures { OnOk result (values_meant found.new.items ≡ values_meant found.old.items ++ labels_at (lent selection.now)) }
{
    push_own_labels(selection, found)?;
    match selection {
        Selection::Field(field) => push_labels_in(&field.content().selection_set, found),
        Selection::FragmentSpread(_) => Ok(()),
        Selection::InlineFragment(inline) => {
            push_labels_in(&inline.content().selection_set, found)
        }
    }
}

/// Adds the labels in the operation without a name, if there is one.
fn push_labels_alone(
    operation: &Option<Node<Operation>>,
    found: &mut Vec<Node<Value>>,
) -> Result<(), AllocError>
    ensures { OnOk result (values_meant found.new.items ≡ values_meant found.old.items ++ alone_told labels_in operation.now) }
{
    match operation {
        None => Ok(()),
        Some(operation) => push_labels_in(&operation.content().selection_set, found),
    }
}

/// Adds the labels in the operations.
fn push_labels_of_operations(
    operations: &[Node<Operation>],
    found: &mut Vec<Node<Value>>,
) -> Result<(), AllocError>
    ensures { OnOk result (values_meant found.new.items ≡ values_meant found.old.items ++ flat_map (λ n. labels_in (operation_set n)) operations.now) }
{
    for operation in operations {
        push_labels_in(&operation.content().selection_set, found)?;
    }
    Ok(())
}

/// Adds the labels in the fragments.
fn push_labels_of_fragments(
    fragments: &[Node<Fragment>],
    found: &mut Vec<Node<Value>>,
) -> Result<(), AllocError>
    ensures { OnOk result (values_meant found.new.items ≡ values_meant found.old.items ++ flat_map (λ n. labels_in (fragment_set n)) fragments.now) }
{
    for fragment in fragments {
        push_labels_in(&fragment.content().selection_set, found)?;
    }
    Ok(())
}

/// The labels of the document in order: those of its operations, and then those of its fragments.
#[tactic(auto, using(crate::proofs::Labelled::labels_are))]
fn document_labels(
    alloc: Global,
    document: &ExecutableDocument,
) -> Result<Vec<Node<Value>>, AllocError>
    ensures { IfOk result (λ found. values_meant found.items ≡ labels (document_meant document.now)) }
{
    let mut found = Vec::new(alloc);
    push_labels_alone(&document.operations.anonymous, &mut found)?;
    push_labels_of_operations(document.operations.named.values().as_slice(), &mut found)?;
    push_labels_of_fragments(document.fragments.values().as_slice(), &mut found)?;
    Ok(found)
}

/// DeferLabelMustNotBeVariable: a label of `@defer` is valid only if it is no variable.
fn defer_label_must_not_be_variable(
    label: &Node<Value>,
    breaches: &mut Vec<Breach>,
) -> Result<(), AllocError>
    ensures { OnOk result (AddsThese breaches.old breaches.new (variable_label (node_tree value_tree label.now))) }
{
    if label.content().as_variable().is_none() {
        return Ok(());
    }
    let breach = BuildError::DeferLabelMustNotBeVariable;
    tell_breach(breaches, Some((label.location(), breach)))
}

/// DuplicateDeferLabel: a label of `@defer` is valid only if no earlier one is the same string. `first` is the place of the
/// first of that text, if one is before the label at that place.
fn duplicate_defer_label(
    first: Option<Option<SourceSpan>>,
    text: &str,
    place: Option<SourceSpan>,
    breaches: &mut Vec<Breach>,
) -> Result<(), AllocError>
    ensures { OnOk result (AddsThese breaches.old breaches.new (label_again place text.now first)) }
{
    let Some(original_location) = first else {
        return Ok(());
    };
    let label = String::from_str(*breaches.allocator(), text)?;
    let breach = BuildError::DuplicateDeferLabel {
        label,
        original_location,
    };
    tell_breach(breaches, Some((place, breach)))
}

/// The place of the first label of each text.
type FirstPlaces = IndexMap<String, Option<SourceSpan>>;

/// Notes the place under the text, unless it has one already: that stays, and is returned.
fn note_first(
    alloc: Global,
    places: &mut FirstPlaces,
    text: &str,
    place: Option<SourceSpan>,
) -> Result<Option<Option<SourceSpan>>, AllocError>
    ensures there { IfOk result (λ first. first ≡ get_by_text places.old text.now) }
    ensures noted { OnOk result (NotesFirst places.old places.new text.now place) }
{
    if let Some(first) = places.get(text) {
        return Ok(Some(*first));
    }
    places.insert(String::from_str(alloc, text)?, place)?;
    Ok(None)
}

/// Adds what breaks DuplicateDeferLabel at the label, and notes its place, if it is a string.
fn check_string_label(
    label: &Node<Value>,
    places: &mut FirstPlaces,
    breaches: &mut Vec<Breach>,
) -> Result<(), AllocError>
    ensures told { OnOk result (AddsThese breaches.old breaches.new (told_again places.old (node_tree value_tree label.now))) }
    ensures noted { OnOk result (NotesLabel places.old places.new (node_tree value_tree label.now)) }
{
    let Some(text) = label.content().as_str() else {
        return Ok(());
    };
    let alloc = *breaches.allocator();
    let place = label.location();
    let first = note_first(alloc, places, text, place)?;
    duplicate_defer_label(first, text, place, breaches)
}

/// Adds what breaks the rules at each of the labels.
fn check_each_label(labels: &[Node<Value>], breaches: &mut Vec<Breach>) -> Result<(), AllocError>
    ensures { OnOk result (AddsThese breaches.old breaches.new (each_place label_breaks (values_meant labels.now))) }
{
    let mut places = IndexMap::new(*breaches.allocator());
    for label in labels {
        defer_label_must_not_be_variable(label, breaches)?;
        check_string_label(label, &mut places, breaches)?;
    }
    Ok(())
}

/// Adds what breaks the rules on labels of `@defer` in the whole document: no label is a variable, and the labels that are
/// strings differ; each later one is told with the place of the first. Fails if memory is refused.
pub fn check_labels(
    document: &ExecutableDocument,
    breaches: &mut Vec<Breach>,
) -> Result<(), AllocError>
    ensures { OnOk result (AddsBroken breaches.old breaches.new (LabelsBreak (document_meant document.now))) }
{
    let alloc = *breaches.allocator();
    let labels = document_labels(alloc, document)?;
    check_each_label(&labels, breaches)
}
