//! Selection sets without those selections, at any depth, for which no fault is told. The sets within a set are thinned
//! before it, without recursion, so the stack does not grow with the depth.
ghost use Rattle.std.specs.Prelude.{◌≡◌, IfOk, IsTrue, OnOk, None};
ghost use Rattle.graphql_names.specs.Placed.{name_tree};
ghost use Rattle.document_typed_selections.specs.TypedTree.{typed_selection_tree, typed_set_tree};
ghost use Rattle.document_typed_selections.specs.TypedParts.{bare_inline, typed_field_node, typed_inline_node};
ghost use Rattle.spec_document.specs.MeantTree.{meant, meant_of_set};
ghost use Rattle.rule_selections.specs.Settled.{filled, with_left, LeavesOfTyped};
ghost use Rattle.rule_selections.specs.Telling.{terms_of, IsRight, SettlesIfLeft};
ghost use Rattle.rule_selections.specs.Within.{TakesBelow, TakesKept, TakesThinned, AreThinned};

use crate::common::Common;
use crate::quiet::{Met, may_go};
use crate::within::sets_within;
use document_typed_selections::{Field, InlineFragment, Selection, SelectionSet};
use graphql_names::Node;
use std::alloc::{AllocError, Global};
use tree_literals::{NamedType, copies_of_three, copies_of_two};

/// A selection for an otherwise empty set on that type, for which no fault is told: an inline fragment without anything in it.
fn filler(alloc: Global, ty: &NamedType) -> Result<Selection, AllocError>
    ensures { IfOk result (λ r. typed_selection_tree r ≡ bare_inline None (name_tree ty.now)) }
{
    let inline = InlineFragment::without_type_condition(alloc, ty.clone()?);
    Ok(Selection::InlineFragment(Node::new(alloc, inline)?))
}

/// What is left of the whole set; but a set with the filler alone, if the whole set has selections and none is left.
fn filled(
    alloc: Global,
    whole: &SelectionSet,
    left: SelectionSet,
) -> Result<SelectionSet, AllocError>
    ensures { IfOk result (λ r. meant_of_set (typed_set_tree r) ≡ filled (meant_of_set (typed_set_tree whole.now)) (meant_of_set (typed_set_tree left))) }
{
    if whole.is_empty() {
        return Ok(left);
    }
    if !left.is_empty() {
        return Ok(left);
    }
    let mut set = SelectionSet::new(alloc, whole.ty.clone()?);
    set.push(filler(alloc, &whole.ty)?)?;
    Ok(set)
}

/// The field with what is left of its set, at the same place.
fn field_with(
    alloc: Global,
    field: &Node<Field>,
    left: SelectionSet,
) -> Result<Selection, AllocError>
    ensures { IfOk result (λ r. meant (typed_selection_tree r) ≡ with_left (meant (typed_field_node field.now)) (meant_of_set (typed_set_tree left))) }
{
    let own = field.content();
    let selection_set = filled(alloc, &own.selection_set, left)?;
    let (definition, alias, name) = copies_of_three(&own.definition, &own.alias, &own.name)?;
    let (arguments, directives) = copies_of_two(&own.arguments, &own.directives)?;
    let thin = Field {
        definition,
        alias,
        name,
        arguments,
        directives,
        selection_set,
    };
    Ok(Selection::Field(field.same_location(alloc, thin)?))
}

/// The inline fragment with what is left of its set, at the same place.
fn inline_with(
    alloc: Global,
    inline: &Node<InlineFragment>,
    left: SelectionSet,
) -> Result<Selection, AllocError>
    ensures { IfOk result (λ r. meant (typed_selection_tree r) ≡ with_left (meant (typed_inline_node inline.now)) (meant_of_set (typed_set_tree left))) }
{
    let own = inline.content();
    let (type_condition, directives) = copies_of_two(&own.type_condition, &own.directives)?;
    let thin = InlineFragment {
        type_condition,
        directives,
        selection_set: left,
    };
    Ok(Selection::InlineFragment(inline.same_location(alloc, thin)?))
}

/// The selection with what is left of its set. A spread has none.
#[tactic(auto, using(document_typed_selections::proofs::TypedTrees::typed_tree_rules))]
fn selection_with(
    alloc: Global,
    selection: &Selection,
    left: SelectionSet,
) -> Result<Selection, AllocError>
    ensures { IfOk result (λ r. meant (typed_selection_tree r) ≡ with_left (meant (typed_selection_tree selection.now)) (meant_of_set (typed_set_tree left))) }
{
    match selection {
        Selection::Field(field) => field_with(alloc, field, left),
        Selection::FragmentSpread(_) => selection.clone(),
        Selection::InlineFragment(inline) => inline_with(alloc, inline, left),
    }
}

/// Whether the selection of a set on that type may be left out, given what is left of its own set: nothing is left of that,
/// no fault is told for the selection itself, and its variables are used by selections that stay.
fn is_settled(
    common: &Common<'_>,
    ty: &NamedType,
    selection: &Selection,
    left: &SelectionSet,
    met: &mut Met,
) -> Result<bool, AllocError>
    requires { IsRight common.now }
    ensures { IfOk result (λ b. IsTrue b → SettlesIfLeft (terms_of common.now) ty.now selection.now left.now) }
{
    if left.is_empty() {
        let alloc = *left.selections.allocator();
        return may_go(alloc, common, ty, selection, met);
    }
    Ok(false)
}

/// Takes what is left of the set of a selection, if it has one: the last of these. A spread has none.
fn left_below(selection: &Selection, thin: &mut Vec<SelectionSet>) -> Option<SelectionSet>
    ensures { TakesBelow selection.now result thin.old.items thin.new.items }
{
    if selection.as_fragment_spread().is_some() {
        return None;
    }
    thin.pop()
}

/// Appends what stays of a selection of a set on that type, unless no fault is told for it and for all that it selects.
fn keep_unless_settled(
    common: &Common<'_>,
    ty: &NamedType,
    selection: &Selection,
    thin: &mut Vec<SelectionSet>,
    met: &mut Met,
    kept: &mut SelectionSet,
) -> Result<(), AllocError>
    requires { IsRight common.now }
    ensures { OnOk result (TakesKept (terms_of common.now) ty.now selection.now thin.old.items thin.new.items kept.old kept.new) }
{
    let Some(left) = left_below(selection, thin) else {
        kept.push(selection.clone()?)?;
        return Ok(());
    };
    if is_settled(common, ty, selection, &left, met)? {
        return Ok(());
    }
    let alloc = *thin.allocator();
    kept.push(selection_with(alloc, selection, left)?)?;
    Ok(())
}

/// What is left of a set. What is left of the sets of its selections is taken from the end of `thin`: that of the first is last.
fn thinned_set(
    alloc: Global,
    common: &Common<'_>,
    set: &SelectionSet,
    thin: &mut Vec<SelectionSet>,
    met: &mut Met,
) -> Result<SelectionSet, AllocError>
    requires { IsRight common.now }
    ensures { IfOk result (λ r. TakesThinned (terms_of common.now) set.now r thin.old.items thin.new.items) }
{
    let mut kept = SelectionSet::new(alloc, set.ty.clone()?);
    for selection in &set.selections {
        keep_unless_settled(common, &set.ty, selection, thin, met, &mut kept)?;
    }
    Ok(kept)
}

/// What is left of sets, each of which comes before those within it. What is left of a set is moved into the set that it is
/// in, so at the end there is one for each set that is in no other, the first one last.
fn thinned_sets<'doc>(
    alloc: Global,
    common: &Common<'_>,
    mut sets: Vec<&'doc SelectionSet>,
) -> Result<Vec<SelectionSet>, AllocError>
    requires { IsRight common.now }
    ensures { IfOk result (λ thin. AreThinned (terms_of common.now) sets.entry.items thin.items) }
{
    let mut thin = Vec::new(alloc);
    let mut met = Met::new(alloc);
    while let Some(next) = sets.pop() {
        let set = thinned_set(alloc, common, next, &mut thin, &mut met)?;
        thin.push(set)?;
    }
    Ok(thin)
}

/// The set without those of its selections, at any depth, for which no fault is told: they break no rule under the common
/// variables, and enter only fragments that apply, and so does all that they select. A field that has selections still has one.
/// The first use of each variable should stay: that is not promised.
pub(crate) fn thinned(
    alloc: Global,
    common: &Common<'_>,
    set: &SelectionSet,
) -> Result<SelectionSet, AllocError>
    requires { IsRight common.now }
    ensures { IfOk result (λ r. LeavesOfTyped (terms_of common.now) (typed_set_tree set.now) (typed_set_tree r)) }
{
    let sets = sets_within(alloc, set)?;
    let mut thin = thinned_sets(alloc, common, sets)?;
    match thin.pop() {
        Some(whole) => Ok(whole),
        None => set.clone(),
    }
}
