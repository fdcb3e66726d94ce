//! The names of the variables that are used in sets at any depth.
ghost use Rattle.std.specs.Prelude.{◌≡◌, [], ℕ, List, Contains, IfOk, IsTrue, OnOk};
ghost use Rattle.document_typed_selections.specs.TypedTree.{typed_set_tree};
ghost use Rattle.spec_document.specs.MeantTree.{meant_of_set};
ghost use Rattle.rule_reach.specs.NotedNames.{noted_names};
ghost use Rattle.rule_selections.specs.UsedNames.{with_set, with_sets};
ghost use Rattle.rule_selections.specs.Settled.{UsesAll};
ghost use Rattle.rule_selections.specs.Within.{within};

use crate::within::sets_within;
use document_typed_selections::{Selection, SelectionSet};
use graphql_names::Name;
use indexmap::IndexSet;
use rule_reach::{has_name, note_in_selection};
use std::alloc::{AllocError, Global};

/// Adds the names of the variables in a selection itself, and tells whether one of them is new.
pub(crate) fn uses_new(
    selection: &Selection,
    names: &mut IndexSet<Name>,
) -> Result<bool, AllocError> {
    let before = names.len();
    note_in_selection(selection, names)?;
    Ok(names.len() > before)
}

/// Adds the names of the variables in the selections of a set themselves.
fn note_in_set(set: &SelectionSet, names: &mut IndexSet<Name>) -> Result<(), AllocError>
    ensures { OnOk result (noted_names names.new ≡ with_set (noted_names names.old) (typed_set_tree set.now)) }
{
    for selection in &set.selections {
        note_in_selection(selection, names)?;
    }
    Ok(())
}

/// The names of the variables in a set, at any depth.
fn used_names(alloc: Global, set: &SelectionSet) -> Result<IndexSet<Name>, AllocError>
    ensures { IfOk result (λ r. noted_names r ≡ with_sets [] (within (typed_set_tree set.now))) }
{
    let sets = sets_within(alloc, set)?;
    let mut names = IndexSet::new(alloc);
    for index in 0..sets.len() {
        note_in_set(sets[index], &mut names)?;
    }
    Ok(names)
}

/// Whether each of the names is in the set.
fn are_in(names: &IndexSet<Name>, set: &IndexSet<Name>) -> bool
    ensures { IsTrue result → (n : List ℕ) → Contains (noted_names names.now) n → Contains (noted_names set.now) n }
{
    for name in names.as_slice() {
        if !has_name(set, name) {
            return false;
        }
    }
    true
}

/// Whether each variable that is used in the whole is used in what is left of it.
pub(crate) fn uses_all(
    alloc: Global,
    left: &SelectionSet,
    whole: &SelectionSet,
) -> Result<bool, AllocError>
    ensures { IfOk result (λ b. IsTrue b → UsesAll (meant_of_set (typed_set_tree left.now)) (meant_of_set (typed_set_tree whole.now))) }
{
    let used = used_names(alloc, left)?;
    let wanted = used_names(alloc, whole)?;
    Ok(are_in(&wanted, &used))
}
