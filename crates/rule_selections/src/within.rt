//! The sets within a set, at any depth, each before those within it. There is no recursion, so the stack does not grow with the
//! depth.
ghost use Rattle.std.specs.Prelude.{◌≡◌, ◌++◌, ◌∷◌, [], flat_map, IfOk, OnOk};
ghost use Rattle.document_typed_selections.specs.TypedTree.{typed_selection_tree, typed_set_tree};
ghost use Rattle.rule_selections.specs.Within.{own_sets, sets_below, within, typed_sets, waiting_sets};

use document_typed_selections::{Selection, SelectionSet};
use std::alloc::{AllocError, Global};

/// Makes the set the next one.
fn push_set<'doc>(
    set: &'doc SelectionSet,
    waiting: &mut Vec<&'doc SelectionSet>,
) -> Result<(), AllocError>
    ensures { OnOk result (waiting_sets waiting.new.items ≡ typed_set_tree set.now ∷ waiting_sets waiting.old.items) }
{
    waiting.push(set)?;
    Ok(())
}

/// Makes the set of a selection the next one. A spread has none.
#[tactic(auto, using(document_typed_selections::proofs::TypedTrees::typed_tree_rules))]
fn push_own_set<'doc>(
    selection: &'doc Selection,
    waiting: &mut Vec<&'doc SelectionSet>,
) -> Result<(), AllocError>
    ensures { OnOk result (waiting_sets waiting.new.items ≡ own_sets (typed_selection_tree selection.now) ++ waiting_sets waiting.old.items) }
{
    match selection {
        Selection::Field(field) => push_set(&field.content().selection_set, waiting),
        Selection::FragmentSpread(_) => Ok(()),
        Selection::InlineFragment(inline) => push_set(&inline.content().selection_set, waiting),
    }
}

/// Makes the sets of a set's selections the next ones, in order.
fn push_sets_below<'doc>(
    set: &'doc SelectionSet,
    waiting: &mut Vec<&'doc SelectionSet>,
) -> Result<(), AllocError>
    ensures { OnOk result (waiting_sets waiting.new.items ≡ sets_below (typed_set_tree set.now) ++ waiting_sets waiting.old.items) }
{
    for index in (0..set.selections.len()).rev() {
        push_own_set(&set.selections[index], waiting)?;
    }
    Ok(())
}

/// The sets that are found within a set.
#[derive(Drop)]
struct Finding<'doc> {
    sets: Vec<&'doc SelectionSet>,
    /// Those that are not searched yet, the next one last.
    waiting: Vec<&'doc SelectionSet>,
}

impl<'doc> Finding<'doc> {
    /// Adds those that wait, and all sets within them.
    fn find_all(&mut self) -> Result<(), AllocError>
        ensures { OnOk result (typed_sets self.new.sets.items ≡ typed_sets self.old.sets.items ++ flat_map within (waiting_sets self.old.waiting.items)) }
    {
        while let Some(next) = self.waiting.pop() {
            self.sets.push(next)?;
            push_sets_below(next, &mut self.waiting)?;
        }
        Ok(())
    }
}

/// The set and all sets within it, of fields and of inline fragments, each before those within it, and these in order.
pub(crate) fn sets_within<'doc>(
    alloc: Global,
    set: &'doc SelectionSet,
) -> Result<Vec<&'doc SelectionSet>, AllocError>
    ensures { IfOk result (λ sets. typed_sets sets.items ≡ within (typed_set_tree set.now)) }
{
    let mut finding = Finding {
        sets: Vec::new(alloc),
        waiting: Vec::new(alloc),
    };
    finding.waiting.push(set)?;
    finding.find_all()?;
    let Finding { sets, waiting: _ } = finding;
    Ok(sets)
}
