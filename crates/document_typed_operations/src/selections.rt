//! The selections that a selection set reaches, and the fragments.
ghost use Rattle.std.specs.Prelude.{◌≡◌, ◌↔◌, false, Contains, IfOk, OnOk};
ghost use Rattle.std.specs.List.{IsDistinct};
ghost use Rattle.std.specs.Str.{bytes_eq};
ghost use Rattle.document_typed_selections.specs.TypedTree.{typed_selection_tree, typed_set_tree};
ghost use Rattle.document_typed_operations.specs.Reached.{IsReached, IsReachedFragment, IsMemberWalk};
ghost use Rattle.document_typed_operations.specs.Left.{with_spread};
ghost use Rattle.document_typed_operations.specs.WalkView.{fragments_tree, gathered_names};
ghost use Rattle.document_typed_operations.specs.Lending.{LendsNextSelection, selections_are_over, selections_left, selections_to_lend};

use crate::document::FragmentMap;
use crate::walk::Walk;
use document_typed_selections::{Selection, SelectionSet};
use graphql_names::Name;
use indexmap::IndexSet;
use std::alloc::{AllocError, Global};
use tree_literals::NamedType;

/// Lends each selection of a selection set and of every fragment that the set reaches, once, with the type of the set
/// that has it: those of the set, then those of one fragment after another, each in the order of the text. What is
/// within inline fragments is lent too, and if `nested` is true, what is within fields. A spread of a fragment that the
/// document does not have is lent, and nothing is entered for it. An item is an error if memory runs out; after that, and
/// after the end, nothing is lent any more.
pub struct ReachedSelections<'doc> {
    walk: Walk<'doc>,
    is_over: bool,
}

// Not derived: a derived drop is proved again in each crate that drops one.
impl Drop for ReachedSelections<'_> {
    fn drop(self) {
        let ReachedSelections {
            walk: _,
            is_over: _,
        } = self;
    }
}

impl<'doc> ReachedSelections<'doc> {
    /// The selections that the set reaches in a document with these fragments.
    pub fn new(
        alloc: Global,
        nested: bool,
        start: &'doc SelectionSet,
        fragments: &'doc FragmentMap,
    ) -> ReachedSelections<'doc>
        ensures reached { (e : _) → Contains (selections_left result) e ↔ IsReached nested (fragments_tree fragments.now) (typed_set_tree start.now) e }
        ensures walk { IsMemberWalk nested (fragments_tree fragments.now) (typed_set_tree start.now) (selections_left result) }
        ensures is_over { selections_are_over result ≡ false }
    {
        ReachedSelections {
            walk: Walk::new(alloc, nested, start, fragments),
            is_over: false,
        }
    }
}

impl<'doc> Iterator for ReachedSelections<'doc> {
    type Item = Result<(&'doc NamedType, &'doc Selection), AllocError>;

    ghost next_gives = { LendsNextSelection };

    ghost remaining = { selections_to_lend };

    fn next(&mut self) -> Option<Result<(&'doc NamedType, &'doc Selection), AllocError>> {
        if self.is_over {
            return None;
        }
        match self.walk.next_member() {
            Ok(Some(member)) => Some(Ok(member)),
            Ok(None) => {
                self.is_over = true;
                None
            }
            Err(refused) => {
                // The selection that was taken is lost, so nothing more is lent.
                self.is_over = true;
                Some(Err(refused))
            }
        }
    }
}

/// The names of the fragments that a set reaches in a document with these fragments, each once, in the order of their
/// first spreads. Spreads in fields count if `nested` is true.
pub fn reached_fragments<'doc>(
    alloc: Global,
    nested: bool,
    start: &'doc SelectionSet,
    fragments: &'doc FragmentMap,
) -> Result<IndexSet<&'doc Name>, AllocError>
    ensures reached { IfOk result (λ r. (n : _) → Contains (gathered_names r) n ↔ IsReachedFragment nested (fragments_tree fragments.now) (typed_set_tree start.now) n) }
    ensures once { IfOk result (λ r. IsDistinct bytes_eq (gathered_names r)) }
{
    let mut names = IndexSet::new(alloc);
    for selection in ReachedSelections::new(alloc, nested, start, fragments) {
        gather(selection?.1, fragments, &mut names)?;
    }
    Ok(names)
}

/// Adds the name of the fragment that the selection spreads, if it spreads one of these.
fn gather<'doc>(
    selection: &'doc Selection,
    fragments: &'doc FragmentMap,
    names: &mut IndexSet<&'doc Name>,
) -> Result<(), AllocError>
    ensures { OnOk result (gathered_names names.new ≡ with_spread (fragments_tree fragments.now) (gathered_names names.old) (typed_selection_tree selection.now)) }
{
    if let Some(spread) = selection.as_fragment_spread() {
        let name = &spread.content().fragment_name;
        if fragments.contains_key(name) {
            names.insert(name)?;
        }
    }
    Ok(())
}
