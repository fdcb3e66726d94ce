//! The fields that a selection set reaches.
ghost use Rattle.std.specs.Prelude.{◌≡◌, true, false};
ghost use Rattle.document_typed_selections.specs.TypedTree.{typed_set_tree};
ghost use Rattle.document_typed_operations.specs.Reached.{IsWalk};
ghost use Rattle.document_typed_operations.specs.WalkView.{fragments_tree};
ghost use Rattle.document_typed_operations.specs.Lending.{LendsNext, items_to_lend, selections_are_over, fields_left, all_fields_is_over, all_fields_left, root_fields_is_over, root_fields_left};

use crate::document::FragmentMap;
use crate::selections::ReachedSelections;
use document_typed_selections::{Field, SelectionSet};
use graphql_names::Node;
use std::alloc::{AllocError, Global};

/// Lends each field of a selection set at every depth, and each of every fragment that the set reaches, once: those of the
/// set, then those of one fragment after another, each in the order of the text. A spread of a fragment that the document
/// does not have is ignored. An item is an error if memory runs out; after that, and after the end, nothing is lent any
/// more.
pub struct AllFields<'doc> {
    selections: ReachedSelections<'doc>,
}

impl Drop for AllFields<'_> {
    fn drop(self) {
        let AllFields { selections: _ } = self;
    }
}

impl<'doc> AllFields<'doc> {
    /// All fields that the set reaches in a document with these fragments.
    pub fn new(
        alloc: Global,
        start: &'doc SelectionSet,
        fragments: &'doc FragmentMap,
    ) -> AllFields<'doc>
        ensures walk { IsWalk true (fragments_tree fragments.now) (typed_set_tree start.now) (all_fields_left result) }
        ensures is_over { all_fields_is_over result ≡ false }
    {
        AllFields {
            selections: ReachedSelections::new(alloc, true, start, fragments),
        }
    }
}

impl<'doc> Iterator for AllFields<'doc> {
    type Item = Result<&'doc Node<Field>, AllocError>;

    ghost next_gives = { LendsNext all_fields_is_over all_fields_left };

    ghost remaining = { items_to_lend all_fields_is_over all_fields_left };

    fn next(&mut self) -> Option<Result<&'doc Node<Field>, AllocError>> {
        next_field(&mut self.selections)
    }
}

/// Lends each field of a selection set that is within no other field, and each of every fragment that the set reaches
/// through such selections, in the order and with the errors of [`AllFields`].
pub struct RootFields<'doc> {
    selections: ReachedSelections<'doc>,
}

impl Drop for RootFields<'_> {
    fn drop(self) {
        let RootFields { selections: _ } = self;
    }
}

impl<'doc> RootFields<'doc> {
    /// The root fields that the set reaches in a document with these fragments.
    pub fn new(
        alloc: Global,
        start: &'doc SelectionSet,
        fragments: &'doc FragmentMap,
    ) -> RootFields<'doc>
        ensures walk { IsWalk false (fragments_tree fragments.now) (typed_set_tree start.now) (root_fields_left result) }
        ensures is_over { root_fields_is_over result ≡ false }
    {
        RootFields {
            selections: ReachedSelections::new(alloc, false, start, fragments),
        }
    }
}

impl<'doc> Iterator for RootFields<'doc> {
    type Item = Result<&'doc Node<Field>, AllocError>;

    ghost next_gives = { LendsNext root_fields_is_over root_fields_left };

    ghost remaining = { items_to_lend root_fields_is_over root_fields_left };

    fn next(&mut self) -> Option<Result<&'doc Node<Field>, AllocError>> {
        next_field(&mut self.selections)
    }
}

/// The next field of those that are left.
#[tactic(auto, using(crate::proofs::WalkLaws::no_field, crate::proofs::WalkLaws::one_field, crate::proofs::WalkLaws::fewer_left))]
fn next_field<'doc>(
    selections: &mut ReachedSelections<'doc>,
) -> Option<Result<&'doc Node<Field>, AllocError>>
    ensures { LendsNext selections_are_over fields_left selections.old result selections.new }
{
    loop {
        match selections.next()? {
            Ok((_, selection)) => {
                if let Some(field) = selection.as_field() {
                    return Some(Ok(field));
                }
            }
            Err(refused) => return Some(Err(refused)),
        }
    }
}
