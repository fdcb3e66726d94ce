//! A walk over the selections of a set and of the fragments that it reaches.
ghost use Rattle.std.specs.Prelude.{◌≡◌, ◌∷◌, []};
ghost use Rattle.std.specs.Prelude.{IfOk, OnOk, MatchOption, MatchBool};
ghost use Rattle.graphql_names.specs.Placed.{name_tree};
ghost use Rattle.document_typed_selections.specs.TypedTree.{typed_selection_tree, typed_set_tree};
ghost use Rattle.document_typed_operations.specs.Left.{at_start, own_members, with_next, with_more, with_name};
ghost use Rattle.document_typed_operations.specs.WalkView.{walk_state, fragments_tree, lent_member, HasPassed, HasEntered};
ghost use Rattle.document_typed_operations.specs.Stepping.{HadNothing, entered_members, left_in};

use crate::document::FragmentMap;
use document_typed_selections::{Field, Selection, SelectionSet};
use graphql_names::{Name, Node};
use indexmap::IndexSet;
use std::alloc::{AllocError, Global};
use tree_literals::NamedType;

/// The state of a walk. Sets that are not passed to their ends wait on a stack, except the innermost one. A fragment
/// that is spread is noted, once, by its index in the document, and entered when all sets before it are passed.
#[derive(Drop)]
pub(crate) struct Walk<'doc> {
    nested: bool,
    fragments: &'doc FragmentMap,
    ty: &'doc NamedType,
    front: &'doc [Selection],
    outer: Vec<(&'doc NamedType, &'doc [Selection])>,
    noted: IndexSet<usize>,
    entered: usize,
}

impl<'doc> Walk<'doc> {
    /// At the start of a set.
    pub(crate) fn new(
        alloc: Global,
        nested: bool,
        start: &'doc SelectionSet,
        fragments: &'doc FragmentMap,
    ) -> Walk<'doc>
        ensures { walk_state result ≡ at_start nested (fragments_tree fragments.now) (typed_set_tree start.now) }
    {
        Walk {
            nested,
            fragments,
            ty: &start.ty,
            front: start.selections.as_slice(),
            outer: Vec::new(alloc),
            noted: IndexSet::new(alloc),
            entered: 0,
        }
    }

    /// Takes the next selection of the sets that are not passed to their ends.
    fn take_first(&mut self) -> Option<(&'doc NamedType, &'doc Selection)>
        ensures { MatchOption result (HadNothing self.old self.new) (λ e. walk_state self.old ≡ with_next (lent_member e) (walk_state self.new)) }
    {
        loop {
            if let Some((first, others)) = self.front.split_first() {
                self.front = others;
                return Some((self.ty, first));
            }
            let (ty, front) = self.outer.pop()?;
            self.ty = ty;
            self.front = front;
        }
    }

    /// Continues with the selections of this set, before all others.
    fn descend(&mut self, set: &'doc SelectionSet) -> Result<(), AllocError>
        ensures { OnOk result (walk_state self.new ≡ with_more (own_members (typed_set_tree set.now)) (walk_state self.old)) }
    {
        self.outer.push((self.ty, self.front))?;
        self.ty = &set.ty;
        self.front = set.selections.as_slice();
        Ok(())
    }

    /// Notes the fragment of this name, if there is one and it is not noted yet.
    fn note(&mut self, name: &Name) -> Result<(), AllocError>
        ensures { OnOk result (walk_state self.new ≡ with_name name.now.text (walk_state self.old)) }
    {
        if let Some(place) = self.fragments.get_index_of(name) {
            self.noted.insert(place)?;
        }
        Ok(())
    }

    /// Continues with the selections of a field, if fields are entered.
    fn enter_field(&mut self, field: &'doc Node<Field>) -> Result<(), AllocError>
        ensures { OnOk result (walk_state self.new ≡ with_more (entered_members (walk_state self.old).nested field.now) (walk_state self.old)) }
    {
        if !self.nested {
            return Ok(());
        }
        self.descend(&field.content().selection_set)
    }

    /// Passes a selection: continues with what is within it, or notes what it spreads.
    fn pass(&mut self, ty: &NamedType, selection: &'doc Selection) -> Result<(), AllocError>
        ensures { OnOk result (HasPassed (name_tree ty.now, typed_selection_tree selection.now) (walk_state self.old) (walk_state self.new)) }
    {
        match selection {
            Selection::Field(field) => self.enter_field(field),
            Selection::FragmentSpread(spread) => {
                self.note(&spread.content().fragment_name)?;
                Ok(())
            }
            Selection::InlineFragment(inline) => self.descend(&inline.content().selection_set),
        }
    }

    /// Continues with the next fragment that is noted and not entered, if there is one. No more are entered than the
    /// document has.
    fn enter_fragment(&mut self) -> bool
        requires { (walk_state self.old).pending ≡ [] }
        ensures { MatchBool result (HasEntered (walk_state self.old) (walk_state self.new)) (left_in self.old ≡ []) }
    {
        // Implied by the next test, as no fragment is noted twice; it is tested here so that the proof has a bound of the walk.
        if self.entered >= self.fragments.len() {
            return false;
        }
        let Some(place) = self.noted.get_index(self.entered) else {
            return false;
        };
        self.entered += 1;
        if let Some((_, fragment)) = self.fragments.get_index(*place) {
            let set = &fragment.content().selection_set;
            self.ty = &set.ty;
            self.front = set.selections.as_slice();
        }
        true
    }

    /// The next selection, with the type of its set.
    pub(crate) fn next_member(
        &mut self,
    ) -> Result<Option<(&'doc NamedType, &'doc Selection)>, AllocError>
        ensures { IfOk result (λ member. MatchOption member (left_in self.old ≡ []) (λ e. left_in self.old ≡ lent_member e ∷ left_in self.new)) }
    {
        loop {
            match self.take_first() {
                Some((ty, selection)) => {
                    self.pass(ty, selection)?;
                    return Ok(Some((ty, selection)));
                }
                None if self.enter_fragment() => {}
                None => return Ok(None),
            }
        }
    }
}
