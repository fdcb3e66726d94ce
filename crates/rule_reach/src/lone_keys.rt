//! The response keys in each set that an operation leads to.
ghost use Rattle.std.specs.Prelude.{◌≡◌, ◌↔◌, ◌++◌, ◌∷◌, [], false, IfOk, OnOk, IsTrue};
ghost use Rattle.graphql_names.specs.Placed.{name_tree};
ghost use Rattle.document_typed_selections.specs.TypedTree.{typed_selection_tree, typed_set_tree};
ghost use Rattle.document_typed_selections.specs.TypedParts.{typed_field_node};
ghost use Rattle.spec_document.specs.MeantTree.{meant_of_set};
ghost use Rattle.document_typed_operations.specs.Left.{own_members};
ghost use Rattle.rule_reach.specs.Fields.{field_of};
ghost use Rattle.rule_reach.specs.in_typed_operations.DocumentView.{document_meant};
ghost use Rattle.rule_document_definitions.specs.Selected.{response_key};
ghost use Rattle.rule_document_definitions.specs.ReadFields.{fragments_read, set_read};
ghost use Rattle.rule_reach.specs.LoneKeys.{AreKeysLone};
ghost use Rattle.rule_reach.specs.Passed.{read_of_set, sets_read, passed_fields, map_read, members_left, LacksKey, AddsSet, LeavesFragment, state_of, with_left, GoesOn, IsPassed, PassesSet, LeadsToLoneKeys};

use crate::field_selection::FieldSelection;
use document_typed_operations::{ExecutableDocument, FragmentMap};
use document_typed_selections::{Field, Selection, SelectionSet};
use graphql_names::{Name, Node};
use std::alloc::{AllocError, Global};
use std::mem;
use tree_literals::NamedType;

/// How many levels of fields are looked at.
const LEVELS: usize = 128;

/// How many fields a set may select, through fragments: each is compared with each.
const FIELDS: usize = 64;

/// How many selections are visited in all.
const STEPS: usize = 2_000;

/// A walk over the sets of an operation, in which each spread of a fragment is walked as if the fragment were written there.
#[derive(Drop)]
struct KeyWalk<'doc> {
    /// How many selections may still be visited.
    steps: usize,
    /// The fields visited in the current set.
    fields: Vec<FieldSelection<'doc>>,
    /// The selections of the current set that are still to be visited, in any order.
    left: Vec<(&'doc NamedType, &'doc Selection)>,
}

/// Adds the selections of a set to those still to be visited.
fn push_selections<'doc>(
    set: &'doc SelectionSet,
    left: &mut Vec<(&'doc NamedType, &'doc Selection)>,
) -> Result<(), AllocError>
    ensures { OnOk result (members_left left.new.items ≡ members_left left.old.items ++ own_members (typed_set_tree set.now)) }
{
    for selection in &set.selections {
        left.push((&set.ty, selection))?;
    }
    Ok(())
}

/// Adds the set of a field to the next level, unless it has no selections.
fn push_set<'doc>(
    set: &'doc SelectionSet,
    next: &mut Vec<&'doc SelectionSet>,
) -> Result<(), AllocError>
    ensures { OnOk result (AddsSet (read_of_set set.now) (sets_read next.old.items) (sets_read next.new.items)) }
{
    if set.is_empty() {
        return Ok(());
    }
    next.push(set)?;
    Ok(())
}

/// Adds the selections of the fragment of this name, if there is one, to those still to be visited.
fn push_fragment<'doc>(
    fragments: &'doc FragmentMap,
    name: &Name,
    left: &mut Vec<(&'doc NamedType, &'doc Selection)>,
) -> Result<(), AllocError>
    ensures { OnOk result (LeavesFragment (map_read fragments.now) name.now.text (members_left left.old.items) (members_left left.new.items)) }
{
    match fragments.get(name) {
        None => Ok(()),
        Some(fragment) => push_selections(&fragment.content().selection_set, left),
    }
}

/// Whether the field has this response key.
fn is_under(field: FieldSelection<'_>, key: &Name) -> bool
    ensures { IsTrue result ↔ (response_key (field_of field.entry) ≡ key.now.text) }
{
    field.response_key().as_str() == key.as_str()
}

impl<'doc> KeyWalk<'doc> {
    /// Whether one of the fields has this response key.
    fn has_key(&self, key: &Name) -> bool
        ensures { result ≡ false → LacksKey (passed_fields self.now.fields.items) key.now.text }
    {
        for field in &self.fields {
            if is_under(*field, key) {
                return true;
            }
        }
        false
    }

    /// Adds a field, and its set to the next level. Answers no if its response key is there, or if there are too many fields.
    fn pass_field(
        &mut self,
        ty: &'doc NamedType,
        field: &'doc Node<Field>,
        next: &mut Vec<&'doc SelectionSet>,
    ) -> Result<bool, AllocError>
        ensures steps { self.new.steps ≡ self.old.steps }
        ensures went { IfOk result (λ went. IsTrue went → (fragments : _) → GoesOn fragments (with_left (name_tree ty.now, typed_field_node field.now) (state_of self.old next.old.items)) (state_of self.new next.new.items)) }
    {
        let parent_type = ty;
        let selection = FieldSelection { parent_type, field };
        if self.fields.len() >= FIELDS {
            return Ok(false);
        }
        if self.has_key(selection.response_key()) {
            return Ok(false);
        }
        self.fields.push(selection)?;
        push_set(&field.content().selection_set, next)?;
        Ok(true)
    }

    /// Visits a selection: a field, a spread or an inline fragment.
    fn pass(
        &mut self,
        fragments: &'doc FragmentMap,
        ty: &'doc NamedType,
        selection: &'doc Selection,
        next: &mut Vec<&'doc SelectionSet>,
    ) -> Result<bool, AllocError>
        ensures steps { self.new.steps ≡ self.old.steps }
        ensures went { IfOk result (λ went. IsTrue went → GoesOn (map_read fragments.now) (with_left (name_tree ty.now, typed_selection_tree selection.now) (state_of self.old next.old.items)) (state_of self.new next.new.items)) }
    {
        match selection {
            Selection::Field(field) => self.pass_field(ty, field, next),
            Selection::FragmentSpread(spread) => {
                push_fragment(fragments, &spread.content().fragment_name, &mut self.left)?;
                Ok(true)
            }
            Selection::InlineFragment(inline) => {
                push_selections(&inline.content().selection_set, &mut self.left)?;
                Ok(true)
            }
        }
    }

    /// Visits all that a set selects. Answers no if a response key comes twice, or too much is selected.
    fn pass_set(
        &mut self,
        fragments: &'doc FragmentMap,
        set: &'doc SelectionSet,
        next: &mut Vec<&'doc SelectionSet>,
    ) -> Result<bool, AllocError>
        ensures { IfOk result (λ went. IsTrue went → PassesSet (map_read fragments.now) (read_of_set set.now) (sets_read next.old.items) (sets_read next.new.items)) }
    {
        self.fields.clear();
        self.left.clear();
        push_selections(set, &mut self.left)?;
        while let Some((ty, selection)) = self.left.pop() {
            if self.steps == 0 {
                return Ok(false);
            }
            self.steps -= 1;
            let passed = self.pass(fragments, ty, selection, next)?;
            if !passed {
                return Ok(false);
            }
        }
        Ok(true)
    }

    /// Visits the sets of a level, and adds those of the next one. Answers no if a response key comes twice, or too much is
    /// selected.
    // By index, since the borrow checker has no rule for lending such a list as a slice.
    fn pass_level(
        &mut self,
        fragments: &'doc FragmentMap,
        level: &Vec<&'doc SelectionSet>,
        next: &mut Vec<&'doc SelectionSet>,
    ) -> Result<bool, AllocError>
        ensures { IfOk result (λ went. IsTrue went → IsPassed (map_read fragments.now) (sets_read level.now.items) (sets_read next.new.items)) }
    {
        for index in 0..level.len() {
            let set = level[index];
            let passed = self.pass_set(fragments, set, next)?;
            if !passed {
                return Ok(false);
            }
        }
        Ok(true)
    }

    /// Visits the sets of a level, and level by level the sets of their fields. Answers no if a response key comes twice, or
    /// too much is selected.
    fn pass_levels(
        &mut self,
        fragments: &'doc FragmentMap,
        level: &mut Vec<&'doc SelectionSet>,
        next: &mut Vec<&'doc SelectionSet>,
    ) -> Result<bool, AllocError>
        ensures { IfOk result (λ differ. IsTrue differ → LeadsToLoneKeys (map_read fragments.now) (sets_read level.old.items)) }
    {
        for _ in 0..LEVELS {
            if level.is_empty() {
                return Ok(true);
            }
            let passed = self.pass_level(fragments, level, next)?;
            if !passed {
                return Ok(false);
            }
            mem::swap(level, next);
            next.clear();
        }
        Ok(level.is_empty())
    }
}

/// The first level: the set alone.
fn first_level<'doc>(
    alloc: Global,
    set: &'doc SelectionSet,
) -> Result<Vec<&'doc SelectionSet>, AllocError>
    ensures { IfOk result (λ level. sets_read level.items ≡ read_of_set set.now ∷ []) }
{
    let mut level = Vec::new(alloc);
    level.push(set)?;
    Ok(level)
}

/// Does the rest of a walk, from a level on.
// It owns the lists, so that all of them have one lifetime: the borrow checker does not find it where they are made.
fn do_walk<'doc>(
    mut walk: KeyWalk<'doc>,
    fragments: &'doc FragmentMap,
    mut level: Vec<&'doc SelectionSet>,
    mut next: Vec<&'doc SelectionSet>,
) -> Result<bool, AllocError>
    ensures { IfOk result (λ differ. IsTrue differ → LeadsToLoneKeys (map_read fragments.now) (sets_read level.entry.items)) }
{
    walk.pass_levels(fragments, &mut level, &mut next)
}

/// Whether each response key is that of one field: in the set, through fragments, and in the set of each field that it
/// selects, at any depth. A no tells nothing: it is also the answer if a set has more than 64 fields, or more than 128
/// levels or 2,000 selections are visited.
pub fn keys_differ(
    alloc: Global,
    document: &ExecutableDocument,
    set: &SelectionSet,
) -> Result<bool, AllocError>
    ensures { IfOk result (λ differ. IsTrue differ → AreKeysLone (fragments_read (document_meant document.now)) (set_read (meant_of_set (typed_set_tree set.now)))) }
{
    let walk = KeyWalk {
        steps: STEPS,
        fields: Vec::new(alloc),
        left: Vec::new(alloc),
    };
    let level = first_level(alloc, set)?;
    let next = Vec::new(alloc);
    do_walk(walk, &document.fragments, level, next)
}
