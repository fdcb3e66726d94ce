//! The sets that are found within a set, before they have numbers.
ghost use Rattle.std.specs.Prelude.{◌≡◌, ◌++◌, [], map, length, false, IfOk, OnOk};
ghost use Rattle.graphql_names.specs.Placed.{name_tree};
ghost use Rattle.document_typed_selections.specs.TypedTree.{typed_selection_tree, typed_set_tree};
ghost use Rattle.document_typed_operations.specs.Reached.{members_in};
ghost use Rattle.document_typed_operations.specs.Left.{note};
ghost use Rattle.document_typed_operations.specs.WalkView.{fragments_tree};
ghost use Rattle.rule_field_sets.specs.Found.{AreFound, ArePlaces, texts_of};
ghost use Rattle.rule_field_sets.specs.Opened.{left_of, typed_sets, place_for, own_set, state_of, passed, with_set, begun, with_field, GoesOn};

use document_typed_operations::FragmentMap;
use document_typed_selections::{Field, Selection, SelectionSet};
use graphql_names::{Name, Node};
use indexmap::IndexSet;
use rule_reach::FieldSelection;
use std::alloc::{AllocError, Global};
use tree_literals::NamedType;

/// A field of a set that was found, and the index of its own set among the found sets, unless that has no selections.
#[derive(Clone, Copy)]
pub(crate) struct FoundField<'doc> {
    pub(crate) selection: FieldSelection<'doc>,
    pub(crate) below: Option<usize>,
}

/// A set that was found: its fields and those of its inline fragments, and the names of the fragments that these spread.
#[derive(Drop)]
pub(crate) struct FoundSet<'doc> {
    pub(crate) set: &'doc SelectionSet,
    pub(crate) fields: Vec<FoundField<'doc>>,
    pub(crate) spreads: Vec<&'doc Name>,
}

/// The sets that are found from one set on.
#[derive(Drop)]
struct Finding<'doc> {
    /// The set and the sets of fields within it, in the order in which they are found: each before those within it.
    sets: Vec<&'doc SelectionSet>,
    /// The selections still to be visited in the set that is being opened, the next one last.
    left: Vec<(&'doc NamedType, &'doc Selection)>,
}

/// Makes the selections of a set the next ones.
fn push_selections<'doc>(
    set: &'doc SelectionSet,
    left: &mut Vec<(&'doc NamedType, &'doc Selection)>,
) -> Result<(), AllocError>
    ensures { OnOk result (left_of left.new.items ≡ members_in false (typed_set_tree set.now) ++ left_of left.old.items) }
{
    for index in (0..set.selections.len()).rev() {
        left.push((&set.ty, &set.selections[index]))?;
    }
    Ok(())
}

/// Adds a field's set to the sets that are to be opened, unless it has no selections, and returns its index.
fn place_below<'doc>(
    set: &'doc SelectionSet,
    sets: &mut Vec<&'doc SelectionSet>,
) -> Result<Option<usize>, AllocError>
    ensures place { IfOk result (λ below. below ≡ place_for (length (typed_sets sets.old.items)) (typed_set_tree set.now)) }
    ensures sets { OnOk result (typed_sets sets.new.items ≡ typed_sets sets.old.items ++ own_set (typed_set_tree set.now)) }
{
    if set.is_empty() {
        return Ok(None);
    }
    let place = sets.len();
    sets.push(set)?;
    Ok(Some(place))
}

impl<'doc> Finding<'doc> {
    /// Adds a field to a set that is being opened.
    fn push_field(
        &mut self,
        ty: &'doc NamedType,
        field: &'doc Node<Field>,
        found: &mut FoundSet<'doc>,
    ) -> Result<(), AllocError>
        ensures { OnOk result (state_of self.new found.new ≡ with_field (name_tree ty.now) field.now (state_of self.old found.old)) }
    {
        let below = place_below(&field.content().selection_set, &mut self.sets)?;
        let parent_type = ty;
        let selection = FieldSelection { parent_type, field };
        found.fields.push(FoundField { selection, below })?;
        Ok(())
    }

    /// Visits a selection: adds a field, notes a spread, or enters an inline fragment.
    fn pass(
        &mut self,
        ty: &'doc NamedType,
        selection: &'doc Selection,
        found: &mut FoundSet<'doc>,
    ) -> Result<(), AllocError>
        ensures { OnOk result (state_of self.new found.new ≡ passed (name_tree ty.now, typed_selection_tree selection.now) (state_of self.old found.old)) }
    {
        match selection {
            Selection::Field(field) => self.push_field(ty, field, found),
            Selection::FragmentSpread(spread) => {
                found.spreads.push(&spread.content().fragment_name)?;
                Ok(())
            }
            Selection::InlineFragment(inline) => {
                push_selections(&inline.content().selection_set, &mut self.left)
            }
        }
    }

    /// Visits the selections of a set and of its inline fragments, in the order of the text.
    fn pass_set(
        &mut self,
        set: &'doc SelectionSet,
        found: &mut FoundSet<'doc>,
    ) -> Result<(), AllocError>
        ensures { OnOk result (state_of self.new found.new ≡ with_set (typed_set_tree set.now) (state_of self.old found.old)) }
    {
        push_selections(set, &mut self.left)?;
        while let Some((ty, selection)) = self.left.pop() {
            self.pass(ty, selection, found)?;
        }
        Ok(())
    }

    /// Opens a set: finds what is written in it and in its inline fragments.
    fn open(&mut self, alloc: Global, set: &'doc SelectionSet) -> Result<FoundSet<'doc>, AllocError>
        ensures { IfOk result (λ found. state_of self.new found ≡ with_set (typed_set_tree set.now) (begun (typed_set_tree set.now) self.old)) }
    {
        let mut found = FoundSet {
            set,
            fields: Vec::new(alloc),
            spreads: Vec::new(alloc),
        };
        self.pass_set(set, &mut found)?;
        Ok(found)
    }

    /// Opens the sets that are to be opened, and those that are found meanwhile.
    fn open_all(&mut self, alloc: Global, found: &mut Vec<FoundSet<'doc>>) -> Result<(), AllocError>
        requires { left_of self.old.left.items ≡ [] }
        ensures { OnOk result (GoesOn self.old found.old.items found.new.items) }
    {
        while found.len() < self.sets.len() {
            let set = self.sets[found.len()];
            found.push(self.open(alloc, set)?)?;
        }
        Ok(())
    }
}

/// The set and all sets of fields within it, at any depth, each before those within it.
pub(crate) fn found_sets<'doc>(
    alloc: Global,
    set: &'doc SelectionSet,
) -> Result<Vec<FoundSet<'doc>>, AllocError>
    ensures { IfOk result (λ found. AreFound (typed_set_tree set.now) found.items) }
{
    let mut finding = Finding {
        sets: Vec::new(alloc),
        left: Vec::new(alloc),
    };
    finding.sets.push(set)?;
    let mut found = Vec::new(alloc);
    finding.open_all(alloc, &mut found)?;
    Ok(found)
}

/// Notes the index of the fragment of this name, if the document has one.
fn note_place(
    fragments: &FragmentMap,
    name: &Name,
    places: &mut IndexSet<usize>,
) -> Result<(), AllocError>
    ensures { OnOk result (places.new.keys ≡ note (fragments_tree fragments.now) places.old.keys name.now.text) }
{
    if let Some(place) = fragments.get_index_of(name) {
        places.insert(place)?;
    }
    Ok(())
}

/// The index of each of these fragments in the document, each once. Those that are not in the document are left out.
pub(crate) fn places_of(
    alloc: Global,
    fragments: &FragmentMap,
    names: &[&Name],
) -> Result<Vec<usize>, AllocError>
    ensures { IfOk result (λ places. ArePlaces (fragments_tree fragments.now) (texts_of names.now) places.items) }
{
    let mut places = IndexSet::new(alloc);
    for name in names {
        note_place(fragments, name, &mut places)?;
    }
    Vec::from_slice(alloc, places.as_slice())
}
