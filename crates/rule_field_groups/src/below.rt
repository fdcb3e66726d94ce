//! The sets of a group of fields.
ghost use Rattle.std.specs.Prelude.{◌≡◌, ◌++◌, ◌∷◌, [], map, option_to_list, Contains, IfOk, OnOk};
ghost use Rattle.rule_field_sets.specs.Nodes.{AreSets, HasMember};
ghost use Rattle.list_interner.specs.NumberRows.{rows_of};
ghost use Rattle.rule_field_groups.specs.Members.{field_of, fields_of, meant_sets, AreMembersOf};
ghost use Rattle.rule_field_groups.specs.Below.{AreSetsOf, NotesSet};
ghost use Rattle.rule_field_groups.specs.Under.{sets_in, each_with, AddsBelow, AreFurther, AddsFurther, JoinsSets, JoinsTwos, PutsTogether, JoinsEach, AreNumbered, AddsNode, IsGroupOf};
ghost use Rattle.rule_field_groups.specs.KeyGroups.{parts_of};

use crate::groups::KeyGroup;
use crate::nodes::number_of;
use indexmap::IndexSet;
use list_interner::NumberRows;
use rule_field_sets::{FieldSets, Member};
use std::alloc::{AllocError, Global};

/// A list of the shared sets and the others is made whole if it is for so few types, or if the shared sets are at most so
/// many times as many as the others: so the lists for a group are in all not much longer than the group is.
const FEW: usize = 4;

/// Sets of fields, each number once, by their nodes.
#[derive(Drop)]
pub(crate) struct SetsBelow {
    numbers: IndexSet<usize>,
    nodes: Vec<usize>,
}

impl SetsBelow {
    /// No sets.
    fn new(alloc: Global) -> SetsBelow
        ensures numbers { result.numbers.keys ≡ [] }
        ensures nodes { result.nodes.items ≡ [] }
    {
        SetsBelow {
            numbers: IndexSet::new(alloc),
            nodes: Vec::new(alloc),
        }
    }

    /// Adds the set of a node, unless its number is there.
    fn add(&mut self, number: usize, node: usize) -> Result<(), AllocError>
        ensures { OnOk result (AddsNode number node self.old self.new) }
    {
        if !self.numbers.insert(number)? {
            return Ok(());
        }
        self.nodes.push(node)?;
        Ok(())
    }
}

/// Adds the set of a field, unless it has no selections, or one with the same contents is there.
fn note_set(
    sets: &FieldSets<'_>,
    field: Member<'_>,
    found: &mut SetsBelow,
) -> Result<(), AllocError>
    requires sets { AreSets sets.now }
    requires member { HasMember sets.now field }
    requires numbered { AreNumbered sets.now found.old }
    ensures notes { OnOk result (NotesSet (field_of field.entry) (meant_sets sets.now found.old.nodes.items) (meant_sets sets.now found.new.nodes.items)) }
    ensures numbered { OnOk result (AreNumbered sets.now found.new) }
{
    match field.below {
        None => Ok(()),
        Some(node) => found.add(number_of(sets, node)?, node),
    }
}

/// The sets of these fields, each content once. A set without selections is left out.
fn sets_of(
    alloc: Global,
    sets: &FieldSets<'_>,
    fields: &[Member<'_>],
) -> Result<SetsBelow, AllocError>
    requires sets { AreSets sets.now }
    requires members { AreMembersOf sets.now fields.now }
    ensures sets { IfOk result (λ found. AreSetsOf (fields_of fields.now) (meant_sets sets.now found.nodes.items)) }
    ensures numbered { IfOk result (λ found. AreNumbered sets.now found) }
{
    let mut found = SetsBelow::new(alloc);
    for field in fields {
        note_set(sets, *field, &mut found)?;
    }
    Ok(found)
}

/// Adds the set of a field, unless it has no selections, or one with the same contents is there or among the others.
fn note_further(
    sets: &FieldSets<'_>,
    field: Member<'_>,
    others: &SetsBelow,
    found: &mut SetsBelow,
) -> Result<(), AllocError>
    requires sets { AreSets sets.now }
    requires member { HasMember sets.now field }
    requires others { AreNumbered sets.now others.now }
    requires numbered { AreNumbered sets.now found.old }
    ensures notes { OnOk result (AddsFurther (field_of field.entry) (meant_sets sets.now others.now.nodes.items) (meant_sets sets.now found.old.nodes.items) (meant_sets sets.now found.new.nodes.items)) }
    ensures numbered { OnOk result (AreNumbered sets.now found.new) }
{
    let Some(node) = field.below else {
        return Ok(());
    };
    let number = number_of(sets, node)?;
    if others.numbers.contains(&number) {
        return Ok(());
    }
    found.add(number, node)
}

/// The nodes of the sets of these fields that the others do not have, each content once.
fn further_sets(
    alloc: Global,
    sets: &FieldSets<'_>,
    fields: &[Member<'_>],
    others: &SetsBelow,
) -> Result<Vec<usize>, AllocError>
    requires sets { AreSets sets.now }
    requires members { AreMembersOf sets.now fields.now }
    requires others { AreNumbered sets.now others.now }
    ensures { IfOk result (λ nodes. AreFurther (fields_of fields.now) (meant_sets sets.now others.now.nodes.items) (meant_sets sets.now nodes.items)) }
{
    let mut found = SetsBelow::new(alloc);
    for field in fields {
        note_further(sets, *field, others, &mut found)?;
    }
    Ok(found.nodes)
}

/// Adds a list of the first nodes and then the further ones, unless there are no further ones.
fn push_joined(first: &[usize], further: &[usize], lists: &mut NumberRows) -> Result<(), AllocError>
    ensures { OnOk result (JoinsSets first.now further.now (rows_of lists.old) (rows_of lists.new)) }
{
    if further.is_empty() {
        return Ok(());
    }
    lists.push(first, further)
}

/// Adds a list of two for each of the nodes: the node and the last one.
fn push_each_with(nodes: &[usize], last: usize, lists: &mut NumberRows) -> Result<(), AllocError>
    ensures { OnOk result (rows_of lists.new ≡ rows_of lists.old ++ each_with nodes.now last) }
{
    for node in nodes {
        lists.push_two(*node, last)?;
    }
    Ok(())
}

/// Adds a list of the further nodes, unless there are none, and lists of two: each of the first nodes with each of these.
fn push_apart(first: &[usize], further: &[usize], lists: &mut NumberRows) -> Result<(), AllocError>
    ensures { OnOk result (JoinsTwos first.now further.now (rows_of lists.old) (rows_of lists.new)) }
{
    push_joined(&[], further, lists)?;
    for node in further {
        push_each_with(first, *node, lists)?;
    }
    Ok(())
}

/// Whether the first sets are in one list with the further ones, if there are lists for so many types.
fn is_short(types: usize, first: usize, further: usize) -> bool {
    types <= FEW || first / FEW <= further
}

/// Adds lists of the first nodes and the further ones, for one of so many types: one of the lists has any two of them, if
/// one of these is a further one.
fn push_together(
    types: usize,
    first: &[usize],
    further: &[usize],
    lists: &mut NumberRows,
) -> Result<(), AllocError>
    ensures { OnOk result (PutsTogether first.now further.now (rows_of lists.old) (rows_of lists.new)) }
{
    if is_short(types, first.len(), further.len()) {
        return push_joined(first, further, lists);
    }
    push_apart(first, further, lists)
}

/// For each object type, adds lists of the shared sets and the further ones of its fields. A type without further ones gets none.
fn push_own_lists(
    alloc: Global,
    sets: &FieldSets<'_>,
    owns: &[Vec<Member<'_>>],
    shared: &SetsBelow,
    lists: &mut NumberRows,
) -> Result<(), AllocError>
    requires sets { AreSets sets.now }
    requires members { (own : _) → Contains (map (λ o. o.items) owns.now) own → AreMembersOf sets.now own }
    requires shared { AreNumbered sets.now shared.now }
    ensures { OnOk result (JoinsEach (meant_sets sets.now shared.now.nodes.items) (map (λ o. fields_of o.items) owns.now) (sets_in sets.now lists.old) (sets_in sets.now lists.new)) }
{
    for own in owns {
        let nodes = further_sets(alloc, sets, own, shared)?;
        push_together(owns.len(), &shared.nodes, &nodes, lists)?;
    }
    Ok(())
}

/// Adds the lists of nodes for the sets of fields of one key: a list of the shared sets, and for each object type these and
/// its own, in one list or in lists of two. For any two fields that go together, one of the lists has the sets of both.
pub fn push_lists_below(
    alloc: Global,
    sets: &FieldSets<'_>,
    group: &KeyGroup<'_>,
    lists: &mut NumberRows,
) -> Result<(), AllocError>
    requires sets { AreSets sets.now }
    requires members { IsGroupOf sets.now group.now }
    ensures { OnOk result (AddsBelow (map fields_of (parts_of group.now)) (sets_in sets.now lists.old) (sets_in sets.now lists.new)) }
{
    let shared = sets_of(alloc, sets, &group.shared)?;
    push_joined(&[], &shared.nodes, lists)?;
    push_own_lists(alloc, sets, &group.own, &shared, lists)
}

/// Adds the node of a field's set, unless the set has no selections, or the same contents as that of the first node.
fn note_node(
    sets: &FieldSets<'_>,
    field: Member<'_>,
    nodes: &mut Vec<usize>,
) -> Result<(), AllocError>
    requires sets { AreSets sets.now }
    requires member { HasMember sets.now field }
    ensures { OnOk result (NotesSet (field_of field.entry) (meant_sets sets.now nodes.old.items) (meant_sets sets.now nodes.new.items)) }
{
    let Some(node) = field.below else {
        return Ok(());
    };
    if let Some(first) = nodes.first() {
        let noted = number_of(sets, *first)?;
        if number_of(sets, node)? == noted {
            return Ok(());
        }
    }
    nodes.push(node)?;
    Ok(())
}

/// Adds a list of one node, if it is there.
fn push_node(node: Option<usize>, lists: &mut NumberRows) -> Result<(), AllocError>
    ensures { OnOk result (JoinsSets [] (option_to_list node) (rows_of lists.old) (rows_of lists.new)) }
{
    match node {
        None => Ok(()),
        Some(node) => lists.push(&[node], &[]),
    }
}

/// Adds a list of the sets of two fields that go together, unless neither has selections.
fn push_below_two(
    sets: &FieldSets<'_>,
    one: &Member<'_>,
    other: &Member<'_>,
    lists: &mut NumberRows,
) -> Result<(), AllocError>
    requires sets { AreSets sets.now }
    requires one { HasMember sets.now one.now }
    requires other { HasMember sets.now other.now }
    ensures { OnOk result (AddsBelow (fields_of (one.now ∷ other.now ∷ []) ∷ []) (sets_in sets.now lists.old) (sets_in sets.now lists.new)) }
{
    let Some(first) = one.below else {
        return push_node(other.below, lists);
    };
    let Some(second) = other.below else {
        return push_node(one.below, lists);
    };
    let noted = number_of(sets, first)?;
    if number_of(sets, second)? == noted {
        return push_node(one.below, lists);
    }
    lists.push_two(first, second)
}

/// Adds a list of the sets of a few fields that go together, unless none of them has selections. No index is made.
pub fn push_below(
    alloc: Global,
    sets: &FieldSets<'_>,
    fields: &[Member<'_>],
    lists: &mut NumberRows,
) -> Result<(), AllocError>
    requires sets { AreSets sets.now }
    requires members { AreMembersOf sets.now fields.now }
    ensures { OnOk result (AddsBelow (fields_of fields.now ∷ []) (sets_in sets.now lists.old) (sets_in sets.now lists.new)) }
{
    // Most lists are of two fields, which need no list of nodes.
    if fields.len() == 2 {
        return push_below_two(sets, &fields[0], &fields[1], lists);
    }
    let mut nodes = Vec::new(alloc);
    for field in fields {
        note_node(sets, *field, &mut nodes)?;
    }
    push_joined(&[], &nodes, lists)
}
