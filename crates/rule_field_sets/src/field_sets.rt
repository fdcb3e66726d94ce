//! The selection sets of a document as nodes.
ghost use Rattle.std.specs.Prelude.{◌≡◌, ◌<◌, ◌≤◌, ◌+◌, ◌++◌, ◌∷◌, [], ℕ, List, Some, None, MatchOption, Contains, slice_get, map, length, IfOk, OnOk, OnErr, option_map};
ghost use Rattle.rule_field_sets.specs.Numbered.{tables_of};
ghost use Rattle.graphql_names.specs.Placed.{Place};
ghost use Rattle.document_typed_selections.specs.TypedTree.{TypedSet, typed_set_tree};
ghost use Rattle.document_typed_operations.specs.WalkView.{fragments_tree};
ghost use Rattle.rule_field_sets.specs.Found.{set_of, set_at};
ghost use Rattle.rule_field_sets.specs.Nodes.{AreSets, SetsGrow, IsNodeOf, set_nodes, fragment_nodes, HasAllStarts};
ghost use Rattle.rule_field_sets.specs.Added.{OnlyNumbers, NodesGrow, IsFoundBelow, AreReadyBelow, IsReady, AreAllFound, HasAdded, selections_in_order, PassesField, PassesFields, IsFresh, IsSetBelow, node_at, with_new, AddsNode, IsNextFragment};

use crate::found::{FoundField, FoundSet, found_sets, places_of};
use crate::member::{Member, SetNode};
use crate::numbers::Numbers;
use document_typed_operations::FragmentMap;
use document_typed_selections::SelectionSet;
use graphql_schema::Schema;
use std::alloc::{AllocError, Global};

/// The fields of a node that is being added.
#[derive(Drop)]
pub(crate) struct NodeFields<'doc> {
    /// The fields of the node, each number once.
    members: Vec<Member<'doc>>,
    /// The numbers of all fields of the set, in the order of the text.
    numbers: Vec<usize>,
}

/// The sets of a document that have numbers, as nodes: a set has a node for each place where it is written. The nodes of
/// sets within a set come before it.
pub struct FieldSets<'doc> {
    alloc: Global,
    schema: &'doc Schema,
    fragments: &'doc FragmentMap,
    numbers: Numbers<'doc>,
    /// How many nodes were begun. A node for which memory was refused counts as begun, but is not among the nodes.
    begun: usize,
    nodes: Vec<SetNode<'doc>>,
    /// The nodes of the fragments, in the order of the document. There are none before the first set is added.
    starts: Vec<usize>,
}

impl Drop for FieldSets<'_> {
    fn drop(self) {
        let FieldSets {
            alloc: _,
            schema: _,
            fragments: _,
            numbers: _,
            begun: _,
            nodes: _,
            starts: _,
        } = self;
    }
}

/// The number of nodes that were begun, plus one. If that is no `usize`, it fails as if memory were refused.
fn one_more(begun: usize) -> Result<usize, AllocError>
    ensures { IfOk result (λ more. more ≡ begun + 1) }
{
    match begun.checked_add(1) {
        Some(more) => Ok(more),
        None => Err(AllocError),
    }
}

/// The node of a set within one that was found, by its index among the found sets. The first of these becomes the last node.
fn node_below(below: Option<usize>, last: usize) -> Option<usize>
    requires { MatchOption below (Unit {0}) (λ place. place ≤ last) }
    ensures { result ≡ node_at last below }
{
    match below {
        Some(place) => Some(last - place),
        None => None,
    }
}

/// Adds a member, unless its number is there already.
fn push_new<'doc>(
    members: &mut Vec<Member<'doc>>,
    member: Member<'doc>,
    is_repeated: bool,
) -> Result<(), AllocError>
    ensures { OnOk result (members.new.items ≡ with_new is_repeated member.entry members.old.items) }
{
    if is_repeated {
        return Ok(());
    }
    members.push(member)?;
    Ok(())
}

impl<'doc> NodeFields<'doc> {
    /// Adds a field; it becomes a member too unless its number is there already.
    fn add(&mut self, member: Member<'doc>, is_repeated: bool) -> Result<(), AllocError>
        ensures numbers { OnOk result (self.new.numbers.items ≡ self.old.numbers.items ++ member.entry.number ∷ []) }
        ensures members { OnOk result (self.new.members.items ≡ with_new is_repeated member.entry self.old.members.items) }
    {
        self.numbers.push(member.number)?;
        push_new(&mut self.members, member, is_repeated)
    }
}

impl<'doc> FieldSets<'doc> {
    /// No nodes, of a document with these fragments.
    pub fn new(alloc: Global, schema: &'doc Schema, fragments: &'doc FragmentMap) -> FieldSets<'doc>
        ensures sets { AreSets result }
        ensures schema { result.schema ≡ schema.entry }
        ensures fragments { result.fragments ≡ fragments.entry }
        ensures nodes { set_nodes result ≡ [] }
        ensures starts { fragment_nodes result ≡ [] }
    {
        FieldSets {
            alloc,
            schema,
            fragments,
            numbers: Numbers::new(alloc),
            begun: 0,
            nodes: Vec::new(alloc),
            starts: Vec::new(alloc),
        }
    }

    /// The schema that types are judged by.
    pub fn schema(&self) -> &'doc Schema
        ensures { result ≡ self.now.schema }
    {
        self.schema
    }

    /// The fragments of the document.
    pub fn fragments(&self) -> &'doc FragmentMap
        ensures { result ≡ self.now.fragments }
    {
        self.fragments
    }

    /// How many nodes there are.
    pub fn len(&self) -> usize
        ensures { result ≡ length (set_nodes self.now) }
    {
        self.nodes.len()
    }

    /// A node.
    pub fn node(&self, node: usize) -> &SetNode<'doc>
        requires { node < length (set_nodes self.now) }
        ensures { slice_get (set_nodes self.now) node ≡ Some result.now }
    {
        &self.nodes[node]
    }

    /// The node at an index, if there is one.
    pub fn get(&self, node: usize) -> Option<&SetNode<'doc>>
        ensures { option_map (λ v. v.now) result ≡ slice_get (set_nodes self.now) node }
    {
        self.nodes.get(node)
    }

    /// The node of the fragment at an index in the document, if it has one.
    pub fn fragment(&self, fragment: usize) -> Option<usize>
        ensures { result ≡ slice_get (fragment_nodes self.now) fragment }
    {
        match self.starts.get(fragment) {
            Some(start) => Some(*start),
            None => None,
        }
    }

    /// How many different numbers fields have, and how many sets have.
    pub fn counts(&self) -> (usize, usize)
        ensures fields { result.0 ≡ length (tables_of self.now.numbers).fields }
        ensures sets { result.1 ≡ length (tables_of self.now.numbers).sets }
    {
        self.numbers.counts()
    }

    /// The node of a fragment, by its index in the document.
    pub fn start(&self, fragment: usize) -> usize
        requires { fragment < length (fragment_nodes self.now) }
        ensures { slice_get (fragment_nodes self.now) fragment ≡ Some result }
    {
        self.starts[fragment]
    }

    /// The number of the set of this node, if there is one.
    fn number_below(&self, below: Option<usize>) -> Option<usize>
        requires { MatchOption below (Unit {0}) (λ node. node < length self.now.nodes.items) }
        ensures { IsSetBelow self.now.nodes.items below result }
    {
        match below {
            Some(node) => Some(self.nodes[node].number),
            None => None,
        }
    }

    /// Adds a field of a set that was found to the node that is being added. The first set that was found becomes the last node.
    fn add_field(
        &mut self,
        field: FoundField<'doc>,
        last: usize,
        fields: &mut NodeFields<'doc>,
    ) -> Result<(), AllocError>
        requires sets { AreSets self.old }
        requires below { IsFoundBelow self.old.nodes.items last (set_of field) field.below }
        ensures sets { AreSets self.new }
        ensures same { OnlyNumbers self.old self.new }
        ensures added { OnOk result (PassesField self.old fields.old field.entry.selection self.new fields.new) }
    {
        let below = node_below(field.below, last);
        let set = self.number_below(below);
        let selection = field.selection;
        let (member, is_repeated) = self
            .numbers
            .add_field(self.schema, selection, set, below, self.begun)?;
        fields.add(member, is_repeated)
    }

    /// Adds the fields of a set that was found, in the order of the text.
    fn add_each(
        &mut self,
        found: &[FoundField<'doc>],
        last: usize,
        fields: &mut NodeFields<'doc>,
    ) -> Result<(), AllocError>
        requires sets { AreSets self.old }
        requires below { AreReadyBelow self.old.nodes.items last found.now }
        ensures sets { AreSets self.new }
        ensures same { OnlyNumbers self.old self.new }
        ensures added { OnOk result (PassesFields self.old fields.old found.now self.new fields.new) }
    {
        for field in found {
            self.add_field(*field, last, fields)?;
        }
        Ok(())
    }

    /// The fields of a found set, for a node in which no field was met yet.
    fn fields_of(
        &mut self,
        found: &[FoundField<'doc>],
        last: usize,
    ) -> Result<NodeFields<'doc>, AllocError>
        requires sets { AreSets self.old }
        requires below { AreReadyBelow self.old.nodes.items last found.now }
        requires fresh { IsFresh self.old }
        ensures sets { AreSets self.new }
        ensures same { OnlyNumbers self.old self.new }
        ensures added { IfOk result (λ fields. HasAdded self.new (selections_in_order found.now) fields) }
    {
        let mut fields = NodeFields {
            members: Vec::new(self.alloc),
            numbers: Vec::new(self.alloc),
        };
        self.add_each(found, last, &mut fields)?;
        Ok(fields)
    }

    /// Adds the node of a set that was found. The nodes of sets within it are there already.
    fn add_node(&mut self, found: FoundSet<'doc>, last: usize) -> Result<(), AllocError>
        requires sets { AreSets self.old }
        requires ready { IsReady self.old.nodes.items last found }
        ensures sets { AreSets self.new }
        ensures grown { NodesGrow self.old self.new }
        ensures node { OnOk result (AddsNode self.old (set_at found.entry) self.new) }
    {
        let begun = one_more(self.begun)?;
        self.begun = begun;
        let fields = self.fields_of(&found.fields, last)?;
        let spreads = places_of(self.alloc, self.fragments, &found.spreads)?;
        let NodeFields { members, numbers } = fields;
        let FoundSet {
            set,
            fields: _,
            spreads: names,
        } = found;
        let number = self.numbers.set_number(numbers, names, set)?;
        self.nodes.push(SetNode {
            set,
            number,
            members,
            spreads,
        })?;
        Ok(())
    }

    /// Adds the nodes of the sets that were found, the last one first. The first of them becomes the last node.
    fn add_found(&mut self, found: &mut Vec<FoundSet<'doc>>, last: usize) -> Result<(), AllocError>
        requires sets { AreSets self.old }
        requires found { AreAllFound found.old.items }
        requires last { last + 1 ≡ length self.old.nodes.items + length found.old.items }
        ensures sets { AreSets self.new }
        ensures grown { NodesGrow self.old self.new }
        ensures node { OnOk result (MatchOption (slice_get found.old.items 0) (Unit {0}) (λ v. IsNodeOf self.new.nodes.items last (set_at v))) }
    {
        while let Some(next) = found.pop() {
            self.add_node(next, last)?;
        }
        Ok(())
    }

    /// Adds the nodes of a set and of all sets within it. That of the set is the last.
    fn add_nodes(&mut self, set: &'doc SelectionSet) -> Result<usize, AllocError>
        requires sets { AreSets self.old }
        ensures sets { AreSets self.new }
        ensures grown { NodesGrow self.old self.new }
        ensures node { IfOk result (λ n. IsNodeOf self.new.nodes.items n (typed_set_tree set.now)) }
    {
        let mut found = found_sets(self.alloc, set)?;
        let last = self.nodes.len() + (found.len() - 1);
        self.add_found(&mut found, last)?;
        Ok(last)
    }

    /// Adds the nodes of the next fragment, whose set this is.
    fn add_fragment(&mut self, set: &'doc SelectionSet) -> Result<(), AllocError>
        requires sets { AreSets self.old }
        requires fragment { IsNextFragment self.old (typed_set_tree set.now) }
        ensures sets { AreSets self.new }
        ensures grown { SetsGrow self.old self.new }
        ensures more { OnOk result (length self.new.starts.items ≡ length self.old.starts.items + 1) }
    {
        let start = self.add_nodes(set)?;
        self.starts.push(start)?;
        Ok(())
    }

    /// Adds the nodes of the fragments that have none.
    fn add_fragments(&mut self) -> Result<(), AllocError>
        requires sets { AreSets self.old }
        ensures sets { AreSets self.new }
        ensures grown { SetsGrow self.old self.new }
        ensures starts { OnOk result (HasAllStarts self.new) }
    {
        let fragments = self.fragments;
        while let Some((_, fragment)) = fragments.get_index(self.starts.len()) {
            self.add_fragment(&fragment.content().selection_set)?;
        }
        Ok(())
    }

    /// Adds the nodes of a set and of all sets within it, and returns its own. The first call adds the nodes of all
    /// fragments too.
    pub fn add_set(&mut self, set: &'doc SelectionSet) -> Result<usize, AllocError>
        requires sets { AreSets self.old }
        ensures sets { AreSets self.new }
        ensures grown { SetsGrow self.old self.new }
        ensures starts { OnOk result (HasAllStarts self.new) }
        ensures node { IfOk result (λ n. IsNodeOf (set_nodes self.new) n (typed_set_tree set.now)) }
    {
        self.add_fragments()?;
        self.add_nodes(set)
    }
}
