//! Numbers of fields and of sets, by what merging reads of them.
ghost use Rattle.std.specs.Prelude.{◌≡◌, [], ◌∷◌, Some, slice_get, length, IfOk, OnErr};
ghost use Rattle.graphql_schema.specs.SchemaOf.{schema_tree};
ghost use Rattle.rule_definitions.specs.Judged.{judged, Judged};
ghost use Rattle.rule_document_definitions.specs.ReadFields.{head_of, set_of, list_read};
ghost use Rattle.rule_field_sets.specs.Tables.{Extends, EntriesExtend, Enters, AreJudged, PartsGrow, IsSetNumber, ReadsAs, MeansSet, AreRight, TablesGrow};
ghost use Rattle.rule_field_sets.specs.Numbered.{texts_of, parents_of, calls_of, types_of, parts_of, firsts_of, first_sets_of, nodes_of, nodes_in, tables_of, field_call, type_read, read_of, read_list, set_parts, meant_of, kind_known, first_known, first_listed, node_is, ArePartNumbers, IsMember, NotesNode};

use crate::kinds::is_abstract;
use crate::member::Member;
use document_typed_selections::{Field, SelectionSet};
use graphql_names::{Name, Node};
use graphql_schema::Schema;
use indexmap::{IndexMap, IndexSet};
use rule_reach::FieldSelection;
use std::alloc::{AllocError, Global};
use tree_directives::Argument;
use tree_literals::{NamedType, Type};

/// What a field selects: its name and arguments.
#[derive(Clone, Copy, PartialEq, Eq, Hash)]
struct Call<'doc> {
    name: &'doc Name,
    arguments: &'doc Vec<Node<Argument>>,
}

/// What merging reads of a field, by numbers: those of its response key, the type that it is selected on, its name and
/// arguments, its type, and its own set, unless that has no selections.
#[derive(Clone, Copy, PartialEq, Eq, Hash)]
struct FieldKey {
    key: usize,
    parent: usize,
    call: usize,
    ty: usize,
    set: Option<usize>,
}

/// What is written in a set: the fields by their numbers, and the names of fragments.
#[derive(PartialEq, Eq, Hash)]
struct SetKey<'doc> {
    fields: Vec<usize>,
    spreads: Vec<&'doc Name>,
}

// Not derived: a derived drop is proved again in each crate that drops one.
impl Drop for SetKey<'_> {
    fn drop(self) {
        let SetKey {
            fields: _,
            spreads: _,
        } = self;
    }
}

/// A content of fields that has a number: the first field with it, and the newest node that has such a field.
#[derive(Clone, Copy)]
struct KnownField<'doc> {
    first: FieldSelection<'doc>,
    node: usize,
}

/// The numbers of the parts of a field, and whether the type that it is selected on is abstract.
#[derive(Clone, Copy)]
struct PartNumbers {
    key: usize,
    parent: usize,
    is_shared: bool,
    call: usize,
    ty: usize,
}

/// The parts of fields that have numbers: each number is an index here. For each type that fields are selected on it is kept
/// whether it is an interface or a union.
struct Parts<'doc> {
    keys: IndexSet<&'doc Name>,
    parents: IndexMap<&'doc NamedType, bool>,
    calls: IndexSet<Call<'doc>>,
    types: IndexSet<&'doc Type>,
}

impl Drop for Parts<'_> {
    fn drop(self) {
        let Parts {
            keys: _,
            parents: _,
            calls: _,
            types: _,
        } = self;
    }
}

/// The contents that have numbers: each number is an index here. The first set that has a content is kept with it.
pub(crate) struct Numbers<'doc> {
    parts: Parts<'doc>,
    fields: IndexMap<FieldKey, KnownField<'doc>>,
    sets: IndexMap<SetKey<'doc>, &'doc SelectionSet>,
}

impl Drop for Numbers<'_> {
    fn drop(self) {
        let Numbers {
            parts: _,
            fields: _,
            sets: _,
        } = self;
    }
}

/// The number of a name.
fn name_number<'doc>(
    names: &mut IndexSet<&'doc Name>,
    name: &'doc Name,
) -> Result<usize, AllocError>
    ensures grown { Extends (texts_of names.old.keys) (texts_of names.new.keys) }
    ensures number { IfOk result (λ n. slice_get (texts_of names.new.keys) n ≡ Some name.now.text) }
{
    let (number, _) = names.insert_full(name)?;
    Ok(number)
}

/// The number of a field's name and arguments.
fn call_number<'doc>(
    calls: &mut IndexSet<Call<'doc>>,
    field: &'doc Field,
) -> Result<usize, AllocError>
    ensures grown { Extends (calls_of calls.old.keys) (calls_of calls.new.keys) }
    ensures number { IfOk result (λ n. slice_get (calls_of calls.new.keys) n ≡ Some (field_call field.now)) }
{
    let call = Call {
        name: &field.name,
        arguments: &field.arguments,
    };
    let (number, _) = calls.insert_full(call)?;
    Ok(number)
}

/// The number of a type.
fn type_number<'doc>(types: &mut IndexSet<&'doc Type>, ty: &'doc Type) -> Result<usize, AllocError>
    ensures grown { Extends (types_of types.old.keys) (types_of types.new.keys) }
    ensures number { IfOk result (λ n. slice_get (types_of types.new.keys) n ≡ Some (type_read ty.now)) }
{
    let (number, _) = types.insert_full(ty)?;
    Ok(number)
}

/// Whether a type that fields are selected on is an interface or a union. The schema is asked if the type has no number yet.
fn known_kind<'doc>(
    schema: &Schema,
    parents: &IndexMap<&'doc NamedType, bool>,
    ty: &'doc NamedType,
) -> bool
    ensures { result ≡ kind_known (judged (schema_tree schema.now)) parents.now.entries ty.now.text }
{
    match parents.get(&ty) {
        Some(is_abstract) => *is_abstract,
        None => is_abstract(schema, ty),
    }
}

/// The number of a type that fields are selected on, and whether it is an interface or a union.
fn parent_number<'doc>(
    schema: &Schema,
    parents: &mut IndexMap<&'doc NamedType, bool>,
    ty: &'doc NamedType,
) -> Result<(usize, bool), AllocError>
    requires judged { AreJudged (judged (schema_tree schema.now)) (parents_of parents.old.entries) }
    ensures grown { EntriesExtend (parents_of parents.old.entries) (parents_of parents.new.entries) }
    ensures judged { AreJudged (judged (schema_tree schema.now)) (parents_of parents.new.entries) }
    ensures number { IfOk result (λ r. slice_get (parents_of parents.new.entries) r.0 ≡ Some (ty.now.text, r.1)) }
{
    let is_abstract = known_kind(schema, parents, ty);
    let (number, _) = parents.insert_full(ty, is_abstract)?;
    Ok((number, is_abstract))
}

impl<'doc> Parts<'doc> {
    /// The numbers of the parts of a field.
    fn numbers_of(
        &mut self,
        schema: &Schema,
        selection: FieldSelection<'doc>,
    ) -> Result<PartNumbers, AllocError>
        requires judged { AreJudged (judged (schema_tree schema.now)) (parts_of self.old).parents }
        ensures grown { PartsGrow (parts_of self.old) (parts_of self.new) }
        ensures judged { AreJudged (judged (schema_tree schema.now)) (parts_of self.new).parents }
        ensures numbers { IfOk result (λ n. ArePartNumbers (parts_of self.new) n (head_of (read_of selection.entry))) }
    {
        let field = selection.field.content();
        let key = name_number(&mut self.keys, field.response_key())?;
        let (parent, is_shared) = parent_number(schema, &mut self.parents, selection.parent_type)?;
        let call = call_number(&mut self.calls, field)?;
        let ty = type_number(&mut self.types, field.ty())?;
        Ok(PartNumbers {
            key,
            parent,
            is_shared,
            call,
            ty,
        })
    }
}

/// The first field with this key, if there is one, or else this one.
fn first_field<'doc>(
    fields: &IndexMap<FieldKey, KnownField<'doc>>,
    field: FieldKey,
    selection: FieldSelection<'doc>,
) -> FieldSelection<'doc>
    ensures { result ≡ first_known fields.now.entries field selection.entry }
{
    match fields.get(&field) {
        Some(known) => known.first,
        None => selection,
    }
}

/// Whether this node has the field already.
fn has_field(known: Option<KnownField<'_>>, node: usize) -> bool
    ensures { result ≡ node_is known.entry node }
{
    match known {
        Some(known) => known.node == node,
        None => false,
    }
}

/// The number of a field of a node, and whether the node has it already.
fn field_number<'doc>(
    fields: &mut IndexMap<FieldKey, KnownField<'doc>>,
    field: FieldKey,
    selection: FieldSelection<'doc>,
    node: usize,
) -> Result<(usize, bool), AllocError>
    ensures number { IfOk result (λ r. Enters (firsts_of fields.old.entries) field (read_of selection.entry) r.0 (firsts_of fields.new.entries)) }
    ensures noted { IfOk result (λ r. NotesNode (nodes_in fields.old.entries) r.0 node r.1 (nodes_in fields.new.entries)) }
    ensures refused { OnErr result (fields.new.entries ≡ fields.old.entries) }
{
    let first = first_field(fields, field, selection);
    let (number, known) = fields.insert_full(field, KnownField { first, node })?;
    Ok((number, has_field(known, node)))
}

/// The first set with this key, if there is one, or else this one.
fn first_set<'doc>(
    sets: &IndexMap<SetKey<'doc>, &'doc SelectionSet>,
    key: &SetKey<'doc>,
    set: &'doc SelectionSet,
) -> &'doc SelectionSet
    ensures { result.now ≡ first_listed sets.now.entries key.now set.now }
{
    match sets.get(key) {
        Some(first) => *first,
        None => set,
    }
}

/// The number of a set with these fields and spreads.
fn list_number<'doc>(
    sets: &mut IndexMap<SetKey<'doc>, &'doc SelectionSet>,
    key: SetKey<'doc>,
    set: &'doc SelectionSet,
) -> Result<usize, AllocError>
    ensures number { IfOk result (λ n. Enters (first_sets_of sets.old.entries) (set_parts key.entry) (read_list set.now) n (first_sets_of sets.new.entries)) }
    ensures refused { OnErr result (sets.new.entries ≡ sets.old.entries) }
{
    let first = first_set(sets, &key, set);
    let (number, _) = sets.insert_full(key, first)?;
    Ok(number)
}

impl<'doc> Numbers<'doc> {
    /// No numbers.
    pub(crate) fn new(alloc: Global) -> Numbers<'doc>
        ensures right { AreRight (tables_of result) }
        ensures judged { (s : Judged) → AreJudged s (tables_of result).parts.parents }
        ensures nodes { nodes_of result ≡ [] }
    {
        Numbers {
            parts: Parts {
                keys: IndexSet::new(alloc),
                parents: IndexMap::new(alloc),
                calls: IndexSet::new(alloc),
                types: IndexSet::new(alloc),
            },
            fields: IndexMap::new(alloc),
            sets: IndexMap::new(alloc),
        }
    }

    /// How many different numbers fields have, and how many sets have.
    pub(crate) fn counts(&self) -> (usize, usize)
        ensures fields { result.0 ≡ length (tables_of self.now).fields }
        ensures sets { result.1 ≡ length (tables_of self.now).sets }
    {
        (self.fields.len(), self.sets.len())
    }

    /// A field of a node as a member, and whether the node has it already. `set` and `below` are the number and the node of
    /// its own set, unless that has no selections.
    pub(crate) fn add_field(
        &mut self,
        schema: &Schema,
        selection: FieldSelection<'doc>,
        set: Option<usize>,
        below: Option<usize>,
        node: usize,
    ) -> Result<(Member<'doc>, bool), AllocError>
        requires right { AreRight (tables_of self.old) }
        requires judged { AreJudged (judged (schema_tree schema.now)) (tables_of self.old).parts.parents }
        requires set { IsSetNumber (tables_of self.old) set (set_of (read_of selection)) }
        ensures right { AreRight (tables_of self.new) }
        ensures grown { TablesGrow (tables_of self.old) (tables_of self.new) }
        ensures judged { AreJudged (judged (schema_tree schema.now)) (tables_of self.new).parts.parents }
        ensures member { IfOk result (λ r. IsMember (tables_of self.new) selection.entry below r.0) }
        ensures noted { IfOk result (λ r. NotesNode (nodes_of self.old) r.0.number node r.1 (nodes_of self.new)) }
        ensures refused { OnErr result (nodes_of self.new ≡ nodes_of self.old) }
    {
        let parts = self.parts.numbers_of(schema, selection)?;
        let PartNumbers {
            key,
            parent,
            is_shared,
            call,
            ty,
        } = parts;
        let field = FieldKey {
            key,
            parent,
            call,
            ty,
            set,
        };
        let (number, is_repeated) = field_number(&mut self.fields, field, selection, node)?;
        let member = Member {
            selection,
            number,
            key,
            parent,
            call,
            ty,
            is_shared,
            below,
        };
        Ok((member, is_repeated))
    }

    /// The number of a set with these fields and spreads, in the order of the text, those of its inline fragments included.
    pub(crate) fn set_number(
        &mut self,
        fields: Vec<usize>,
        spreads: Vec<&'doc Name>,
        set: &'doc SelectionSet,
    ) -> Result<usize, AllocError>
        requires right { AreRight (tables_of self.old) }
        requires read { ReadsAs (tables_of self.old) fields.items (texts_of spreads.items) (meant_of set.now) }
        ensures right { AreRight (tables_of self.new) }
        ensures grown { TablesGrow (tables_of self.old) (tables_of self.new) }
        ensures parts { (tables_of self.new).parts ≡ (tables_of self.old).parts }
        ensures nodes { nodes_of self.new ≡ nodes_of self.old }
        ensures number { IfOk result (λ n. MeansSet (tables_of self.new) n (list_read (meant_of set.now))) }
    {
        let key = SetKey { fields, spreads };
        let number = list_number(&mut self.sets, key, set)?;
        Ok(number)
    }
}
