//! Groups of the fields of a list.
ghost use Rattle.std.specs.Prelude.{◌≡◌, ◌≤◌, ◌+◌, ℕ, ◌++◌, ◌∷◌, [], List, map, filter, flat_map, not, length, if◌then◌else◌, IfOk, IsTrue, OnOk};
ghost use Rattle.std.specs.List.{sum};
ghost use Rattle.std.specs.Str.{bytes_eq};
ghost use Rattle.indexmap.specs.IndexMap.{get, IsUnique};
ghost use Rattle.rule_selection_queries.specs.in_definitions.in_components.Names.{same_text};
ghost use Rattle.schema_types.specs.TypeView.{name_text};
ghost use Rattle.rule_field_sets.specs.in_schema.SchemaOf.{schema_tree};
ghost use Rattle.rule_selection_queries.specs.in_definitions.Judged.{judged};
ghost use Rattle.rule_selection_queries.specs.in_document_definitions.Groups.{AreGroups};
ghost use Rattle.rule_field_groups.specs.Members.{fields_of};
ghost use Rattle.rule_field_groups.specs.Compared.{compared};
ghost use Rattle.rule_field_groups.specs.Passes.{Together};
ghost use Rattle.rule_field_groups.specs.Grouped.{items_under, count_in, has, lists_in, lists_of, parent_of, HaveOneName, AreFiled, ArePartsOf};
ghost use Rattle.rule_field_groups.specs.KeyGroups.{filed_name, is_shared, own_lists, parts_of, parts_in, lists_in_group, compared_in, IsByParents, ArePartsFor};

use crate::kinds::is_abstract;
use crate::pass::Pass;
use graphql_names::Name;
use indexmap::IndexMap;
use rule_field_sets::{Member, Schema};
use std::alloc::{AllocError, Global};

/// Adds a field after those under the name.
fn push_under<'doc>(
    alloc: Global,
    index: &mut IndexMap<Name, Vec<Member<'doc>>>,
    name: &Name,
    field: Member<'doc>,
) -> Result<(), AllocError>
    ensures under { OnOk result ((n : List ℕ) → items_under n index.new ≡ items_under n index.old ++ (if bytes_eq n name.now.text then field.entry ∷ [] else [])) }
    ensures counted { OnOk result (count_in index.new ≡ count_in index.old + 1) }
{
    if let Some(fields) = index.get_mut(name) {
        fields.push(field)?;
        return Ok(());
    }
    insert_under(alloc, index, name, field)
}

/// Adds a field under a name that has no fields yet.
fn insert_under<'doc>(
    alloc: Global,
    index: &mut IndexMap<Name, Vec<Member<'doc>>>,
    name: &Name,
    field: Member<'doc>,
) -> Result<(), AllocError>
    requires { get (same_text name_text) index.old name.now ≡ None }
    ensures under { OnOk result ((n : List ℕ) → items_under n index.new ≡ items_under n index.old ++ (if bytes_eq n name.now.text then field.entry ∷ [] else [])) }
    ensures counted { OnOk result (count_in index.new ≡ count_in index.old + 1) }
{
    let mut fields = Vec::new(alloc);
    fields.push(field)?;
    let name = name.clone()?;
    index.insert(name, fields)?;
    Ok(())
}

/// What the fields of a list are grouped by.
#[derive(Clone, Copy)]
enum Filing {
    /// The response key.
    Key,
    /// The type that they are selected on.
    Parent,
}

/// The name that a field is grouped by.
fn filed_name<'doc>(filing: Filing, field: Member<'doc>) -> &'doc Name
    ensures { result.now.text ≡ filed_name filing field.entry }
{
    match filing {
        Filing::Key => field.selection.response_key(),
        Filing::Parent => field.selection.parent_type,
    }
}

/// Whether the list has fields, all of them grouped by one name.
fn is_one_group(filing: Filing, list: &[Member<'_>]) -> bool
    ensures { IsTrue result → HaveOneName (filed_name filing) list.now }
{
    let Some((first, others)) = list.split_first() else {
        return false;
    };
    let name = filed_name(filing, *first);
    for other in others {
        if *filed_name(filing, *other) != *name {
            return false;
        }
    }
    true
}

/// A group of the whole list.
fn one_group<'doc>(
    alloc: Global,
    list: &[Member<'doc>],
) -> Result<Vec<Vec<Member<'doc>>>, AllocError>
    ensures { IfOk result (λ groups. lists_of groups ≡ list.now ∷ []) }
{
    let mut groups = Vec::with_capacity(alloc, 1)?;
    groups.push(Vec::from_slice(alloc, list)?)?;
    Ok(groups)
}

/// The fields of the list under the names that they are grouped by.
fn index_of<'doc>(
    alloc: Global,
    filing: Filing,
    list: &[Member<'doc>],
) -> Result<IndexMap<Name, Vec<Member<'doc>>>, AllocError>
    ensures under { IfOk result (λ m. (n : List ℕ) → items_under n m ≡ filter (has (filed_name filing) n) list.now) }
    ensures counted { IfOk result (λ m. count_in m ≡ length list.now) }
{
    let mut index = IndexMap::new(alloc);
    for field in list {
        push_under(alloc, &mut index, filed_name(filing, *field), *field)?;
    }
    Ok(index)
}

/// The lists of an index, name by name.
fn groups_in<'doc>(
    alloc: Global,
    index: IndexMap<Name, Vec<Member<'doc>>>,
) -> Result<Vec<Vec<Member<'doc>>>, AllocError>
    ensures all { IfOk result (λ groups. lists_of groups ≡ lists_in index.entry) }
    ensures unique { IfOk result (λ groups. IsUnique (same_text name_text) index.entry) }
{
    let mut groups = Vec::with_capacity(alloc, index.len())?;
    for group in index.into_values() {
        groups.push(group)?;
    }
    Ok(groups)
}

/// The fields of the list that have one name, for each name, in the order of the list.
fn filed<'doc>(
    alloc: Global,
    filing: Filing,
    list: &[Member<'doc>],
) -> Result<Vec<Vec<Member<'doc>>>, AllocError>
    ensures filed { IfOk result (λ groups. AreFiled (filed_name filing) list.now (lists_of groups)) }
    ensures counted { IfOk result (λ groups. sum (map length (lists_of groups)) ≡ length list.now) }
{
    // Most lists are one group, which needs no index.
    if is_one_group(filing, list) {
        return one_group(alloc, list);
    }
    let index = index_of(alloc, filing, list)?;
    groups_in(alloc, index)
}

/// The fields of a list under one response key ("fieldsForName"): those on abstract types, which are shared by all objects, and
/// those on each object type. One object may have the shared ones and those of one type.
pub struct KeyGroup<'doc> {
    pub(crate) shared: Vec<Member<'doc>>,
    pub(crate) own: Vec<Vec<Member<'doc>>>,
}

// Not derived: a derived drop is proved again in each crate that drops one.
impl Drop for KeyGroup<'_> {
    fn drop(self) {
        let KeyGroup { shared: _, own: _ } = self;
    }
}

/// A group in which all fields are shared: shapes are compared for any types that fields are selected on.
fn all_shared<'doc>(alloc: Global, shared: Vec<Member<'doc>>) -> KeyGroup<'doc>
    ensures shared { result.shared.items ≡ shared.entry.items }
    ensures own { own_lists result ≡ [] }
{
    KeyGroup {
        shared,
        own: Vec::new(alloc),
    }
}

/// The fields of the list on abstract types.
fn abstract_fields<'doc>(
    alloc: Global,
    schema: &Schema,
    list: &[Member<'doc>],
) -> Result<Vec<Member<'doc>>, AllocError>
    ensures { IfOk result (λ v. v.items ≡ filter (is_shared (judged (schema_tree schema.now))) list.now) }
{
    let mut found = Vec::new(alloc);
    for field in list {
        if is_abstract(schema, field.selection.parent_type) {
            found.push(*field)?;
        }
    }
    Ok(found)
}

/// The fields of the list on object types.
fn object_fields<'doc>(
    alloc: Global,
    schema: &Schema,
    list: &[Member<'doc>],
) -> Result<Vec<Member<'doc>>, AllocError>
    ensures { IfOk result (λ v. v.items ≡ filter (λ x. not (is_shared (judged (schema_tree schema.now)) x)) list.now) }
{
    let mut found = Vec::new(alloc);
    for field in list {
        if !is_abstract(schema, field.selection.parent_type) {
            found.push(*field)?;
        }
    }
    Ok(found)
}

/// The fields of one key that are all selected on one type.
fn on_one_parent<'doc>(
    alloc: Global,
    schema: &Schema,
    list: &[Member<'doc>],
) -> Result<KeyGroup<'doc>, AllocError>
    requires { HaveOneName parent_of list.now }
    ensures parents { IfOk result (λ group. IsByParents (judged (schema_tree schema.now)) list.now group) }
    ensures once { IfOk result (λ group. sum (map length (lists_in_group group)) ≡ length list.now) }
{
    if is_abstract(schema, list[0].selection.parent_type) {
        let fields = Vec::from_slice(alloc, list)?;
        return Ok(all_shared(alloc, fields));
    }
    let own = one_group(alloc, list)?;
    let none = Vec::new(alloc);
    Ok(KeyGroup { shared: none, own })
}

/// The fields of one key by their parents ("the parent types are equal or either is not an Object Type").
fn by_parents<'doc>(
    alloc: Global,
    schema: &Schema,
    list: &[Member<'doc>],
) -> Result<KeyGroup<'doc>, AllocError>
    ensures parents { IfOk result (λ group. IsByParents (judged (schema_tree schema.now)) list.now group) }
    ensures once { IfOk result (λ group. sum (map length (lists_in_group group)) ≡ length list.now) }
{
    if is_one_group(Filing::Parent, list) {
        return on_one_parent(alloc, schema, list);
    }
    let shared = abstract_fields(alloc, schema, list)?;
    let objects = object_fields(alloc, schema, list)?;
    let own = filed(alloc, Filing::Parent, &objects)?;
    Ok(KeyGroup { shared, own })
}

/// The fields of one key, as a pass compares them.
fn key_group<'doc>(
    alloc: Global,
    pass: Pass,
    schema: &Schema,
    list: Vec<Member<'doc>>,
) -> Result<KeyGroup<'doc>, AllocError>
    ensures parts { IfOk result (λ group. ArePartsFor pass (judged (schema_tree schema.now)) list.entry.items (parts_of group)) }
    ensures counted { IfOk result (λ group. compared_in pass group ≤ compared pass list.entry.items) }
    ensures ordered { IfOk result (λ group. ArePartsOf list.entry.items (lists_in_group group)) }
    ensures once { IfOk result (λ group. sum (map length (lists_in_group group)) ≡ length list.entry.items) }
{
    match pass {
        Pass::Shapes => Ok(all_shared(alloc, list)),
        Pass::Selections => by_parents(alloc, schema, &list),
    }
}

/// The fields of the list by response keys, as a pass compares them. Each field is in one part, once, and each part is in the
/// order of the list.
pub fn groups_of<'doc>(
    alloc: Global,
    pass: Pass,
    schema: &Schema,
    list: &[Member<'doc>],
) -> Result<Vec<KeyGroup<'doc>>, AllocError>
    ensures groups { IfOk result (λ groups. AreGroups (Together pass (judged (schema_tree schema.now))) (fields_of list.now) (map fields_of (parts_in groups.items))) }
    ensures counted { IfOk result (λ groups. sum (map (compared_in pass) groups.items) ≤ compared pass list.now) }
    ensures ordered { IfOk result (λ groups. ArePartsOf list.now (flat_map lists_in_group groups.items)) }
    ensures once { IfOk result (λ groups. sum (map length (flat_map lists_in_group groups.items)) ≡ length list.now) }
{
    let mut groups = Vec::new(alloc);
    let keyed = filed(alloc, Filing::Key, list)?;
    for fields in keyed {
        groups.push(key_group(alloc, pass, schema, fields)?)?;
    }
    Ok(groups)
}
