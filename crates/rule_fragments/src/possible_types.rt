//! The object types that values of each type can be.
ghost use Rattle.std.specs.Prelude.{◌≡◌, ◌∷◌, [], map, IfOk, OnOk};
ghost use Rattle.std.specs.Option.{option_copied};
ghost use Rattle.schema_components.specs.Given.{component_name_tree, given_name};
ghost use Rattle.schema_types.specs.TypeView.{extended_type, name_text};
ghost use Rattle.rule_cycles.specs.in_schema.SchemaOf.{schema_tree};
ghost use Rattle.rule_definitions.specs.Judged.{judged};
ghost use Rattle.rule_fragments.specs.Held.{AddsNotes, may_apply, share_at, share_one, possible_in};
ghost use Rattle.rule_fragments.specs.Possible.{ArePossible};
ghost use Rattle.rule_fragments.specs.Noting.{object_notes, own_notes, is_object, member_note, member_notes, type_notes};
ghost use Rattle.rule_fragments.specs.Telling.{component_names};

use graphql_names::Name;
use indexmap::{IndexMap, IndexSet};
use rule_cycles::Schema;
use schema_components::ComponentName;
use schema_types::ExtendedType;
use std::alloc::{AllocError, Global};
use std::marker::Model;
use std::rc::Rc;

/// For each type of a schema the names of the object types that its values can be (GetPossibleTypes, section 5.5.2.3): of an
/// object itself, of an interface the objects that implement it, of a union the objects among its members.
///
/// Contracts see these names under those of the types. What was found of pairs of types is kept beside them.
pub struct PossibleTypes {
    /// All documents over the schema share them.
    objects: Rc<IndexMap<Name, IndexSet<Name>>>,
    /// For each pair of types that was asked for, by their indices: whether they have an object in common.
    common: IndexMap<(usize, usize), bool>,
}

// Not derived: a derived drop is proved again in each crate that drops one.
impl Drop for PossibleTypes {
    fn drop(self) {
        let PossibleTypes {
            objects: _,
            common: _,
        } = self;
    }
}

impl Model for PossibleTypes {
    ghost use Rattle.rule_fragments.specs.Held.{possible_in, AreCommon};
    ghost use Rattle.rule_fragments.specs.Possible.{ObjectsOfTypes};

    ghost Value = { ObjectsOfTypes };

    ghost view = { λ p. possible_in p.objects.value.entries };

    ghost invariant = { λ p. AreCommon (possible_in p.objects.value.entries) p.common };
}

impl PossibleTypes {
    /// The possible types of the schema. Fails if memory is refused.
    pub fn new(alloc: Global, schema: &Schema) -> Result<PossibleTypes, AllocError>
        ensures { IfOk result (λ p. ArePossible (judged (schema_tree schema.now)) p) }
    {
        // a contract of `len` says that each name is in the map once
        let _count = schema.types.len();
        let mut objects = IndexMap::new(alloc);
        for (name, ty) in &schema.types {
            note_type(schema, &mut objects, name, ty)?;
        }
        Ok(PossibleTypes {
            objects: Rc::new(alloc, objects)?,
            common: IndexMap::new(alloc),
        })
    }

    /// Whether a fragment on the type `condition` can apply where the type is `parent`: they are the same, or have an object in
    /// common.
    pub(crate) fn may_apply(&mut self, parent: &Name, condition: &Name) -> Result<bool, AllocError>
        ensures applies { IfOk result (λ r. r ≡ may_apply self.old parent.now.text condition.now.text) }
        ensures same { self.new ≡ self.old }
    {
        if *condition == *parent {
            return Ok(true);
        }
        let Some(here) = self.objects.as_ref().get_index_of(parent) else {
            return Ok(false);
        };
        match self.objects.as_ref().get_index_of(condition) {
            None => Ok(false),
            Some(there) => self.have_common(here, there),
        }
    }

    /// Whether the types at these indices have an object in common. It is found once for each pair.
    fn have_common(&mut self, here: usize, there: usize) -> Result<bool, AllocError>
        ensures common { IfOk result (λ r. r ≡ share_at self.old here there) }
        ensures same { self.new ≡ self.old }
    {
        if let Some(known) = self.common.get(&(here, there)) {
            return Ok(*known);
        }
        let found = common_at(self.objects.as_ref(), here, there);
        self.common.insert((here, there), found)?;
        Ok(found)
    }
}

/// The possible types of a schema, if they are found, for one more document. They are shared and not copied, and no pairs of
/// types are remembered yet. Fails if memory is refused.
pub fn for_document(
    alloc: Global,
    possible: Option<&PossibleTypes>,
) -> Result<Option<PossibleTypes>, AllocError>
    ensures { IfOk result (λ r. r ≡ option_copied possible.entry) }
{
    match possible {
        None => Ok(None),
        Some(possible) => Ok(Some(PossibleTypes {
            objects: possible.objects.clone()?,
            common: IndexMap::new(alloc),
        })),
    }
}

/// Whether the types at these indices have an object in common.
fn common_at(objects: &IndexMap<Name, IndexSet<Name>>, here: usize, there: usize) -> bool
    ensures { result ≡ share_at (possible_in objects.now.entries) here there }
{
    let Some((_, here)) = objects.get_index(here) else {
        return false;
    };
    match objects.get_index(there) {
        None => false,
        Some((_, there)) => share_one(here, there),
    }
}

/// Whether the sets have a name in common.
fn share_one(a: &IndexSet<Name>, b: &IndexSet<Name>) -> bool
    ensures { result ≡ share_one (map name_text a.now.keys) (map name_text b.now.keys) }
{
    if a.len() <= b.len() {
        some_is_in(a, b)
    } else {
        some_is_in(b, a)
    }
}

/// Whether one of the names is in the set.
fn some_is_in(names: &IndexSet<Name>, set: &IndexSet<Name>) -> bool
    ensures { result ≡ share_one (map name_text names.now.keys) (map name_text set.now.keys) }
{
    for name in names.as_slice() {
        if set.contains(name) {
            return true;
        }
    }
    false
}

/// Notes an object type under its own name and those of its interfaces, and the objects in a union under the union's name.
fn note_type(
    schema: &Schema,
    noted: &mut IndexMap<Name, IndexSet<Name>>,
    name: &Name,
    ty: &ExtendedType,
) -> Result<(), AllocError>
    ensures { OnOk result (AddsNotes noted.old noted.new (type_notes (schema_tree schema.now) (name.now.text, extended_type ty.now))) }
{
    note_own(noted, name, ty)?;
    note_members(schema, noted, name, members_of(ty))
}

/// Notes the type under its name and those of its interfaces, if it is an object.
fn note_own(
    noted: &mut IndexMap<Name, IndexSet<Name>>,
    name: &Name,
    ty: &ExtendedType,
) -> Result<(), AllocError>
    ensures { OnOk result (AddsNotes noted.old noted.new (own_notes (name.now.text, extended_type ty.now))) }
{
    if ty.is_object() {
        note_object(noted, name, interfaces_of(ty))
    } else {
        Ok(())
    }
}

/// The interfaces that a type lists.
fn interfaces_of(ty: &ExtendedType) -> &[ComponentName]
    ensures { map component_name_tree result.now ≡ (extended_type ty.now).interfaces }
{
    match ty {
        ExtendedType::Object(own) => own.content().implements_interfaces.as_slice(),
        ExtendedType::Interface(own) => own.content().implements_interfaces.as_slice(),
        _ => &[],
    }
}

/// The members of a union; no other type has any.
fn members_of(ty: &ExtendedType) -> &[ComponentName]
    ensures { map component_name_tree result.now ≡ (extended_type ty.now).members }
{
    match ty {
        ExtendedType::Union(own) => own.content().members.as_slice(),
        _ => &[],
    }
}

/// Notes an object under its name and those of its interfaces.
fn note_object(
    noted: &mut IndexMap<Name, IndexSet<Name>>,
    name: &Name,
    interfaces: &[ComponentName],
) -> Result<(), AllocError>
    ensures { OnOk result (AddsNotes noted.old noted.new (object_notes name.now.text (map given_name (map component_name_tree interfaces.now)))) }
{
    note(noted, name, name)?;
    for interface in interfaces {
        note(noted, &interface.name, name)?;
    }
    Ok(())
}

/// Notes the objects among the members of a union under its name.
fn note_members(
    schema: &Schema,
    noted: &mut IndexMap<Name, IndexSet<Name>>,
    name: &Name,
    members: &[ComponentName],
) -> Result<(), AllocError>
    ensures { OnOk result (AddsNotes noted.old noted.new (member_notes (schema_tree schema.now) name.now.text (component_names members.now))) }
{
    for member in members {
        note_member(schema, noted, name, &member.name)?;
    }
    Ok(())
}

/// Notes a member of a union under its name, if it is an object.
fn note_member(
    schema: &Schema,
    noted: &mut IndexMap<Name, IndexSet<Name>>,
    name: &Name,
    member: &Name,
) -> Result<(), AllocError>
    ensures { OnOk result (AddsNotes noted.old noted.new (member_note (schema_tree schema.now) name.now.text member.now.text)) }
{
    if is_object(schema, member) {
        note(noted, name, member)
    } else {
        Ok(())
    }
}

/// Whether the type of that name is defined and is an object.
fn is_object(schema: &Schema, name: &Name) -> bool
    ensures { result ≡ is_object (schema_tree schema.now) name.now.text }
{
    match schema.type_named(name) {
        None => false,
        Some(ty) => ty.is_object(),
    }
}

/// Notes the object under the name of a type.
pub(crate) fn note(
    noted: &mut IndexMap<Name, IndexSet<Name>>,
    ty: &Name,
    object: &Name,
) -> Result<(), AllocError>
    ensures { OnOk result (AddsNotes noted.old noted.new ((ty.now.text, object.now.text) ∷ [])) }
{
    let none = IndexSet::new(*noted.allocator());
    let ty = ty.clone()?;
    let object = object.clone()?;
    let objects = noted.entry(ty)?.or_insert(none);
    objects.insert(object)?;
    Ok(())
}
