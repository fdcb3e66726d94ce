//! Which types implement each interface.
ghost use Rattle.std.specs.Prelude.{◌≡◌, ◌++◌, IfOk, OnOk};
ghost use Rattle.std.specs.Iterator.{YieldsFirstRef, item_count};
ghost use Rattle.graphql_names.specs.NameValue.{NameValue};
ghost use Rattle.schema_components.specs.Given.{component_name_tree};
ghost use Rattle.schema_building.specs.in_schema_types.TypeView.{extended_type};
ghost use Rattle.graphql_schema.specs.SchemaOf.{schema_tree};
ghost use Rattle.graphql_schema.specs.Implementers.{implementers_in};
ghost use Rattle.graphql_schema.specs.Noting.{nobody, and_type, naming, namings_of};
ghost use Rattle.graphql_schema.specs.ImplementersView.{implementers_tree, implementers_at, left_implementers};
ghost use Rattle.graphql_schema.specs.NotingView.{Notes, NotesAll};

use crate::schema::Schema;
use crate::subtype::interfaces_of;
use graphql_names::Name;
use indexmap::{IndexMap, IndexSet};
use schema_components::ComponentName;
use schema_writing::ExtendedType;
use std::alloc::{AllocError, Global};
use std::slice;

/// The names of the objects and of the interfaces that implement one interface.
#[derive(PartialEq, Eq, Drop)]
pub struct Implementers {
    pub objects: IndexSet<Name>,
    pub interfaces: IndexSet<Name>,
}

impl Implementers {
    /// No implementers.
    fn new(alloc: Global) -> Implementers
        ensures { implementers_tree result ≡ nobody }
    {
        Implementers {
            objects: IndexSet::new(alloc),
            interfaces: IndexSet::new(alloc),
        }
    }

    /// Adds a type.
    fn add(&mut self, is_object: bool, type_name: &Name) -> Result<(), AllocError>
        ensures { OnOk result (implementers_tree self.new ≡ and_type is_object type_name.now.text (implementers_tree self.old)) }
    {
        let name = type_name.clone()?;
        if is_object {
            self.objects.insert(name)?;
        } else {
            self.interfaces.insert(name)?;
        }
        Ok(())
    }

    /// All implementers: the objects, then the interfaces.
    pub fn iter(&self) -> ImplementersNames<'_>
        ensures { left_implementers result ≡ self.now.objects.keys ++ self.now.interfaces.keys }
    {
        ImplementersNames {
            objects: self.objects.as_slice().iter(),
            interfaces: self.interfaces.as_slice().iter(),
        }
    }
}

/// The implementers that are left: objects, then interfaces.
#[derive(Drop)]
pub struct ImplementersNames<'a> {
    objects: slice::Iter<'a, Name>,
    interfaces: slice::Iter<'a, Name>,
}

impl<'a> Iterator for ImplementersNames<'a> {
    type Item = &'a Name;

    ghost next_gives = { YieldsFirstRef left_implementers };

    ghost remaining = { item_count left_implementers };

    fn next(&mut self) -> Option<&'a Name> {
        match self.objects.next() {
            Some(name) => Some(name),
            None => self.interfaces.next(),
        }
    }
}

impl Schema {
    /// Under the name of each interface that a type lists, the objects and interfaces that list it (section 3.7), each once,
    /// in the order of the schema.
    pub fn implementers_map(
        &self,
        alloc: Global,
    ) -> Result<IndexMap<Name, Implementers>, AllocError>
        ensures { IfOk result (λ m. (i : NameValue) → implementers_at m i ≡ implementers_in (schema_tree self.now) i.text) }
    {
        let mut noted = IndexMap::new(alloc);
        for (name, ty) in &self.types {
            note_type(alloc, &mut noted, name, ty)?;
        }
        Ok(noted)
    }
}

/// Notes the interfaces that a type lists.
fn note_type(
    alloc: Global,
    noted: &mut IndexMap<Name, Implementers>,
    name: &Name,
    ty: &ExtendedType,
) -> Result<(), AllocError>
    ensures { OnOk result (NotesAll noted.old noted.new (namings_of (name.now.text, extended_type ty.now))) }
{
    let is_object = ty.is_object();
    let interfaces = interfaces_of(ty);
    for interface in interfaces {
        note_name(alloc, noted, interface, is_object, name)?;
    }
    Ok(())
}

/// Notes that the type lists the interface.
fn note_name(
    alloc: Global,
    noted: &mut IndexMap<Name, Implementers>,
    interface: &ComponentName,
    is_object: bool,
    name: &Name,
) -> Result<(), AllocError>
    ensures { OnOk result (Notes noted.old noted.new (naming is_object name.now.text (component_name_tree interface.now))) }
{
    let interface = interface.name.clone()?;
    // An empty one takes no memory, so it is made even if there is an entry.
    let implementers = noted.entry(interface)?.or_insert(Implementers::new(alloc));
    implementers.add(is_object, name)
}
