//! What each giver gave to a type.
ghost use Rattle.std.specs.Prelude.{◌≡◌, [], OnOk};
ghost use Rattle.indexmap.specs.IndexMap.{values};
ghost use Rattle.schema_components.specs.Given.{origin_tree};
ghost use Rattle.schema_writing.specs.Contents.{all_parts, parts_given_by, type_contents};
ghost use Rattle.schema_writing.specs.ContentsView.{FilesFields, GivesNothing, HoldsNothing, filed_parts, parts_view};

use crate::filing::{copy_names, copy_nodes, file_components, file_names, take};
use graphql_names::{Name, Node};
use indexmap::{IndexMap, IndexSet};
use schema_components::{Component, ComponentName, ComponentOrigin};
use schema_types::ExtendedType;
use std::alloc::{AllocError, Global};
use tree_directives::{Directive, DirectiveList, InputValueDefinition};
use tree_type_members::{EnumValueDefinition, FieldDefinition};

/// What a type has, filed under the definition and the extensions that gave it.
#[derive(Drop)]
pub(crate) struct FiledType {
    directives: IndexMap<ComponentOrigin, Vec<Node<Directive>>>,
    interfaces: IndexMap<ComponentOrigin, Vec<Name>>,
    fields: IndexMap<ComponentOrigin, Vec<Node<FieldDefinition>>>,
    members: IndexMap<ComponentOrigin, Vec<Name>>,
    values: IndexMap<ComponentOrigin, Vec<Node<EnumValueDefinition>>>,
    inputs: IndexMap<ComponentOrigin, Vec<Node<InputValueDefinition>>>,
}

impl FiledType {
    /// Without components.
    pub(crate) fn new(alloc: Global) -> FiledType
        ensures { HoldsNothing result }
    {
        FiledType {
            directives: IndexMap::new(alloc),
            interfaces: IndexMap::new(alloc),
            fields: IndexMap::new(alloc),
            members: IndexMap::new(alloc),
            values: IndexMap::new(alloc),
            inputs: IndexMap::new(alloc),
        }
    }

    /// Files what a type has, each component once.
    pub(crate) fn file(&mut self, alloc: Global, t: &ExtendedType) -> Result<(), AllocError>
        requires { HoldsNothing self.old }
        ensures { OnOk result ((giver : _) → filed_parts giver self.new ≡ parts_given_by giver (type_contents t.now)) }
    {
        file_components(alloc, &t.directives().0, &mut self.directives)?;
        match t {
            ExtendedType::Scalar(_) => Ok(()),
            ExtendedType::Object(node) => {
                let t = node.content();
                self.file_fields(alloc, &t.implements_interfaces, &t.fields)
            }
            ExtendedType::Interface(node) => {
                let t = node.content();
                self.file_fields(alloc, &t.implements_interfaces, &t.fields)
            }
            ExtendedType::Union(node) => {
                file_names(alloc, node.content().members.as_slice(), &mut self.members)
            }
            ExtendedType::Enum(node) => {
                file_components(
                    alloc,
                    node.content().values.values().as_slice(),
                    &mut self.values,
                )
            }
            ExtendedType::InputObject(node) => {
                file_components(
                    alloc,
                    node.content().fields.values().as_slice(),
                    &mut self.inputs,
                )
            }
        }
    }

    /// Files the interfaces and the fields of an object or interface type.
    fn file_fields(
        &mut self,
        alloc: Global,
        interfaces: &IndexSet<ComponentName>,
        fields: &IndexMap<Name, Component<FieldDefinition>>,
    ) -> Result<(), AllocError>
        requires interfaces { self.old.interfaces.entries ≡ [] }
        requires fields { self.old.fields.entries ≡ [] }
        ensures { OnOk result (FilesFields interfaces.now.keys (values fields.now) self.old self.new) }
    {
        file_names(alloc, interfaces.as_slice(), &mut self.interfaces)?;
        file_components(alloc, fields.values().as_slice(), &mut self.fields)
    }
}

/// What one giver gave to a type.
pub(crate) struct Parts {
    pub(crate) directives: DirectiveList,
    pub(crate) interfaces: Vec<Name>,
    pub(crate) fields: Vec<Node<FieldDefinition>>,
    pub(crate) members: Vec<Name>,
    pub(crate) values: Vec<Node<EnumValueDefinition>>,
    pub(crate) inputs: Vec<Node<InputValueDefinition>>,
}

/// Drops each class, here and not at each place where a `Parts` is dropped.
impl Drop for Parts {
    fn drop(self) {
        let Parts {
            directives: _,
            interfaces: _,
            fields: _,
            members: _,
            values: _,
            inputs: _,
        } = self;
    }
}

impl Parts {
    /// Without components.
    pub(crate) fn new(alloc: Global) -> Parts
        ensures { GivesNothing result }
    {
        Parts {
            directives: DirectiveList(Vec::new(alloc)),
            interfaces: Vec::new(alloc),
            fields: Vec::new(alloc),
            members: Vec::new(alloc),
            values: Vec::new(alloc),
            inputs: Vec::new(alloc),
        }
    }

    /// Takes, shared, all that the type has, from its definition and its extensions.
    pub(crate) fn take_all(&mut self, t: &ExtendedType) -> Result<(), AllocError>
        requires { GivesNothing self.old }
        ensures { OnOk result (parts_view self.new ≡ all_parts (type_contents t.now)) }
    {
        copy_nodes(&t.directives().0, &mut self.directives.0)?;
        match t {
            ExtendedType::Scalar(_) => Ok(()),
            ExtendedType::Object(node) => {
                let t = node.content();
                copy_names(t.implements_interfaces.as_slice(), &mut self.interfaces)?;
                copy_nodes(t.fields.values().as_slice(), &mut self.fields)
            }
            ExtendedType::Interface(node) => {
                let t = node.content();
                copy_names(t.implements_interfaces.as_slice(), &mut self.interfaces)?;
                copy_nodes(t.fields.values().as_slice(), &mut self.fields)
            }
            ExtendedType::Union(node) => {
                copy_names(node.content().members.as_slice(), &mut self.members)
            }
            ExtendedType::Enum(node) => {
                copy_nodes(node.content().values.values().as_slice(), &mut self.values)
            }
            ExtendedType::InputObject(node) => {
                copy_nodes(node.content().fields.values().as_slice(), &mut self.inputs)
            }
        }
    }

    /// Takes, shared, what this giver gave to the type.
    // The lists are filled one by one in a `Parts` of the caller: as locals here they would live across each `?`.
    pub(crate) fn take_given(
        &mut self,
        filed: &FiledType,
        giver: ComponentOrigin,
    ) -> Result<(), AllocError>
        requires { GivesNothing self.old }
        ensures { OnOk result (parts_view self.new ≡ filed_parts (origin_tree giver) filed.now) }
    {
        take(&filed.directives, giver, &mut self.directives.0)?;
        take(&filed.interfaces, giver, &mut self.interfaces)?;
        take(&filed.fields, giver, &mut self.fields)?;
        take(&filed.members, giver, &mut self.members)?;
        take(&filed.values, giver, &mut self.values)?;
        take(&filed.inputs, giver, &mut self.inputs)
    }
}
