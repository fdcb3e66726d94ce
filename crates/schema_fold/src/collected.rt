//! All that a type is given, repeated components too.
ghost use Rattle.std.specs.Prelude.{◌≡◌, ◌++◌, [], map, OnOk};
ghost use Rattle.graphql_names.specs.Placed.{name_tree, node_tree};
ghost use Rattle.schema_types.specs.in_components.Given.{origin_tree};
ghost use Rattle.schema_fold.specs.Components.{all_given};
ghost use Rattle.schema_fold.specs.PartsView.{itself, given_contents, parts_view};
ghost use Rattle.schema_fold.specs.Collected.{collected, collected_from, collected_and};
ghost use Rattle.schema_fold.specs.RepeatedComponents.{AddsNames};

use crate::parts::Parts;
use graphql_names::{Name, Node};
use schema_types::{
    Component, ComponentName, ComponentOrigin, EnumValueDefinition, FieldDefinition,
};
use std::alloc::{AllocError, Global};
use tree_directives::{Directive, InputValueDefinition};

/// Adds these nodes, shared, with that origin.
pub fn add_components<T: Drop>(
    all: &mut Vec<Component<T>>,
    origin: ComponentOrigin,
    nodes: &[Node<T>],
) -> Result<(), AllocError>
    ensures { OnOk result (given_contents all.new.items ≡ given_contents all.old.items ++ all_given (origin_tree origin) (map (node_tree itself) nodes.now)) }
{
    for node in nodes {
        let node = node.clone()?;
        all.push(Component::new(origin, node))?;
    }
    Ok(())
}

/// Adds these names, with that origin.
pub(crate) fn add_names(
    all: &mut Vec<ComponentName>,
    origin: ComponentOrigin,
    names: &[Name],
) -> Result<(), AllocError>
    ensures { OnOk result (AddsNames all.old all.new (all_given (origin_tree origin) (map name_tree names.now))) }
{
    for name in names {
        let name = name.clone()?;
        all.push(ComponentName { origin, name })?;
    }
    Ok(())
}

/// All that a type is given, in order, repeated components too.
pub(crate) struct Collected {
    pub(crate) directives: Vec<Component<Directive>>,
    pub(crate) interfaces: Vec<ComponentName>,
    pub(crate) fields: Vec<Component<FieldDefinition>>,
    pub(crate) members: Vec<ComponentName>,
    pub(crate) values: Vec<Component<EnumValueDefinition>>,
    pub(crate) inputs: Vec<Component<InputValueDefinition>>,
}

/// Drops each class, here and not at each place where a `Collected` is dropped.
impl Drop for Collected {
    fn drop(self) {
        let Collected {
            directives: _,
            interfaces: _,
            fields: _,
            members: _,
            values: _,
            inputs: _,
        } = self;
    }
}

impl Collected {
    /// Without components.
    pub(crate) fn new(alloc: Global) -> Collected
        ensures { collected result ≡ collected_from [] }
    {
        Collected {
            directives: Vec::new(alloc),
            interfaces: Vec::new(alloc),
            fields: Vec::new(alloc),
            members: Vec::new(alloc),
            values: Vec::new(alloc),
            inputs: Vec::new(alloc),
        }
    }

    /// Adds these parts, with that origin.
    pub(crate) fn add(
        &mut self,
        origin: ComponentOrigin,
        parts: &Parts<'_>,
    ) -> Result<(), AllocError>
        ensures { OnOk result (collected self.new ≡ collected_and (collected self.old) (record { extension = origin_tree origin; it = parts_view parts.now })) }
    {
        add_components(&mut self.directives, origin, &parts.directives.0)?;
        add_names(&mut self.interfaces, origin, parts.interfaces)?;
        add_components(&mut self.fields, origin, parts.fields)?;
        add_names(&mut self.members, origin, parts.members)?;
        add_components(&mut self.values, origin, parts.values)?;
        add_components(&mut self.inputs, origin, parts.inputs)
    }
}
