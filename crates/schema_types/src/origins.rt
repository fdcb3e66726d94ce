//! The origins of components, in order.
ghost use Rattle.std.specs.Prelude.{◌≡◌, IfOk, OnOk};
ghost use Rattle.std.specs.Iterator.{YieldsFirst, item_count};
ghost use Rattle.schema_types.specs.Origins.{component_origins, extensions_in};
ghost use Rattle.schema_types.specs.OriginsLeft.{left_origins, noted};

use indexmap::IndexSet;
use schema_components::{
    Component, ComponentName, ComponentOrigin, Directive, ExtensionId, InputValueDefinition,
};
use spec_tree::{EnumValueDefinition, FieldDefinition};
use std::alloc::{AllocError, Global};

/// The origins of the components that are left: applied directives, then roots, then interfaces or members,
/// then fields, values or input fields.
// One form for the schema and all kinds of types; what a kind lacks is empty in it. So one iterator is proved.
#[derive(Drop)]
pub struct Origins<'a> {
    pub(crate) directives: &'a [Component<Directive>],
    pub(crate) query: Option<ComponentOrigin>,
    pub(crate) mutation: Option<ComponentOrigin>,
    pub(crate) subscription: Option<ComponentOrigin>,
    pub(crate) names: &'a [ComponentName],
    pub(crate) fields: &'a [Component<FieldDefinition>],
    pub(crate) values: &'a [Component<EnumValueDefinition>],
    pub(crate) inputs: &'a [Component<InputValueDefinition>],
}

impl<'a> Origins<'a> {
    /// The extensions among the origins, each once, in the order of first appearance.
    #[tactic(auto, using(crate::proofs::Noted::noted_push))]
    pub fn extensions(self, alloc: Global) -> Result<IndexSet<ExtensionId>, AllocError>
        ensures { IfOk result (λ s. s.keys ≡ extensions_in (left_origins self.entry)) }
    {
        let mut ids = IndexSet::new(alloc);
        for origin in self {
            note_extension(&mut ids, origin)?;
        }
        Ok(ids)
    }
}

impl<'a> Iterator for Origins<'a> {
    type Item = ComponentOrigin;

    ghost next_gives = { YieldsFirst left_origins };

    ghost remaining = { item_count left_origins };

    fn next(&mut self) -> Option<ComponentOrigin> {
        if let Some(origin) = next_component(&mut self.directives) {
            return Some(origin);
        }
        if let Some(origin) = self.query.take() {
            return Some(origin);
        }
        if let Some(origin) = self.mutation.take() {
            return Some(origin);
        }
        if let Some(origin) = self.subscription.take() {
            return Some(origin);
        }
        if let Some((first, others)) = self.names.split_first() {
            self.names = others;
            return Some(first.origin);
        }
        if let Some(origin) = next_component(&mut self.fields) {
            return Some(origin);
        }
        if let Some(origin) = next_component(&mut self.values) {
            return Some(origin);
        }
        next_component(&mut self.inputs)
    }
}

/// Removes the first component, and returns its origin.
fn next_component<'a, T>(components: &mut &'a [Component<T>]) -> Option<ComponentOrigin>
    ensures { YieldsFirst (λ cs. component_origins cs.now) components.old result components.new }
{
    let (first, others) = components.split_first()?;
    *components = others;
    Some(first.origin)
}

/// Notes the extension, if the origin is one that is not noted yet.
fn note_extension(
    ids: &mut IndexSet<ExtensionId>,
    origin: ComponentOrigin,
) -> Result<(), AllocError>
    ensures { OnOk result (ids.new.keys ≡ noted ids.old.keys origin) }
{
    if let ComponentOrigin::Extension(id) = origin {
        ids.insert(id)?;
    }
    Ok(())
}
