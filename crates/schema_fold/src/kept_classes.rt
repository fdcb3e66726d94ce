//! The first component of each name, of all classes of components.
ghost use Rattle.std.specs.Prelude.{◌≡◌, ◌++◌, OnOk};
ghost use Rattle.schema_fold.specs.FaultView.{faults_of};
ghost use Rattle.schema_fold.specs.Collected.{collected};
ghost use Rattle.schema_fold.specs.Kept.{KeepsNothing, kept, kept_from, interface_repeat, field_repeat, component_faults};

use crate::build_error::{BuildError, Repeat};
use crate::collected::Collected;
use crate::keep::{keep_components, keep_names};
use graphql_names::{Name, SourceSpan};
use indexmap::{IndexMap, IndexSet};
use schema_types::{Component, ComponentName, EnumValueDefinition, FieldDefinition, TypeKind};
use std::alloc::{AllocError, Global};
use std::mem;
use tree_directives::{Directive, InputValueDefinition};

/// What a type keeps of all that it is given: the first component of each name, and all applied directives.
pub(crate) struct Kept {
    pub(crate) directives: Vec<Component<Directive>>,
    pub(crate) interfaces: IndexSet<ComponentName>,
    pub(crate) fields: IndexMap<Name, Component<FieldDefinition>>,
    pub(crate) members: IndexSet<ComponentName>,
    pub(crate) values: IndexMap<Name, Component<EnumValueDefinition>>,
    pub(crate) inputs: IndexMap<Name, Component<InputValueDefinition>>,
}

/// Drops each class, here and not at each place where a `Kept` is dropped.
impl Drop for Kept {
    fn drop(self) {
        let Kept {
            directives: _,
            interfaces: _,
            fields: _,
            members: _,
            values: _,
            inputs: _,
        } = self;
    }
}

impl Kept {
    /// Without components.
    pub(crate) fn new(alloc: Global) -> Kept
        ensures { KeepsNothing result }
    {
        Kept {
            directives: Vec::new(alloc),
            interfaces: IndexSet::new(alloc),
            fields: IndexMap::new(alloc),
            members: IndexSet::new(alloc),
            values: IndexMap::new(alloc),
            inputs: IndexMap::new(alloc),
        }
    }

    /// Keeps the first component of each name, shared, and tells the others. All directives are taken.
    pub(crate) fn keep_all(
        &mut self,
        kind: TypeKind,
        type_name: &Name,
        all: &mut Collected,
        faults: &mut Vec<(Option<SourceSpan>, BuildError)>,
    ) -> Result<(), AllocError>
        requires { KeepsNothing self.old }
        ensures kept { OnOk result (kept self.new ≡ kept_from (collected all.old)) }
        ensures faults { OnOk result (faults_of faults.new ≡ faults_of faults.old ++ component_faults kind type_name.now.text (collected all.old)) }
    {
        // A directive may be applied twice, if it is repeatable: that is judged with its uses, so none is dropped here.
        mem::swap(&mut self.directives, &mut all.directives);
        keep_names(
            type_name,
            interface_repeat(kind),
            all.interfaces.as_slice(),
            &mut self.interfaces,
            faults,
        )?;
        keep_components(
            type_name,
            field_repeat(kind),
            all.fields.as_slice(),
            &mut self.fields,
            faults,
        )?;
        keep_names(
            type_name,
            Repeat::UnionMember,
            all.members.as_slice(),
            &mut self.members,
            faults,
        )?;
        keep_components(
            type_name,
            Repeat::EnumValue,
            all.values.as_slice(),
            &mut self.values,
            faults,
        )?;
        keep_components(
            type_name,
            Repeat::InputField,
            all.inputs.as_slice(),
            &mut self.inputs,
            faults,
        )?;
        Ok(())
    }
}

/// The rule that a second interface of one name breaks.
// Apart from objects, only interfaces list any.
fn interface_repeat(kind: TypeKind) -> Repeat
    ensures { result ≡ interface_repeat kind }
{
    match kind {
        TypeKind::Object => Repeat::ObjectInterface,
        _ => Repeat::InterfaceInterface,
    }
}

/// The rule that a second field of one name breaks.
// Apart from objects, only interfaces have any: input fields are a separate class.
fn field_repeat(kind: TypeKind) -> Repeat
    ensures { result ≡ field_repeat kind }
{
    match kind {
        TypeKind::Object => Repeat::ObjectField,
        _ => Repeat::InterfaceField,
    }
}
