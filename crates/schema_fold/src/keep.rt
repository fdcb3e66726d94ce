//! The first component of each name.
ghost use Rattle.std.specs.Prelude.{◌≡◌, ◌++◌, [], map, OnOk};
ghost use Rattle.graphql_names.specs.NameValue.{NameValue};
ghost use Rattle.schema_types.specs.in_components.Lists.{firsts};
ghost use Rattle.schema_types.specs.in_components.Names.{entries_of};
ghost use Rattle.schema_types.specs.in_components.Given.{component_tree, component_name_tree, given_name};
ghost use Rattle.schema_types.specs.TypeView.{name_text};
ghost use Rattle.schema_fold.specs.Components.{keyed_firsts};
ghost use Rattle.schema_fold.specs.FaultView.{faults_of};
ghost use Rattle.schema_fold.specs.PartsView.{itself, given_contents};
ghost use Rattle.schema_fold.specs.Keeping.{content_key};
ghost use Rattle.schema_fold.specs.RepeatedComponents.{told_of_components, told_of_names};

use crate::build_error::{BuildError, Repeat, note_repeat};
use crate::insert::insert_new;
use graphql_names::{Name, SourceSpan};
use indexmap::{IndexMap, IndexSet};
use schema_types::{Component, ComponentName, EnumValueDefinition, FieldDefinition};
use std::alloc::AllocError;
use tree_directives::InputValueDefinition;

/// A component that a type has under its name.
pub trait Keyed {
    /// Its name.
    ghost key_of: { Self → NameValue };

    /// Its name.
    fn key(&self) -> &Name
        ensures { result.now ≡ key_of self.now };
}

impl Keyed for FieldDefinition {
    ghost key_of = { λ f. f.name };

    fn key(&self) -> &Name {
        &self.name
    }
}

impl Keyed for EnumValueDefinition {
    ghost key_of = { λ v. v.value };

    fn key(&self) -> &Name {
        &self.value
    }
}

impl Keyed for InputValueDefinition {
    ghost key_of = { λ v. v.name };

    fn key(&self) -> &Name {
        &self.name
    }
}

/// Keeps the first component of each name, shared, and tells the others.
pub(crate) fn keep_components<T: Keyed + Drop>(
    type_name: &Name,
    repeat: Repeat,
    all: &[Component<T>],
    kept: &mut IndexMap<Name, Component<T>>,
    faults: &mut Vec<(Option<SourceSpan>, BuildError)>,
) -> Result<(), AllocError>
    requires { kept.old.entries ≡ [] }
    ensures kept { OnOk result (entries_of name_text (component_tree itself) kept.new ≡ keyed_firsts (content_key T.key_of) (given_contents all.now)) }
    ensures faults { OnOk result (faults_of faults.new ≡ faults_of faults.old ++ told_of_components T.key_of repeat type_name.now.text (given_contents all.now)) }
{
    for component in all {
        let name = component.node.content().key();
        if kept.contains_key(name) {
            note_repeat(faults, repeat, type_name, name, component.node.location())?;
        } else {
            let shared = component.clone()?;
            insert_new(kept, name, shared)?;
        }
    }
    Ok(())
}

/// Keeps the first component of each name, shared, and tells the others.
pub(crate) fn keep_names(
    type_name: &Name,
    repeat: Repeat,
    all: &[ComponentName],
    kept: &mut IndexSet<ComponentName>,
    faults: &mut Vec<(Option<SourceSpan>, BuildError)>,
) -> Result<(), AllocError>
    requires { kept.old.keys ≡ [] }
    ensures kept { OnOk result (map component_name_tree kept.new.keys ≡ firsts given_name (map component_name_tree all.now)) }
    ensures faults { OnOk result (faults_of faults.new ≡ faults_of faults.old ++ told_of_names repeat type_name.now.text (map component_name_tree all.now)) }
{
    for component in all {
        if kept.contains(component) {
            let name = &component.name;
            note_repeat(faults, repeat, type_name, name, name.location())?;
        } else {
            kept.insert(component.clone()?)?;
        }
    }
    Ok(())
}
