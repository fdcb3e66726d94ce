//! A type must not be empty (sections 3.6 to 3.10).
ghost use Rattle.std.specs.Prelude.{◌≡◌, map, IfOk, OnOk};
ghost use Rattle.rule_types.specs.Adds.{AddsThese};
ghost use Rattle.fault_data.specs.in_rule_definitions.Rules.{extension_places};
ghost use Rattle.schema_types.specs.TypeView.{extended_type};
ghost use Rattle.schema_components.specs.Given.{place_of};
ghost use Rattle.rule_types.specs.FaultLists.{empty_field_set, empty_member_set, empty_value_set, empty_input_value_set};

use crate::rule_context::RuleContext;
use fault_data::{DiagnosticData, Fault, tell};
use graphql_names::{Name, SourceSpan};
use indexmap::{IndexMap, IndexSet};
use schema_components::{Component, ComponentName, ExtensionId};
use schema_types::ExtendedType;
use std::alloc::{AllocError, Global};
use tree_directives::InputValueDefinition;
use tree_type_members::{EnumValueDefinition, FieldDefinition};

/// EmptyFieldSet: an object or interface type is valid only if it has a field (sections 3.6 and 3.7).
pub(crate) fn empty_field_set(
    judging: &RuleContext<'_>,
    name: &Name,
    ty: &ExtendedType,
    fields: &IndexMap<Name, Component<FieldDefinition>>,
    faults: &mut Vec<Fault>,
) -> Result<(), AllocError>
    ensures { OnOk result (AddsThese faults.old faults.new (empty_field_set name.now.text (extended_type ty.now) fields.now.entries)) }
{
    if !fields.is_empty() {
        return Ok(());
    }
    let extensions_locations = extension_places(judging.alloc, ty)?;
    let type_name = name.clone()?;
    tell(
        faults,
        Some(Fault {
            location: ty.location(),
            data: DiagnosticData::EmptyFieldSet {
                type_name,
                type_location: ty.location(),
                extensions_locations,
            },
        }),
    )
}

/// EmptyMemberSet: a union type is valid only if it has a member (section 3.8).
pub(crate) fn empty_member_set(
    judging: &RuleContext<'_>,
    name: &Name,
    ty: &ExtendedType,
    members: &IndexSet<ComponentName>,
    faults: &mut Vec<Fault>,
) -> Result<(), AllocError>
    ensures { OnOk result (AddsThese faults.old faults.new (empty_member_set name.now.text (extended_type ty.now) members.now.keys)) }
{
    if !members.is_empty() {
        return Ok(());
    }
    let extensions_locations = extension_places(judging.alloc, ty)?;
    let type_name = name.clone()?;
    tell(
        faults,
        Some(Fault {
            location: ty.location(),
            data: DiagnosticData::EmptyMemberSet {
                type_name,
                type_location: ty.location(),
                extensions_locations,
            },
        }),
    )
}

/// EmptyValueSet: an enum type is valid only if it has a value (section 3.9).
pub(crate) fn empty_value_set(
    judging: &RuleContext<'_>,
    name: &Name,
    ty: &ExtendedType,
    values: &IndexMap<Name, Component<EnumValueDefinition>>,
    faults: &mut Vec<Fault>,
) -> Result<(), AllocError>
    ensures { OnOk result (AddsThese faults.old faults.new (empty_value_set name.now.text (extended_type ty.now) values.now.entries)) }
{
    if !values.is_empty() {
        return Ok(());
    }
    let extensions_locations = extension_places(judging.alloc, ty)?;
    let type_name = name.clone()?;
    tell(
        faults,
        Some(Fault {
            location: ty.location(),
            data: DiagnosticData::EmptyValueSet {
                type_name,
                type_location: ty.location(),
                extensions_locations,
            },
        }),
    )
}

/// EmptyInputValueSet: an input object type is valid only if it has a field (section 3.10).
pub(crate) fn empty_input_value_set(
    judging: &RuleContext<'_>,
    name: &Name,
    ty: &ExtendedType,
    fields: &IndexMap<Name, Component<InputValueDefinition>>,
    faults: &mut Vec<Fault>,
) -> Result<(), AllocError>
    ensures { OnOk result (AddsThese faults.old faults.new (empty_input_value_set name.now.text (extended_type ty.now) fields.now.entries)) }
{
    if !fields.is_empty() {
        return Ok(());
    }
    let extensions_locations = extension_places(judging.alloc, ty)?;
    let type_name = name.clone()?;
    tell(
        faults,
        Some(Fault {
            location: ty.location(),
            data: DiagnosticData::EmptyInputValueSet {
                type_name,
                type_location: ty.location(),
                extensions_locations,
            },
        }),
    )
}

/// The places of the extensions of a type, each once, in the order of their first components.
fn extension_places(alloc: Global, ty: &ExtendedType) -> Result<Vec<Option<SourceSpan>>, AllocError>
    ensures { IfOk result (λ places. places.items ≡ extension_places (extended_type ty.now)) }
{
    let extensions = ty.extensions(alloc)?;
    places_of(alloc, &extensions)
}

/// The places of these extensions.
fn places_of(
    alloc: Global,
    extensions: &IndexSet<ExtensionId>,
) -> Result<Vec<Option<SourceSpan>>, AllocError>
    ensures { IfOk result (λ places. places.items ≡ map place_of extensions.now.keys) }
{
    let mut places = Vec::new(alloc);
    for extension in extensions.as_slice() {
        places.push(extension.location())?;
    }
    Ok(places)
}
