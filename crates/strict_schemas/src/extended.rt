//! ExtendedBuiltIn: what a text adds to a built-in type other than a scalar (section 4.2).
ghost use Rattle.std.specs.Prelude.{◌≡◌, map, flat_map, OnOk};
ghost use Rattle.graphql_names.specs.Places.{is_built_in};
ghost use Rattle.schema_components.specs.Given.{component_name_tree};
ghost use Rattle.schema_components.specs.Applied.{applied_tree};
ghost use Rattle.schema_types.specs.TypeView.{extended_type};
ghost use Rattle.strict_documents.specs.DepartureViews.{Tells};
ghost use Rattle.strict_schemas.specs.Departing.{added_departures, added_directive, added_name, added_field, added_value, added_input, added_to, is_built_in_other, extended_departures};
ghost use Rattle.strict_schemas.specs.Told.{added_fields_of, added_values_of, added_inputs_of};

use crate::parts::{fields_of, input_fields_of, interfaces_of, members_of, values_of};
use crate::telling::tell_if;
use graphql_names::{FileId, Name, SourceSpan};
use indexmap::IndexMap;
use schema_components::{Component, ComponentName, DirectiveList};
use schema_types::ExtendedType;
use std::alloc::AllocError;
use strict_documents::{Departure, DepartureKind};
use tree_directives::InputValueDefinition;
use tree_type_members::{EnumValueDefinition, FieldDefinition};

/// Whether a place is in the file of the built-in definitions.
fn is_built_in(location: Option<SourceSpan>) -> bool
    ensures { result ≡ is_built_in location }
{
    match location {
        None => false,
        Some(location) => location.file_id == FileId::BUILT_IN,
    }
}

/// ExtendedBuiltIn: a built-in type other than a scalar is as the specification defines it only if all that it has is built in
/// (section 4.2). Told of what a text adds under that name.
fn tell_added(
    location: Option<SourceSpan>,
    name: &Name,
    departures: &mut Vec<Departure>,
) -> Result<(), AllocError>
    ensures { OnOk result (Tells departures.old departures.new (added_departures location name.now.text)) }
{
    let is_told = !is_built_in(location);
    let kind = DepartureKind::ExtendedBuiltIn;
    tell_if(is_told, location, kind, name, departures)
}

/// Adds the directives that texts add.
fn tell_added_directives(
    list: &DirectiveList,
    departures: &mut Vec<Departure>,
) -> Result<(), AllocError>
    ensures { OnOk result (Tells departures.old departures.new (flat_map added_directive (applied_tree list.now))) }
{
    for directive in &list.0 {
        let node = &directive.node;
        tell_added(node.location(), &node.content().name, departures)?;
    }
    Ok(())
}

/// Adds the interfaces or members that texts add.
fn tell_added_names(
    names: &[ComponentName],
    departures: &mut Vec<Departure>,
) -> Result<(), AllocError>
    ensures { OnOk result (Tells departures.old departures.new (flat_map added_name (map component_name_tree names.now))) }
{
    for component in names {
        let name = &component.name;
        tell_added(name.location(), name, departures)?;
    }
    Ok(())
}

/// Adds the fields that texts add.
#[tactic(auto, using(crate::proofs::Steps::room_steps))]
fn tell_added_fields(
    fields: &IndexMap<Name, Component<FieldDefinition>>,
    departures: &mut Vec<Departure>,
) -> Result<(), AllocError>
    ensures { OnOk result (Tells departures.old departures.new (added_fields_of fields.now.entries)) }
{
    for (_, field) in fields {
        let node = &field.node;
        tell_added(node.location(), &node.content().name, departures)?;
    }
    Ok(())
}

/// Adds the values that texts add.
#[tactic(auto, using(crate::proofs::Steps::room_steps))]
fn tell_added_values(
    values: &IndexMap<Name, Component<EnumValueDefinition>>,
    departures: &mut Vec<Departure>,
) -> Result<(), AllocError>
    ensures { OnOk result (Tells departures.old departures.new (added_values_of values.now.entries)) }
{
    for (_, value) in values {
        let node = &value.node;
        tell_added(node.location(), &node.content().value, departures)?;
    }
    Ok(())
}

/// Adds the input fields that texts add.
#[tactic(auto, using(crate::proofs::Steps::room_steps))]
fn tell_added_inputs(
    fields: &IndexMap<Name, Component<InputValueDefinition>>,
    departures: &mut Vec<Departure>,
) -> Result<(), AllocError>
    ensures { OnOk result (Tells departures.old departures.new (added_inputs_of fields.now.entries)) }
{
    for (_, field) in fields {
        let node = &field.node;
        tell_added(node.location(), &node.content().name, departures)?;
    }
    Ok(())
}

/// Adds the fields of a type that texts add.
fn tell_fields_of(ty: &ExtendedType, departures: &mut Vec<Departure>) -> Result<(), AllocError>
    ensures { OnOk result (Tells departures.old departures.new (flat_map added_field (extended_type ty.now).fields)) }
{
    match fields_of(ty) {
        None => Ok(()),
        Some(fields) => tell_added_fields(fields, departures),
    }
}

/// Adds the values of a type that texts add.
fn tell_values_of(ty: &ExtendedType, departures: &mut Vec<Departure>) -> Result<(), AllocError>
    ensures { OnOk result (Tells departures.old departures.new (flat_map added_value (extended_type ty.now).values)) }
{
    match values_of(ty) {
        None => Ok(()),
        Some(values) => tell_added_values(values, departures),
    }
}

/// Adds the input fields of a type that texts add.
fn tell_inputs_of(ty: &ExtendedType, departures: &mut Vec<Departure>) -> Result<(), AllocError>
    ensures { OnOk result (Tells departures.old departures.new (flat_map added_input (extended_type ty.now).inputs)) }
{
    match input_fields_of(ty) {
        None => Ok(()),
        Some(fields) => tell_added_inputs(fields, departures),
    }
}

/// Adds what texts add to a type.
fn tell_added_to(ty: &ExtendedType, departures: &mut Vec<Departure>) -> Result<(), AllocError>
    ensures { OnOk result (Tells departures.old departures.new (added_to (extended_type ty.now))) }
{
    tell_added_directives(ty.directives(), departures)?;
    tell_added_names(interfaces_of(ty), departures)?;
    tell_fields_of(ty, departures)?;
    tell_added_names(members_of(ty), departures)?;
    tell_values_of(ty, departures)?;
    tell_inputs_of(ty, departures)
}

/// Whether a type is built in, and no scalar.
fn is_built_in_other(ty: &ExtendedType) -> bool
    ensures { result ≡ is_built_in_other (extended_type ty.now) }
{
    ty.is_built_in() && !ty.is_scalar()
}

/// Adds what texts add to a type, if it is built in and no scalar.
pub(crate) fn tell_extended(
    ty: &ExtendedType,
    departures: &mut Vec<Departure>,
) -> Result<(), AllocError>
    ensures { OnOk result (Tells departures.old departures.new (extended_departures (extended_type ty.now))) }
{
    if !is_built_in_other(ty) {
        return Ok(());
    }
    tell_added_to(ty, departures)
}
