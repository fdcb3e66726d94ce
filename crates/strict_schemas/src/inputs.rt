//! Departures of argument definitions and input fields.
ghost use Rattle.std.specs.Prelude.{◌≡◌, OnOk};
ghost use Rattle.graphql_names.specs.Placed.{node_tree};
ghost use Rattle.tree_directives.specs.DirectiveTree.{input_value_tree};
ghost use Rattle.schema_types.specs.TypeView.{extended_type};
ghost use Rattle.graphql_schema.specs.SchemaOf.{schema_tree};
ghost use Rattle.strict_documents.specs.DepartureViews.{Tells};
ghost use Rattle.strict_schemas.specs.Departing.{is_required_deprecated, deprecated_departures, default_departures, input_departures, arguments_departures, input_fields_departures};
ghost use Rattle.strict_schemas.specs.Told.{inputs_of_nodes, arguments_in, input_fields_in};

use crate::parts::{fields_of, input_fields_of};
use crate::telling::tell_if;
use graphql_names::{Name, Node};
use indexmap::IndexMap;
use rule_values::{DefinedVariables, IndexedSchema};
use schema_components::Component;
use schema_types::ExtendedType;
use std::alloc::AllocError;
use strict_documents::{Departure, DepartureKind, Location, Strictness, tell_value};
use tree_directives::InputValueDefinition;
use tree_type_members::FieldDefinition;

/// Whether an argument or input field is required, and deprecated.
fn is_required_deprecated(input: &InputValueDefinition) -> bool
    ensures { result ≡ is_required_deprecated (input_value_tree input.now) }
{
    input.is_required() && input.directives.get("deprecated").is_some()
}

/// RequiredDeprecated: an argument or input field that is required is not deprecated (section 3.13.3).
fn tell_deprecated(
    input: &Node<InputValueDefinition>,
    departures: &mut Vec<Departure>,
) -> Result<(), AllocError>
    ensures { OnOk result (Tells departures.old departures.new (deprecated_departures (node_tree input_value_tree input.now))) }
{
    let own = input.content();
    let is_told = is_required_deprecated(own);
    let kind = DepartureKind::RequiredDeprecated;
    tell_if(is_told, input.location(), kind, &own.name, departures)
}

/// FloatPast64Bits and ItemIsNoList: adds those at any depth of the default of an argument or input field, if it has one.
fn tell_default(
    schema: &IndexedSchema<'_>,
    input: &InputValueDefinition,
    departures: &mut Vec<Departure>,
) -> Result<(), AllocError>
    ensures { OnOk result (Tells departures.old departures.new (default_departures (schema_tree schema.now) (input_value_tree input.now))) }
{
    match &input.default_value {
        None => Ok(()),
        Some(value) => {
            let variables = DefinedVariables::listed(&[]);
            let strictness = Strictness {
                schema,
                variables: &variables,
            };
            let location = Location::of_argument(input);
            tell_value(&strictness, location, value, departures)
        }
    }
}

/// Adds the departures of an argument or input field.
fn tell_input(
    schema: &IndexedSchema<'_>,
    input: &Node<InputValueDefinition>,
    departures: &mut Vec<Departure>,
) -> Result<(), AllocError>
    ensures { OnOk result (Tells departures.old departures.new (input_departures (schema_tree schema.now) (node_tree input_value_tree input.now))) }
{
    tell_deprecated(input, departures)?;
    tell_default(schema, input.content(), departures)
}

/// Adds the departures of argument definitions.
pub(crate) fn tell_inputs(
    schema: &IndexedSchema<'_>,
    inputs: &[Node<InputValueDefinition>],
    departures: &mut Vec<Departure>,
) -> Result<(), AllocError>
    ensures { OnOk result (Tells departures.old departures.new (inputs_of_nodes (schema_tree schema.now) inputs.now)) }
{
    for input in inputs {
        tell_input(schema, input, departures)?;
    }
    Ok(())
}

/// Adds the departures of the arguments of fields.
#[tactic(auto, using(crate::proofs::Steps::room_steps))]
fn tell_arguments_in(
    schema: &IndexedSchema<'_>,
    fields: &IndexMap<Name, Component<FieldDefinition>>,
    departures: &mut Vec<Departure>,
) -> Result<(), AllocError>
    ensures { OnOk result (Tells departures.old departures.new (arguments_in (schema_tree schema.now) fields.now.entries)) }
{
    for (_, field) in fields {
        let arguments = field.node.content().arguments.as_slice();
        tell_inputs(schema, arguments, departures)?;
    }
    Ok(())
}

/// Adds the departures of input fields.
#[tactic(auto, using(crate::proofs::Steps::room_steps))]
fn tell_input_fields_in(
    schema: &IndexedSchema<'_>,
    fields: &IndexMap<Name, Component<InputValueDefinition>>,
    departures: &mut Vec<Departure>,
) -> Result<(), AllocError>
    ensures { OnOk result (Tells departures.old departures.new (input_fields_in (schema_tree schema.now) fields.now.entries)) }
{
    for (_, field) in fields {
        tell_input(schema, &field.node, departures)?;
    }
    Ok(())
}

/// Adds the departures of the arguments of a type's fields.
pub(crate) fn tell_arguments_of(
    schema: &IndexedSchema<'_>,
    ty: &ExtendedType,
    departures: &mut Vec<Departure>,
) -> Result<(), AllocError>
    ensures { OnOk result (Tells departures.old departures.new (arguments_departures (schema_tree schema.now) (extended_type ty.now).fields)) }
{
    match fields_of(ty) {
        None => Ok(()),
        Some(fields) => tell_arguments_in(schema, fields, departures),
    }
}

/// Adds the departures of a type's input fields.
pub(crate) fn tell_input_fields_of(
    schema: &IndexedSchema<'_>,
    ty: &ExtendedType,
    departures: &mut Vec<Departure>,
) -> Result<(), AllocError>
    ensures { OnOk result (Tells departures.old departures.new (input_fields_departures (schema_tree schema.now) (extended_type ty.now).inputs)) }
{
    match input_fields_of(ty) {
        None => Ok(()),
        Some(fields) => tell_input_fields_in(schema, fields, departures),
    }
}
