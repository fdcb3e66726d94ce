//! Departures of a whole schema.
ghost use Rattle.std.specs.Prelude.{◌≡◌, take, IfOk, OnOk};
ghost use Rattle.schema_types.specs.TypeView.{extended_type};
ghost use Rattle.graphql_schema.specs.SchemaOf.{schema_tree};
ghost use Rattle.rule_definitions.specs.Room.{most_told};
ghost use Rattle.strict_documents.specs.DepartureViews.{Tells, departures_of};
ghost use Rattle.strict_schemas.specs.Departing.{type_departures, departures_of_schema};
ghost use Rattle.strict_schemas.specs.Told.{types_in};

use crate::definitions::tell_definitions;
use crate::extended::tell_extended;
use crate::extra::tell_extra;
use crate::inputs::{tell_arguments_of, tell_input_fields_of};
use graphql_names::Name;
use graphql_schema::Schema;
use indexmap::IndexMap;
use rule_values::IndexedSchema;
use schema_types::ExtendedType;
use std::alloc::{AllocError, Global};
use strict_documents::Departure;

/// Adds the departures of a type.
fn tell_type(
    schema: &IndexedSchema<'_>,
    ty: &ExtendedType,
    departures: &mut Vec<Departure>,
) -> Result<(), AllocError>
    ensures { OnOk result (Tells departures.old departures.new (type_departures (schema_tree schema.now) (extended_type ty.now))) }
{
    tell_extended(ty, departures)?;
    tell_extra(schema.schema(), ty, departures)?;
    tell_arguments_of(schema, ty, departures)?;
    tell_input_fields_of(schema, ty, departures)
}

/// Adds the departures of types.
#[tactic(auto, using(crate::proofs::Steps::room_steps))]
fn tell_types(
    schema: &IndexedSchema<'_>,
    types: &IndexMap<Name, ExtendedType>,
    departures: &mut Vec<Departure>,
) -> Result<(), AllocError>
    ensures { OnOk result (Tells departures.old departures.new (types_in (schema_tree schema.now) types.now.entries)) }
{
    for (_, ty) in types {
        tell_type(schema, ty, departures)?;
    }
    Ok(())
}

/// Adds the departures of a schema.
fn tell_schema(
    schema: &IndexedSchema<'_>,
    departures: &mut Vec<Departure>,
) -> Result<(), AllocError>
    ensures { OnOk result (Tells departures.old departures.new (departures_of_schema (schema_tree schema.now))) }
{
    let whole = schema.schema();
    tell_types(schema, &whole.types, departures)?;
    tell_definitions(schema, &whole.directive_definitions, departures)
}

/// What the specification does not allow in a schema and the checker lets pass, apart from what `default_faults` tells: at most
/// 1,000, in the order of the schema. Fails if memory is refused.
pub fn schema_departures(alloc: Global, schema: &Schema) -> Result<Vec<Departure>, AllocError>
    ensures { IfOk result (λ told. departures_of told ≡ take most_told (departures_of_schema (schema_tree schema.now))) }
{
    let mut departures = Vec::new(alloc);
    let schema = IndexedSchema::plain(schema);
    tell_schema(&schema, &mut departures)?;
    Ok(departures)
}
