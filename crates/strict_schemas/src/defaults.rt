//! Defaults that do not fit their types (sections 3.6.1 and 3.10).
ghost use Rattle.std.specs.Prelude.{map, OnOk};
ghost use Rattle.graphql_names.specs.Node.{content, place};
ghost use Rattle.graphql_names.specs.Placed.{node_tree};
ghost use Rattle.tree_literals.specs.ValueTree.{value_tree};
ghost use Rattle.tree_directives.specs.DirectiveTree.{input_value_tree, input_value_trees};
ghost use Rattle.schema_types.specs.TypeView.{extended_type};
ghost use Rattle.graphql_schema.specs.SchemaOf.{schema_tree};
ghost use Rattle.fault_data.specs.Adds.{Adds};
ghost use Rattle.rule_values.specs.Wanting.{wanted_type};
ghost use Rattle.strict_schemas.specs.Faults.{LiteralBreaks, DefaultBreaks, DefaultsBreak};
ghost use Rattle.strict_schemas.specs.FaultsIn.{DefaultsIn, ArgumentDefaults, InputDefaults, TypesDefaults, DefinitionsDefaults};
ghost use Rattle.strict_schemas.specs.Told.{field_entry, input_entry, type_entry, definition_entry};

use crate::parts::{fields_of, input_fields_of};
use graphql_names::{Name, Node};
use indexmap::IndexMap;
use rule_values::{DefinedVariables, Fault, IndexedSchema, type_breaks, unique_input_values};
use schema_components::Component;
use schema_types::ExtendedType;
use std::alloc::AllocError;
use tree_directives::{DirectiveDefinition, InputValueDefinition};
use tree_literals::{Type, Value};
use tree_type_members::FieldDefinition;

/// Adds the faults of a value without variables, against a type: the keys of each object in it differ (section 5.6.3), and it fits the
/// type (5.6.1).
fn check_literal(
    schema: &IndexedSchema<'_>,
    ty: &Node<Type>,
    value: &Node<Value>,
    faults: &mut Vec<Fault>,
) -> Result<(), AllocError>
    ensures { OnOk result (Adds faults.old faults.new (LiteralBreaks (schema_tree schema.now) (wanted_type ty.now) (place value.now) (value_tree (content value.now)))) }
{
    unique_input_values(value, faults)?;
    let variables = DefinedVariables::listed(&[]);
    type_breaks(schema, ty, value, &variables, faults)
}

/// Adds the faults by which the default of an argument or input field, if it has one, does not fit its type.
fn check_default(
    schema: &IndexedSchema<'_>,
    input: &Node<InputValueDefinition>,
    faults: &mut Vec<Fault>,
) -> Result<(), AllocError>
    ensures { OnOk result (Adds faults.old faults.new (DefaultBreaks (schema_tree schema.now) (node_tree input_value_tree input.now))) }
{
    let own = input.content();
    match &own.default_value {
        None => Ok(()),
        Some(value) => check_literal(schema, &own.ty, value, faults),
    }
}

/// Adds the faults of the defaults of argument definitions.
fn check_arguments(
    schema: &IndexedSchema<'_>,
    arguments: &[Node<InputValueDefinition>],
    faults: &mut Vec<Fault>,
) -> Result<(), AllocError>
    ensures { OnOk result (Adds faults.old faults.new (DefaultsIn (schema_tree schema.now) (input_value_trees arguments.now))) }
{
    for argument in arguments {
        check_default(schema, argument, faults)?;
    }
    Ok(())
}

/// Adds the faults of the defaults of the arguments of fields.
fn check_fields(
    schema: &IndexedSchema<'_>,
    fields: &IndexMap<Name, Component<FieldDefinition>>,
    faults: &mut Vec<Fault>,
) -> Result<(), AllocError>
    ensures { OnOk result (Adds faults.old faults.new (ArgumentDefaults (schema_tree schema.now) (map field_entry fields.now.entries))) }
{
    for (_, field) in fields {
        let arguments = field.node.content().arguments.as_slice();
        check_arguments(schema, arguments, faults)?;
    }
    Ok(())
}

/// Adds the faults of the defaults of input fields.
fn check_inputs(
    schema: &IndexedSchema<'_>,
    fields: &IndexMap<Name, Component<InputValueDefinition>>,
    faults: &mut Vec<Fault>,
) -> Result<(), AllocError>
    ensures { OnOk result (Adds faults.old faults.new (InputDefaults (schema_tree schema.now) (map input_entry fields.now.entries))) }
{
    for (_, field) in fields {
        check_default(schema, &field.node, faults)?;
    }
    Ok(())
}

/// Adds the faults of the defaults of the arguments of a type's fields.
fn check_fields_of(
    schema: &IndexedSchema<'_>,
    ty: &ExtendedType,
    faults: &mut Vec<Fault>,
) -> Result<(), AllocError>
    ensures { OnOk result (Adds faults.old faults.new (ArgumentDefaults (schema_tree schema.now) (extended_type ty.now).fields)) }
{
    match fields_of(ty) {
        None => Ok(()),
        Some(fields) => check_fields(schema, fields, faults),
    }
}

/// Adds the faults of the defaults of a type's input fields.
fn check_inputs_of(
    schema: &IndexedSchema<'_>,
    ty: &ExtendedType,
    faults: &mut Vec<Fault>,
) -> Result<(), AllocError>
    ensures { OnOk result (Adds faults.old faults.new (InputDefaults (schema_tree schema.now) (extended_type ty.now).inputs)) }
{
    match input_fields_of(ty) {
        None => Ok(()),
        Some(fields) => check_inputs(schema, fields, faults),
    }
}

/// Adds the faults of the defaults in types.
fn check_types(
    schema: &IndexedSchema<'_>,
    types: &IndexMap<Name, ExtendedType>,
    faults: &mut Vec<Fault>,
) -> Result<(), AllocError>
    ensures { OnOk result (Adds faults.old faults.new (TypesDefaults (schema_tree schema.now) (map type_entry types.now.entries))) }
{
    for (_, ty) in types {
        check_fields_of(schema, ty, faults)?;
        check_inputs_of(schema, ty, faults)?;
    }
    Ok(())
}

/// Adds the faults of the defaults in the definitions of directives.
fn check_definitions(
    schema: &IndexedSchema<'_>,
    definitions: &IndexMap<Name, Node<DirectiveDefinition>>,
    faults: &mut Vec<Fault>,
) -> Result<(), AllocError>
    ensures { OnOk result (Adds faults.old faults.new (DefinitionsDefaults (schema_tree schema.now) (map definition_entry definitions.now.entries))) }
{
    for (_, definition) in definitions {
        let arguments = definition.content().arguments.as_slice();
        check_arguments(schema, arguments, faults)?;
    }
    Ok(())
}

/// Adds the faults by which defaults in the schema do not fit their types.
pub(crate) fn check_defaults(
    schema: &IndexedSchema<'_>,
    faults: &mut Vec<Fault>,
) -> Result<(), AllocError>
    ensures { OnOk result (Adds faults.old faults.new (DefaultsBreak (schema_tree schema.now))) }
{
    let whole = schema.schema();
    check_types(schema, &whole.types, faults)?;
    check_definitions(schema, &whole.directive_definitions, faults)
}
