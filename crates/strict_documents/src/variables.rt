//! Departures of the variables of an operation: of their defaults and their directives, in which no variable is defined.
ghost use Rattle.std.specs.Prelude.{OnOk};
ghost use Rattle.graphql_schema.specs.SchemaOf.{schema_tree};
ghost use Rattle.tree_operations.specs.OperationTree.{variable_definition_tree};
ghost use Rattle.rule_values.specs.Wanting.{variables_of};
ghost use Rattle.strict_documents.specs.DepartureViews.{Tells};
ghost use Rattle.strict_documents.specs.DepartsIn.{default_departures};
ghost use Rattle.strict_documents.specs.Telling.{variable_departures, variables_departures};

use crate::arguments::tell_directives;
use crate::departure::Departure;
use crate::location::{Location, Strictness};
use crate::values::tell_value;
use graphql_names::Node;
use rule_values::{DefinedVariables, IndexedSchema};
use std::alloc::AllocError;
use tree_operations::VariableDefinition;

/// Adds the departures of the default of a variable, if it has one.
fn tell_default(
    schema: &IndexedSchema<'_>,
    variable: &VariableDefinition,
    departures: &mut Vec<Departure>,
) -> Result<(), AllocError>
    ensures { OnOk result (Tells departures.old departures.new (default_departures (schema_tree schema.now) (variable_definition_tree variable.now))) }
{
    match &variable.default_value {
        None => Ok(()),
        Some(value) => {
            let variables = DefinedVariables::listed(&[]);
            let strictness = Strictness {
                schema,
                variables: &variables,
            };
            let ty = variable.ty.content();
            let location = Location {
                ty,
                has_default: false,
                is_argument: true,
                is_item: false,
            };
            tell_value(&strictness, location, value, departures)
        }
    }
}

/// Adds the departures of the default and the directives of a variable.
fn tell_variable(
    schema: &IndexedSchema<'_>,
    variable: &VariableDefinition,
    departures: &mut Vec<Departure>,
) -> Result<(), AllocError>
    ensures { OnOk result (Tells departures.old departures.new (variable_departures (schema_tree schema.now) (variable_definition_tree variable.now))) }
{
    tell_default(schema, variable, departures)?;
    let variables = DefinedVariables::listed(&[]);
    let strictness = Strictness {
        schema,
        variables: &variables,
    };
    tell_directives(&strictness, variable.directives.0.as_slice(), departures)
}

/// Adds the departures of the defaults and the directives of these variables.
pub(crate) fn tell_variables(
    schema: &IndexedSchema<'_>,
    variables: &[Node<VariableDefinition>],
    departures: &mut Vec<Departure>,
) -> Result<(), AllocError>
    ensures { OnOk result (Tells departures.old departures.new (variables_departures (schema_tree schema.now) (variables_of variables.now))) }
{
    for variable in variables {
        tell_variable(schema, variable.content(), departures)?;
    }
    Ok(())
}
