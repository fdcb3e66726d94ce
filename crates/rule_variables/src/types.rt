//! The rules on one variable under a schema: on its type, its default and its directives.
ghost use Rattle.std.specs.Prelude.{◌≡◌, IfOk, OnOk};
ghost use Rattle.graphql_names.specs.Placed.{node_tree};
ghost use Rattle.tree_operations.specs.OperationTree.{variable_definition_tree};
ghost use Rattle.rule_definitions.specs.Words.{AtSomeIndex};
ghost use Rattle.graphql_schema.specs.SchemaOf.{schema_tree};
ghost use Rattle.rule_arguments.specs.in_fault_data.FaultView.{fault_of};
ghost use Rattle.rule_arguments.specs.in_fault_data.Adds.{Adds};
ghost use Rattle.rule_arguments.specs.in_rule_values.Telling.{Tells};
ghost use Rattle.rule_arguments.specs.in_rule_values.Wanting.{variables_of};
ghost use Rattle.rule_variables.specs.VariableFaults.{undefined_definition, variable_input_type, told_input_type, is_of_input_type, DefaultBreaks, JudgedDefaultBreaks, VariableBreaks};

use graphql_names::Node;
use rule_arguments::{
    DefinedVariables, DiagnosticData, Fault, IndexedSchema, Schema, check_uses, check_value, tell,
};
use schema_types::TypeKind;
use std::alloc::AllocError;
use tree_directives::DirectiveLocation;
use tree_operations::VariableDefinition;

/// UndefinedDefinition: a variable is valid only if its type is defined (section 5.8.2).
fn undefined_definition(
    schema: &Schema,
    variable: &Node<VariableDefinition>,
    faults: &mut Vec<Fault>,
) -> Result<(), AllocError>
    ensures { OnOk result (Tells faults.old faults.new (undefined_definition (schema_tree schema.now) (node_tree variable_definition_tree variable.now))) }
{
    let name = variable.content().ty.content().inner_named_type();
    match schema.type_named(name) {
        Some(_) => Ok(()),
        None => {
            let name = name.clone()?;
            let data = DiagnosticData::UndefinedDefinition { name };
            let location = variable.location();
            tell(faults, Some(Fault { location, data }))
        }
    }
}

/// VariableInputType: a variable is valid only if its type is an input type (section 5.8.2).
fn variable_input_type(
    schema: &Schema,
    variable: &Node<VariableDefinition>,
    faults: &mut Vec<Fault>,
) -> Result<(), AllocError>
    ensures { OnOk result (Tells faults.old faults.new (variable_input_type (schema_tree schema.now) (node_tree variable_definition_tree variable.now))) }
{
    let ty = variable.content().ty.content();
    let Some(found) = schema.type_named(ty.inner_named_type()) else {
        return Ok(());
    };
    let kind = found.kind();
    if kind.is_input_type() {
        return Ok(());
    }
    tell(faults, Some(told_input_type(variable, kind)?))
}

/// What is told of a variable whose type is of that kind.
fn told_input_type(variable: &Node<VariableDefinition>, kind: TypeKind) -> Result<Fault, AllocError>
    ensures { IfOk result (λ r. fault_of r ≡ told_input_type (node_tree variable_definition_tree variable.now) kind) }
{
    let defined = variable.content();
    let ty = defined.ty.clone()?;
    let data = DiagnosticData::VariableInputType {
        name: defined.name.clone()?,
        ty,
        describe_type: kind.describe(),
    };
    let location = variable.location();
    Ok(Fault { location, data })
}

/// Adds the faults of a variable's default against its type (section 5.6); there are no variables in a default.
fn check_default(
    schema: &IndexedSchema<'_>,
    variable: &Node<VariableDefinition>,
    faults: &mut Vec<Fault>,
) -> Result<(), AllocError>
    ensures { OnOk result (Adds faults.old faults.new (DefaultBreaks (schema_tree schema.now) (node_tree variable_definition_tree variable.now))) }
{
    let defined = variable.content();
    match &defined.default_value {
        None => Ok(()),
        Some(value) => {
            let variables = DefinedVariables::listed(&[]);
            check_value(schema, &defined.ty, value, &variables, faults)
        }
    }
}

/// Whether the type of a variable is defined, and is an input type.
fn is_of_input_type(schema: &Schema, variable: &Node<VariableDefinition>) -> bool
    ensures { result ≡ is_of_input_type (schema_tree schema.now) (node_tree variable_definition_tree variable.now) }
{
    let ty = variable.content().ty.content();
    match schema.type_named(ty.inner_named_type()) {
        None => false,
        Some(found) => found.kind().is_input_type(),
    }
}

/// The same, if the type of the variable is an input type. Otherwise its default is not judged: that the type is no input type,
/// or is not defined, is told already.
fn check_judged_default(
    schema: &IndexedSchema<'_>,
    variable: &Node<VariableDefinition>,
    faults: &mut Vec<Fault>,
) -> Result<(), AllocError>
    ensures { OnOk result (Adds faults.old faults.new (JudgedDefaultBreaks (schema_tree schema.now) (node_tree variable_definition_tree variable.now))) }
{
    if is_of_input_type(schema.schema(), variable) {
        return check_default(schema, variable, faults);
    }
    Ok(())
}

/// Adds the faults of one variable: of its type, its default and its directives.
fn check_variable(
    schema: &IndexedSchema<'_>,
    variable: &Node<VariableDefinition>,
    faults: &mut Vec<Fault>,
) -> Result<(), AllocError>
    ensures { OnOk result (Adds faults.old faults.new (VariableBreaks (schema_tree schema.now) (node_tree variable_definition_tree variable.now))) }
{
    let whole = schema.schema();
    undefined_definition(whole, variable, faults)?;
    variable_input_type(whole, variable, faults)?;
    check_judged_default(schema, variable, faults)?;
    let directives = &variable.content().directives.0;
    let variables = DefinedVariables::listed(&[]);
    check_uses(
        schema,
        directives,
        DirectiveLocation::VariableDefinition,
        &variables,
        faults,
    )
}

/// Adds these faults of each variable.
pub(crate) fn check_each_variable(
    schema: &IndexedSchema<'_>,
    variables: &[Node<VariableDefinition>],
    faults: &mut Vec<Fault>,
) -> Result<(), AllocError>
    ensures { OnOk result (Adds faults.old faults.new (λ f. AtSomeIndex (variables_of variables.now) (λ i x. VariableBreaks (schema_tree schema.now) x f))) }
{
    for variable in variables {
        check_variable(schema, variable, faults)?;
    }
    Ok(())
}
