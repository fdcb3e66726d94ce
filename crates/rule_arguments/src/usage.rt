//! Variables that are given for arguments.
ghost use Rattle.std.specs.Prelude.{◌≡◌, ◌↔◌, map, IfOk, OnOk, IsTrue, option_to_list};
ghost use Rattle.graphql_names.specs.Placed.{node_tree};
ghost use Rattle.tree_directives.specs.DirectiveTree.{argument_tree, input_value_tree, unplaced_input_value};
ghost use Rattle.tree_operations.specs.OperationTree.{variable_definition_tree};
ghost use Rattle.rule_values.specs.in_fault_data.FaultView.{fault_of};
ghost use Rattle.rule_values.specs.in_fault_data.DiagnosticView.{plain_reference};
ghost use Rattle.rule_values.specs.in_fault_data.Adds.{Adds};
ghost use Rattle.rule_values.specs.in_rule_definitions.VariableUsage.{IsVariableUsageAllowed};
ghost use Rattle.rule_values.specs.Wanting.{variables_of};
ghost use Rattle.rule_arguments.specs.GivenArguments.{Lists, FitsWithDefault, DisallowedUsage};
ghost use Rattle.rule_arguments.specs.Telling.{told_usage, variables_in};

use crate::rule_context::RuleContext;
use graphql_names::{Name, Node};
use rule_values::{DefinedVariables, DiagnosticData, Fault, tell};
use std::alloc::AllocError;
use tree_directives::{Argument, InputValueDefinition};
use tree_literals::Type;
use tree_operations::VariableDefinition;

/// Whether a default on either side makes a nullable variable fit a non-null argument.
fn fits_with_default(variable: &VariableDefinition, definition: &InputValueDefinition) -> bool
    ensures { IsTrue result ↔ FitsWithDefault (variable_definition_tree variable.now) (input_value_tree definition.now) }
{
    let ty = variable.ty.content();
    let wanted = definition.ty.content();
    let has_default = variable.default_value.is_some() || definition.default_value.is_some();
    if ty.is_non_null() || !wanted.is_non_null() || !has_default {
        return false;
    }
    ty.is_assignable_to_nullable(wanted)
}

/// Whether a variable may be used for an argument: a nullable one fits a non-null argument only with a default on
/// either side (section 5.8.5, IsVariableUsageAllowed).
fn is_variable_usage_allowed(
    variable: &VariableDefinition,
    definition: &InputValueDefinition,
) -> bool
    ensures { IsTrue result ↔ IsVariableUsageAllowed (variable_definition_tree variable.now) (unplaced_input_value (input_value_tree definition.now)) }
{
    let ty = variable.ty.content();
    if ty.is_assignable_to(definition.ty.content()) {
        return true;
    }
    fits_with_default(variable, definition)
}

/// Copies of two types.
fn two_types(first: &Type, second: &Type) -> Result<(Type, Type), AllocError>
    ensures first { IfOk result (λ r. plain_reference r.0 ≡ plain_reference first.now) }
    ensures second { IfOk result (λ r. plain_reference r.1 ≡ plain_reference second.now) }
{
    let first = first.clone()?;
    Ok((first, second.clone()?))
}

/// What is told of a variable that must not be used there.
fn told_usage(
    argument: &Node<Argument>,
    name: &Name,
    variable: &Node<VariableDefinition>,
    definition: &InputValueDefinition,
) -> Result<Fault, AllocError>
    ensures { IfOk result (λ r. fault_of r ≡ told_usage argument.now name.now variable.now definition.now) }
{
    let (variable_type, argument_type) = two_types(
        variable.content().ty.content(),
        definition.ty.content(),
    )?;
    let name = name.clone()?;
    let location = argument.location();
    let data = DiagnosticData::DisallowedVariableUsage {
        variable: name,
        variable_type,
        variable_location: variable.location(),
        argument: argument.content().name.clone()?,
        argument_type,
        argument_location: location,
    };
    Ok(Fault { location, data })
}

/// The fault of a variable that is given for an argument, if a value of its type must not be used there (section
/// 5.8.5): for a caller that has no list of faults.
pub fn usage_fault(
    argument: &Node<Argument>,
    definition: &InputValueDefinition,
    variables: &DefinedVariables<'_>,
) -> Result<Option<Fault>, AllocError>
    ensures { IfOk result (λ r. Lists (map fault_of (option_to_list r)) (DisallowedUsage (variables_of variables.now) (input_value_tree definition.now) (node_tree argument_tree argument.now))) }
{
    let Some(name) = argument.content().value.content().as_variable() else {
        return Ok(None);
    };
    let Some(variable) = variables.get(name) else {
        return Ok(None);
    };
    if is_variable_usage_allowed(variable.content(), definition) {
        return Ok(None);
    }
    Ok(Some(told_usage(argument, name, variable, definition)?))
}

/// DisallowedVariableUsage: a use of a variable is valid only if a value of the variable's type may stand there
/// (section 5.8.5).
pub(crate) fn disallowed_variable_usage(
    judging: &RuleContext<'_>,
    argument: &Node<Argument>,
    definition: &InputValueDefinition,
    faults: &mut Vec<Fault>,
) -> Result<(), AllocError>
    ensures { OnOk result (Adds faults.old faults.new (DisallowedUsage (variables_in judging.now) (input_value_tree definition.now) (node_tree argument_tree argument.now))) }
{
    let fault = usage_fault(argument, definition, judging.variables)?;
    tell(faults, fault)
}
