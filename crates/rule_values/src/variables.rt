//! Variables in values. What tells of one is not inlined, so that it takes no stack at each level of a value.
ghost use Rattle.std.specs.Prelude.{◌≡◌, OnOk};
ghost use Rattle.std.specs.List.{list_any};
ghost use Rattle.graphql_names.specs.Placed.{name_tree};
ghost use Rattle.tree_literals.specs.ValueTree.{value_tree, item_trees};
ghost use Rattle.fault_data.specs.FaultView.{faults_of};
ghost use Rattle.fault_data.specs.Room.{◌⊕◌};
ghost use Rattle.rule_values.specs.Wanting.{variables_of};
ghost use Rattle.rule_values.specs.VariableFaults.{undefined_variable, variable_faults, variable_faults_items};
ghost use Rattle.rule_values.specs.Telling.{Tells, variable_faults_of, variable_faults_among};

use crate::defined::DefinedVariables;
use fault_data::{DiagnosticData, Fault, tell};
use graphql_names::{Name, Node, SourceSpan};
use std::alloc::AllocError;
use tree_literals::Value;

/// UndefinedVariable: a use of a variable is valid only if the operation defines the variable (section 5.8.3).
#[inline(never)]
fn undefined_variable(
    location: Option<SourceSpan>,
    name: &Name,
    variables: &DefinedVariables<'_>,
    faults: &mut Vec<Fault>,
) -> Result<(), AllocError>
    ensures { OnOk result (faults_of faults.new ≡ faults_of faults.old ⊕ undefined_variable (variables_of variables.now) location (name_tree name.now)) }
{
    match variables.get(name) {
        Some(_) => Ok(()),
        None => {
            let name = name.clone()?;
            let data = DiagnosticData::UndefinedVariable { name };
            tell(faults, Some(Fault { location, data }))
        }
    }
}

/// Adds the faults of the variables in a value.
pub(crate) fn tell_variable_faults(
    value: &Node<Value>,
    variables: &DefinedVariables<'_>,
    faults: &mut Vec<Fault>,
) -> Result<(), AllocError>
    ensures { OnOk result (Tells faults.old faults.new (variable_faults_of variables.now value.now)) }
{
    tell_variables(value.content(), value.location(), variables, faults)
}

/// Adds the faults of the variables in a value, at any depth.
#[cycle(variables)]
#[tactic(auto, using(tree_literals::proofs::Trees::value_tree_rules))]
fn tell_variables(
    value: &Value,
    location: Option<SourceSpan>,
    variables: &DefinedVariables<'_>,
    faults: &mut Vec<Fault>,
) -> Result<(), AllocError>
    ensures { OnOk result (faults_of faults.new ≡ faults_of faults.old ⊕ variable_faults (variables_of variables.now) location (value_tree value.now)) }
{
    match value {
        Value::Variable(name) => undefined_variable(location, name, variables, faults),
        Value::List(items) => tell_variables_of_items(items, variables, faults),
        Value::Object(entries) => tell_variables_of_entries(entries, variables, faults),
        Value::Null
        | Value::Enum(_)
        | Value::String(_)
        | Value::Float(_)
        | Value::Int(_)
        | Value::Boolean(_) => Ok(()),
    }
}

#[cycle(variables)]
#[tactic(auto, using(crate::proofs::RoomSteps::room_steps))]
fn tell_variables_of_items(
    items: &[Node<Value>],
    variables: &DefinedVariables<'_>,
    faults: &mut Vec<Fault>,
) -> Result<(), AllocError>
    ensures { OnOk result (faults_of faults.new ≡ faults_of faults.old ⊕ variable_faults_items (variables_of variables.now) (item_trees value_tree items.now)) }
{
    for item in items {
        tell_variables(item.content(), item.location(), variables, faults)?;
    }
    Ok(())
}

#[cycle(variables)]
#[tactic(auto, using(crate::proofs::RoomSteps::room_steps))]
fn tell_variables_of_entries(
    entries: &[(Name, Node<Value>)],
    variables: &DefinedVariables<'_>,
    faults: &mut Vec<Fault>,
) -> Result<(), AllocError>
    ensures { OnOk result (Tells faults.old faults.new (variable_faults_among variables.now entries.now)) }
{
    for entry in entries {
        tell_variables(entry.1.content(), entry.1.location(), variables, faults)?;
    }
    Ok(())
}
