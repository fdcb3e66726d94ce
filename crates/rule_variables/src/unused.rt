//! Variables that are not used.
ghost use Rattle.std.specs.Prelude.{◌↔◌, Contains, IsTrue, OnOk};
ghost use Rattle.graphql_names.specs.Placed.{node_tree};
ghost use Rattle.graphql_names.specs.Places.{Recomposes};
ghost use Rattle.tree_operations.specs.OperationTree.{variable_definition_tree};
ghost use Rattle.rule_definitions.specs.Words.{AtSomeIndex};
ghost use Rattle.rule_arguments.specs.in_fault_data.Adds.{Adds};
ghost use Rattle.rule_arguments.specs.in_rule_values.Wanting.{variables_of};
ghost use Rattle.rule_reach.specs.NotedNames.{noted_names};
ghost use Rattle.rule_variables.specs.VariableFaults.{UnusedAmong};

use graphql_names::{Name, Node, SourceSpan};
use indexmap::IndexSet;
use rule_arguments::{DiagnosticData, Fault, tell};
use std::alloc::AllocError;
use tree_operations::VariableDefinition;

/// From the `$` of a variable's definition to the end of its name.
fn head(variable: &Node<VariableDefinition>) -> Option<SourceSpan>
    ensures { Recomposes (node_tree variable_definition_tree variable.now).place (node_tree variable_definition_tree variable.now).it.name.place result }
{
    SourceSpan::recompose(variable.location(), variable.content().name.location())
}

/// Whether the name is among these.
fn has_name(names: &IndexSet<Name>, name: &Name) -> bool
    ensures { IsTrue result ↔ Contains (noted_names names.now) name.now.text }
{
    names.contains(name)
}

/// UnusedVariable: a variable is valid only if it is used (section 5.8.4). `used` has the names of those that are.
fn unused_variable(
    used: &IndexSet<Name>,
    variable: &Node<VariableDefinition>,
    faults: &mut Vec<Fault>,
) -> Result<(), AllocError>
    ensures { OnOk result (Adds faults.old faults.new (UnusedAmong (noted_names used.now) (node_tree variable_definition_tree variable.now))) }
{
    let name = &variable.content().name;
    if has_name(used, name) {
        return Ok(());
    }
    let name = name.clone()?;
    let data = DiagnosticData::UnusedVariable { name };
    let location = head(variable);
    tell(faults, Some(Fault { location, data }))
}

/// Adds a fault for each variable that is not used.
pub(crate) fn tell_unused_variables(
    used: &IndexSet<Name>,
    variables: &[Node<VariableDefinition>],
    faults: &mut Vec<Fault>,
) -> Result<(), AllocError>
    ensures { OnOk result (Adds faults.old faults.new (λ f. AtSomeIndex (variables_of variables.now) (λ i x. UnusedAmong (noted_names used.now) x f))) }
{
    for variable in variables {
        unused_variable(used, variable, faults)?;
    }
    Ok(())
}
