//! Duplicates: variables of one name, and equal keys in their defaults.
ghost use Rattle.std.specs.Prelude.{[], OnOk};
ghost use Rattle.graphql_names.specs.Placed.{node_tree};
ghost use Rattle.tree_operations.specs.OperationTree.{variable_definition_tree};
ghost use Rattle.schema_components.specs.Lists.{each_place};
ghost use Rattle.rule_definitions.specs.Names.{defined_name};
ghost use Rattle.rule_definitions.specs.Words.{AtSomeIndex};
ghost use Rattle.rule_arguments.specs.in_fault_data.Adds.{Adds};
ghost use Rattle.rule_arguments.specs.in_rule_values.Firsts.{AreFirsts};
ghost use Rattle.rule_arguments.specs.in_rule_values.Telling.{Tells};
ghost use Rattle.rule_arguments.specs.in_rule_values.Wanting.{variables_of};
ghost use Rattle.rule_variables.specs.VariableFaults.{variable_again, repeated_variable, DefaultKeyBreaks};

use graphql_names::{Name, Node, SourceSpan};
use indexmap::IndexMap;
use rule_arguments::{DiagnosticData, Fault, note_first, tell, unique_input_values};
use std::alloc::AllocError;
use tree_operations::VariableDefinition;

/// UniqueVariable: an operation is valid only if its variables differ in name (section 5.8.1). `first` is the place of the
/// first of its name, if one is before it.
fn unique_variable(
    first: Option<Option<SourceSpan>>,
    later: &Node<VariableDefinition>,
    faults: &mut Vec<Fault>,
) -> Result<(), AllocError>
    ensures { OnOk result (Tells faults.old faults.new (variable_again first (node_tree variable_definition_tree later.now))) }
{
    let Some(original_definition) = first else {
        return Ok(());
    };
    let location = later.location();
    let data = DiagnosticData::UniqueVariable {
        name: later.content().name.clone()?,
        original_definition,
        redefined_definition: location,
    };
    tell(faults, Some(Fault { location, data }))
}

/// Adds a fault for each variable whose name an earlier one has.
pub(crate) fn tell_repeated_variables(
    variables: &[Node<VariableDefinition>],
    faults: &mut Vec<Fault>,
) -> Result<(), AllocError>
    ensures { OnOk result (Tells faults.old faults.new (each_place repeated_variable (variables_of variables.now))) }
{
    let mut places = IndexMap::new(*faults.allocator());
    tell_variables_again(variables, &mut places, faults)
}

/// The same. `places` gets the place of the first variable of each name; it is empty at first.
fn tell_variables_again(
    variables: &[Node<VariableDefinition>],
    places: &mut IndexMap<Name, Option<SourceSpan>>,
    faults: &mut Vec<Fault>,
) -> Result<(), AllocError>
    requires { AreFirsts defined_name (λ i x. x.place) places.old (variables_of []) }
    ensures { OnOk result (Tells faults.old faults.new (each_place repeated_variable (variables_of variables.now))) }
{
    for variable in variables {
        let name = &variable.content().name;
        let first = note_first(places, name, variable.location())?;
        unique_variable(first, variable, faults)?;
    }
    Ok(())
}

/// UniqueInputValue: an object value is valid only if its keys differ (section 5.6.3). For the objects in a default: adds a
/// fault for each key that the object has already.
fn unique_default_keys(
    variable: &Node<VariableDefinition>,
    faults: &mut Vec<Fault>,
) -> Result<(), AllocError>
    ensures { OnOk result (Adds faults.old faults.new (DefaultKeyBreaks (node_tree variable_definition_tree variable.now))) }
{
    match &variable.content().default_value {
        None => Ok(()),
        Some(value) => unique_input_values(value, faults),
    }
}

/// Adds the faults of the keys in each default.
pub(crate) fn check_default_keys(
    variables: &[Node<VariableDefinition>],
    faults: &mut Vec<Fault>,
) -> Result<(), AllocError>
    ensures { OnOk result (Adds faults.old faults.new (λ f. AtSomeIndex (variables_of variables.now) (λ i x. DefaultKeyBreaks x f))) }
{
    for variable in variables {
        unique_default_keys(variable, faults)?;
    }
    Ok(())
}
