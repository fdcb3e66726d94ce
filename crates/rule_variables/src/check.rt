//! What is checked of the variables of an operation.
ghost use Rattle.std.specs.Prelude.{◌≡◌, OnOk};
ghost use Rattle.graphql_names.specs.Placed.{Place, node_tree};
ghost use Rattle.document_typed_operations.specs.TypedDocument.{typed_operation_tree};
ghost use Rattle.rule_reach.specs.in_typed_operations.DocumentView.{meant_by_operation};
ghost use Rattle.graphql_schema.specs.SchemaOf.{schema_tree};
ghost use Rattle.rule_arguments.specs.in_fault_data.Adds.{Adds};
ghost use Rattle.rule_arguments.specs.in_rule_values.Wanting.{variables_of};
ghost use Rattle.schema_types.specs.Addresses.{Address};
ghost use Rattle.spec_document.specs.MeantTree.{MeantDocument};
ghost use Rattle.rule_reach.specs.Reach.{IsReachOf};
ghost use Rattle.rule_reach.specs.NotedNames.{noted_names};
ghost use Rattle.rule_variables.specs.Parts.{VariablesBreakAlone, VariablesBreakUnder};
ghost use Rattle.rule_variables.specs.VariableFaults.{AloneBreaks};

use crate::reached::used_names;
use crate::types::check_each_variable;
use crate::unique::{check_default_keys, tell_repeated_variables};
use crate::unused::tell_unused_variables;
use document_typed_operations::Operation;
use graphql_names::{Name, Node};
use indexmap::IndexSet;
use rule_arguments::{Fault, IndexedSchema};
use rule_reach::Reach;
use std::alloc::AllocError;
use tree_operations::VariableDefinition;

/// Adds the faults of the variables of an operation under a schema: UndefinedDefinition and VariableInputType of their
/// types, the rules on values of their defaults, and the rules on uses of their directives (sections 5.6, 5.7 and 5.8.2).
/// If memory is refused, some of them may be missing.
pub fn check_variables(
    schema: &IndexedSchema<'_>,
    operation: &Node<Operation>,
    faults: &mut Vec<Fault>,
) -> Result<(), AllocError>
    ensures { OnOk result (Adds faults.old faults.new (VariablesBreakUnder (schema_tree schema.now) (meant_by_operation (node_tree typed_operation_tree operation.now)))) }
{
    check_each_variable(schema, &operation.content().variables, faults)
}

/// Adds the faults of the variables of an operation that need no schema: UniqueVariable, UniqueInputValue in their defaults,
/// and UnusedVariable (sections 5.6.3, 5.8.1 and 5.8.4). `reach` is what the operation reaches. If memory is refused, some of
/// them may be missing.
pub fn check_variables_alone(
    operation: &Node<Operation>,
    reach: &Reach<'_>,
    faults: &mut Vec<Fault>,
) -> Result<(), AllocError>
    ensures { OnOk result ((at : Address → Place) (d : MeantDocument Place) → IsReachOf d (meant_by_operation (node_tree typed_operation_tree operation.now)) reach.now → Adds faults.old faults.new (VariablesBreakAlone at d (meant_by_operation (node_tree typed_operation_tree operation.now)))) }
{
    let own = operation.content();
    if own.variables.is_empty() {
        // no variable can be unused, so the names that are used are not gathered
        return Ok(());
    }
    let alloc = *faults.allocator();
    let used = used_names(alloc, own, reach)?;
    check_alone(&own.variables, &used, faults)
}

/// Adds these faults of the variables, given the names that are used.
fn check_alone(
    variables: &[Node<VariableDefinition>],
    used: &IndexSet<Name>,
    faults: &mut Vec<Fault>,
) -> Result<(), AllocError>
    ensures { OnOk result (Adds faults.old faults.new (AloneBreaks (variables_of variables.now) (noted_names used.now))) }
{
    tell_repeated_variables(variables, faults)?;
    check_default_keys(variables, faults)?;
    tell_unused_variables(used, variables, faults)
}
