//! What the operations of a document have in common: variables that each of them defines alike.
ghost use Rattle.std.specs.Prelude.{IfOk, IsTrue, OnOk};
ghost use Rattle.graphql_names.specs.Placed.{node_tree};
ghost use Rattle.tree_operations.specs.OperationTree.{variable_definition_tree};
ghost use Rattle.rule_arguments.specs.in_rule_values.Wanting.{variables_of};
ghost use Rattle.rule_reach.specs.in_typed_operations.DocumentView.{document_meant, operation_meant};
ghost use Rattle.rule_selections.specs.Settled.{AreAlike, IsDefinedIn, AreCommon, AreThoseDefined, KeepsIfDefined};

use document_typed_operations::{ExecutableDocument, Operation};
use graphql_names::{Name, Node};
use indexmap::{IndexMap, IndexSet};
use rule_arguments::{DefinedVariables, IndexedSchema};
use std::alloc::{AllocError, Global};
use tree_operations::VariableDefinition;

/// What the operations of a document have in common, under which selections are judged once for all of them.
#[derive(Clone, Copy)]
pub(crate) struct Common<'a> {
    pub(crate) schema: &'a IndexedSchema<'a>,
    /// Variables that each operation defines alike.
    pub(crate) variables: &'a DefinedVariables<'a>,
    /// Under the name of a type, conditions of inline fragments that may apply in sets on it.
    pub(crate) applying: &'a IndexMap<Name, IndexSet<Name>>,
}

/// Whether each variable may be used instead of the other: their types are equal, and both have a default, or none has.
fn are_alike(a: &VariableDefinition, b: &VariableDefinition) -> bool
    ensures { IsTrue result → AreAlike (variable_definition_tree a.now) (variable_definition_tree b.now) }
{
    if a.default_value.is_some() != b.default_value.is_some() {
        return false;
    }
    let ty = a.ty.content();
    let other = b.ty.content();
    ty.is_assignable_to(other) && other.is_assignable_to(ty)
}

/// Whether the first variable of its name among these is alike.
fn is_defined_in(variable: &Node<VariableDefinition>, variables: &DefinedVariables<'_>) -> bool
    ensures { IsTrue result → IsDefinedIn (variables_of variables.now) (node_tree variable_definition_tree variable.now) }
{
    let own = variable.content();
    match variables.get(&own.name) {
        None => false,
        Some(other) => are_alike(own, other.content()),
    }
}

/// Adds the variable, if these define it alike.
fn keep_if_defined(
    variables: &DefinedVariables<'_>,
    variable: &Node<VariableDefinition>,
    kept: &mut Vec<Node<VariableDefinition>>,
) -> Result<(), AllocError>
    ensures { OnOk result (KeepsIfDefined (variables_of variables.now) (node_tree variable_definition_tree variable.now) (variables_of kept.old.items) (variables_of kept.new.items)) }
{
    if !is_defined_in(variable, variables) {
        return Ok(());
    }
    kept.push(variable.clone()?)?;
    Ok(())
}

/// Those of the variables that the operation defines alike.
fn defined_by(
    alloc: Global,
    operation: &Node<Operation>,
    common: &[Node<VariableDefinition>],
) -> Result<Vec<Node<VariableDefinition>>, AllocError>
    ensures { IfOk result (λ r. AreThoseDefined (operation_meant operation.now).variables (variables_of common.now) (variables_of r.items)) }
{
    let variables = DefinedVariables::new(alloc, operation.content().variables.as_slice())?;
    let mut kept = Vec::new(alloc);
    for variable in common {
        keep_if_defined(&variables, variable, &mut kept)?;
    }
    Ok(kept)
}

/// Keeps those of the variables that each operation of the document defines alike.
fn keep_common(
    alloc: Global,
    document: &ExecutableDocument,
    common: &mut Vec<Node<VariableDefinition>>,
) -> Result<(), AllocError>
    ensures { OnOk result (AreCommon (document_meant document.now) (variables_of common.new.items)) }
{
    for operation in document.operations.iter() {
        let kept = defined_by(alloc, operation, common.as_slice())?;
        *common = kept;
    }
    Ok(())
}

/// The variables of the first operation that each operation of the document defines alike. The time is linear in the length of
/// the document: no more variables stay than the shortest list has.
pub(crate) fn common_variables(
    alloc: Global,
    document: &ExecutableDocument,
) -> Result<Vec<Node<VariableDefinition>>, AllocError>
    ensures { IfOk result (λ r. AreCommon (document_meant document.now) (variables_of r.items)) }
{
    let mut common = match document.operations.iter().next() {
        None => Vec::new(alloc),
        Some(operation) => operation.content().variables.clone()?,
    };
    keep_common(alloc, document, &mut common)?;
    Ok(common)
}
