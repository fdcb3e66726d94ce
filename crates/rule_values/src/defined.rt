//! The variables that an operation defines, found by their names.
ghost use Rattle.std.specs.Prelude.{◌≡◌, find, bytes_eq, IfOk};
ghost use Rattle.std.specs.Option.{option_map};
ghost use Rattle.graphql_names.specs.Placed.{node_tree};
ghost use Rattle.tree_operations.specs.OperationTree.{variable_definition_tree};
ghost use Rattle.fault_data.specs.in_rule_definitions.Names.{defined_name};
ghost use Rattle.schema_inputs.specs.Firsts.{AreNumbers};
ghost use Rattle.rule_values.specs.Wanting.{variables_of};
ghost use Rattle.rule_values.specs.Telling.{first_defined};

use graphql_names::{Name, Node};
use indexmap::IndexMap;
use schema_inputs::note_first;
use std::alloc::{AllocError, Global};
use std::marker::Model;
use tree_operations::VariableDefinition;

/// The variables that an operation defines, found by their names.
///
/// Contracts see them as the list of their definitions.
#[derive(Drop)]
pub struct DefinedVariables<'a> {
    definitions: &'a [Node<VariableDefinition>],
    /// For each name the index of the first definition that has it. Without it definitions are scanned.
    numbers: Option<IndexMap<Name, usize>>,
}

impl<'a> Model for DefinedVariables<'a> {
    ghost use Rattle.std.specs.Prelude.{List, IfSome};
    ghost use Rattle.graphql_names.specs.declared.node.Node.{Node};
    ghost use Rattle.tree_operations.specs.declared.operation.VariableDefinition.{VariableDefinition};
    ghost use Rattle.fault_data.specs.in_rule_definitions.Names.{defined_name};
    ghost use Rattle.schema_inputs.specs.Firsts.{AreNumbers};
    ghost use Rattle.rule_values.specs.Wanting.{variables_of};
    ghost use Rattle.std.specs.Coded.{codes};
    ghost use Rattle.tree_operations.specs.contracts.operation.VariableDefinition as definition;

    ghost Value = { List (Node VariableDefinition) };

    ghost coded = { Prim.hlevel (codes, definition.the_row.coded) };

    ghost view = { λ v. v.definitions.now };

    ghost invariant = { λ v. IfSome v.numbers (λ numbers. AreNumbers defined_name numbers (variables_of v.definitions.now)) };
}

/// For each name the index of the first of these definitions that has it.
fn variable_numbers(
    alloc: Global,
    definitions: &[Node<VariableDefinition>],
) -> Result<IndexMap<Name, usize>, AllocError>
    ensures { IfOk result (λ numbers. AreNumbers defined_name numbers (variables_of definitions.now)) }
{
    let mut numbers = IndexMap::new(alloc);
    for index in 0..definitions.len() {
        note_first(&mut numbers, &definitions[index].content().name, index)?;
    }
    Ok(numbers)
}

/// The first of these definitions that has that name; `numbers` has its index.
fn find_numbered<'a>(
    definitions: &'a [Node<VariableDefinition>],
    numbers: &IndexMap<Name, usize>,
    name: &Name,
) -> Option<&'a Node<VariableDefinition>>
    requires { AreNumbers defined_name numbers.now (variables_of definitions.now) }
    ensures { option_map (λ v. node_tree variable_definition_tree v.now) result ≡ first_defined definitions.now name.now }
{
    match numbers.get(name) {
        None => None,
        Some(index) => definitions.get(*index),
    }
}

/// The first of these definitions that has that name; the list is scanned.
fn find_listed<'a>(
    definitions: &'a [Node<VariableDefinition>],
    name: &Name,
) -> Option<&'a Node<VariableDefinition>>
    ensures { option_map (λ v. node_tree variable_definition_tree v.now) result ≡ first_defined definitions.now name.now }
{
    for variable in definitions {
        if variable.content().name.as_str() == name.as_str() {
            return Some(variable);
        }
    }
    None
}

/// So many definitions are scanned faster than they are noted.
const FEW: usize = 8;

/// Variables from their definitions.
impl<'a> DefinedVariables<'a> {
    /// These definitions, scanned at each use.
    pub fn listed(definitions: &'a [Node<VariableDefinition>]) -> DefinedVariables<'a>
        ensures { result ≡ definitions.now }
    {
        DefinedVariables {
            definitions,
            numbers: None,
        }
    }

    /// These definitions. If they are more than a few, their names are noted once, and found in a map at each use.
    pub fn new(
        alloc: Global,
        definitions: &'a [Node<VariableDefinition>],
    ) -> Result<DefinedVariables<'a>, AllocError>
        ensures { IfOk result (λ v. v ≡ definitions.now) }
    {
        if definitions.len() <= FEW {
            return Ok(DefinedVariables::listed(definitions));
        }
        let numbers = Some(variable_numbers(alloc, definitions)?);
        Ok(DefinedVariables {
            definitions,
            numbers,
        })
    }

    /// The first of that name, if there is one.
    pub fn get(&self, name: &Name) -> Option<&'a Node<VariableDefinition>>
        ensures { option_map (λ v. node_tree variable_definition_tree v.now) result ≡ find (λ v. bytes_eq (defined_name v) name.now.text) (variables_of self.now) }
    {
        match &self.numbers {
            None => find_listed(self.definitions, name),
            Some(numbers) => find_numbered(self.definitions, numbers, name),
        }
    }
}
