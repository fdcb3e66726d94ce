//! Arguments that are given, defined or not.
ghost use Rattle.std.specs.Prelude.{◌≡◌, ◌⊎◌, [], find, IfOk, IfSome, OnOk};
ghost use Rattle.std.specs.Option.{option_map};
ghost use Rattle.graphql_names.specs.Placed.{node_tree};
ghost use Rattle.tree_directives.specs.DirectiveTree.{argument_tree};
ghost use Rattle.tree_directives.specs.DirectiveQueries.{argument_has_name};
ghost use Rattle.schema_components.specs.Lists.{each_place};
ghost use Rattle.rule_values.specs.in_fault_data.FaultView.{faults_of};
ghost use Rattle.rule_values.specs.in_fault_data.Room.{◌⊕◌};
ghost use Rattle.rule_values.specs.in_rule_definitions.Names.{argument_name};
ghost use Rattle.rule_values.specs.in_fault_data.Adds.{Adds};
ghost use Rattle.rule_values.specs.Firsts.{AreFirsts, AreNumbers};
ghost use Rattle.rule_values.specs.Wanting.{variables_of};
ghost use Rattle.rule_values.specs.Telling.{Tells};
ghost use Rattle.rule_arguments.specs.AddedFaults.{AddsGivenFaults};
ghost use Rattle.rule_arguments.specs.Trees.{arguments_of};
ghost use Rattle.rule_arguments.specs.UseFaults.{argument_again, repeated_argument};
ghost use Rattle.rule_arguments.specs.Alone.{KeysBreak, ArgumentsBreak};
ghost use Rattle.rule_arguments.specs.GivenArguments.{VariablesGivenBreak};

use graphql_names::{Name, Node, SourceSpan};
use indexmap::IndexMap;
use rule_values::{
    DefinedVariables, DiagnosticData, Fault, note_first, tell, undefined_variables,
    unique_input_values,
};
use std::alloc::{AllocError, Global};
use tree_directives::Argument;

/// So many arguments are scanned faster than they are noted.
pub(crate) const FEW: usize = 8;

/// For each name the index of the first of these arguments that has it.
fn argument_numbers(
    alloc: Global,
    given: &[Node<Argument>],
) -> Result<IndexMap<Name, usize>, AllocError>
    ensures { IfOk result (λ numbers. AreNumbers argument_name numbers (arguments_of given.now)) }
{
    let mut numbers = IndexMap::new(alloc);
    for index in 0..given.len() {
        note_first(&mut numbers, &given[index].content().name, index)?;
    }
    Ok(numbers)
}

/// For each name the index of the first of these arguments that has it, if they are more than a few.
pub(crate) fn numbers_if_many(
    alloc: Global,
    given: &[Node<Argument>],
) -> Result<Option<IndexMap<Name, usize>>, AllocError>
    ensures { IfOk result (λ r. IfSome r (λ numbers. AreNumbers argument_name numbers (arguments_of given.now))) }
{
    if given.len() <= FEW {
        return Ok(None);
    }
    Ok(Some(argument_numbers(alloc, given)?))
}

/// The first of these arguments that has that name; the list is scanned.
pub(crate) fn find_listed<'a>(
    given: &'a [Node<Argument>],
    name: &Name,
) -> Option<&'a Node<Argument>>
    ensures { option_map (λ a. node_tree argument_tree a.now) result ≡ find (argument_has_name name.now.text) (arguments_of given.now) }
{
    for argument in given {
        if argument.content().name.as_str() == name.as_str() {
            return Some(argument);
        }
    }
    None
}

/// The first of these arguments that has that name; `numbers` has its index.
fn find_numbered<'a>(
    given: &'a [Node<Argument>],
    numbers: &IndexMap<Name, usize>,
    name: &Name,
) -> Option<&'a Node<Argument>>
    requires { AreNumbers argument_name numbers.now (arguments_of given.now) }
    ensures { option_map (λ a. node_tree argument_tree a.now) result ≡ find (argument_has_name name.now.text) (arguments_of given.now) }
{
    match numbers.get(name) {
        None => None,
        Some(index) => given.get(*index),
    }
}

/// The first of these arguments that has that name; `numbers` has its index, if they are noted.
pub(crate) fn find_argument<'a>(
    given: &'a [Node<Argument>],
    numbers: Option<&IndexMap<Name, usize>>,
    name: &Name,
) -> Option<&'a Node<Argument>>
    requires { IfSome numbers (λ numbers. AreNumbers argument_name numbers.now (arguments_of given.now)) }
    ensures { option_map (λ a. node_tree argument_tree a.now) result ≡ find (argument_has_name name.now.text) (arguments_of given.now) }
{
    match numbers {
        None => find_listed(given, name),
        Some(numbers) => find_numbered(given, numbers, name),
    }
}

/// UniqueArgument: a list of arguments is valid only if none is given twice (section 5.4.2). `first` is the place of the
/// first of its name, if one is before it.
fn unique_argument(
    first: Option<Option<SourceSpan>>,
    later: &Node<Argument>,
    faults: &mut Vec<Fault>,
) -> Result<(), AllocError>
    ensures { OnOk result (Tells faults.old faults.new (argument_again first (node_tree argument_tree later.now))) }
{
    let Some(original_definition) = first else {
        return Ok(());
    };
    let location = later.location();
    let data = DiagnosticData::UniqueArgument {
        name: later.content().name.clone()?,
        original_definition,
        redefined_definition: location,
    };
    tell(faults, Some(Fault { location, data }))
}

/// Adds a fault for each argument that is given before.
fn tell_repeated_arguments(
    given: &[Node<Argument>],
    faults: &mut Vec<Fault>,
) -> Result<(), AllocError>
    ensures { OnOk result (faults_of faults.new ≡ faults_of faults.old ⊕ each_place repeated_argument (arguments_of given.now)) }
{
    if given.len() < 2 {
        return Ok(());
    }
    let mut places = IndexMap::new(*faults.allocator());
    tell_arguments_again(given, &mut places, faults)
}

/// The same. `places` gets the place of the first argument of each name; it is empty before.
fn tell_arguments_again(
    given: &[Node<Argument>],
    places: &mut IndexMap<Name, Option<SourceSpan>>,
    faults: &mut Vec<Fault>,
) -> Result<(), AllocError>
    requires { AreFirsts argument_name (λ i a. a.place) places.old (arguments_of []) }
    ensures { OnOk result (faults_of faults.new ≡ faults_of faults.old ⊕ each_place repeated_argument (arguments_of given.now)) }
{
    for argument in given {
        let name = &argument.content().name;
        let first = note_first(places, name, argument.location())?;
        unique_argument(first, argument, faults)?;
    }
    Ok(())
}

/// Adds the faults of the keys in the value of each argument.
fn check_keys_given(given: &[Node<Argument>], faults: &mut Vec<Fault>) -> Result<(), AllocError>
    ensures { OnOk result (Adds faults.old faults.new (KeysBreak (arguments_of given.now))) }
{
    for argument in given {
        unique_input_values(&argument.content().value, faults)?;
    }
    Ok(())
}

/// Adds the faults of the rules on arguments that need neither definitions nor variables: UniqueArgument, and for the
/// value of each argument UniqueInputValue.
pub fn check_arguments_alone(
    given: &[Node<Argument>],
    faults: &mut Vec<Fault>,
) -> Result<(), AllocError>
    ensures { OnOk result (Adds faults.old faults.new (ArgumentsBreak (arguments_of given.now))) }
{
    tell_repeated_arguments(given, faults)?;
    check_keys_given(given, faults)
}

/// Adds the faults of the variables in the value of each argument.
pub(crate) fn check_variables_given(
    given: &[Node<Argument>],
    variables: &DefinedVariables<'_>,
    faults: &mut Vec<Fault>,
) -> Result<(), AllocError>
    ensures { OnOk result (Adds faults.old faults.new (VariablesGivenBreak (variables_of variables.now) (arguments_of given.now))) }
{
    for argument in given {
        undefined_variables(&argument.content().value, variables, faults)?;
    }
    Ok(())
}

/// Adds the faults of given arguments, whether they are defined or not: those of `check_arguments_alone`, and for the
/// value of each argument UndefinedVariable.
pub fn check_given(
    given: &[Node<Argument>],
    variables: &DefinedVariables<'_>,
    faults: &mut Vec<Fault>,
) -> Result<(), AllocError>
    ensures { OnOk result (AddsGivenFaults (variables_of variables.now) (arguments_of given.now) faults.old faults.new) }
{
    check_arguments_alone(given, faults)?;
    check_variables_given(given, variables, faults)
}
