//! Arguments that are given against those that are defined.
ghost use Rattle.std.specs.Prelude.{◌≡◌, ◌⊎◌, ◌↔◌, find, take, length, IfSome, IsTrue, OnOk, ◌<◌, Some, None};
ghost use Rattle.indexmap.specs.IndexMap.{get};
ghost use Rattle.graphql_names.specs.Placed.{node_tree};
ghost use Rattle.tree_literals.specs.ValueTree.{value_tree};
ghost use Rattle.tree_directives.specs.DirectiveTree.{input_value_tree, input_value_trees};
ghost use Rattle.tree_directives.specs.DirectiveQueries.{argument_has_name, given_value};
ghost use Rattle.schema_components.specs.Names.{same_text};
ghost use Rattle.rule_values.specs.in_schema.in_schema_types.TypeView.{name_text};
ghost use Rattle.rule_values.specs.in_schema.SchemaOf.{schema_tree};
ghost use Rattle.rule_values.specs.in_rule_definitions.GivenValues.{is_absent_or_null};
ghost use Rattle.rule_values.specs.in_rule_definitions.Names.{argument_name, input_name};
ghost use Rattle.rule_values.specs.in_fault_data.Adds.{Adds};
ghost use Rattle.rule_values.specs.Firsts.{AreNumbers};
ghost use Rattle.rule_values.specs.Wanting.{variables_of};
ghost use Rattle.rule_values.specs.Telling.{Tells};
ghost use Rattle.rule_arguments.specs.AddedFaults.{AddsTakerFaults};
ghost use Rattle.rule_arguments.specs.Trees.{arguments_of, taker_of};
ghost use Rattle.rule_arguments.specs.UseFaults.{required_argument};
ghost use Rattle.rule_arguments.specs.Telling.{schema_of, variables_in, IsNamedAt, undefined_argument_of, undefined_arguments_of, required_arguments_of, BreaksDefinition, BreaksIfDefined, SomeGivenBreaks};

use crate::given::{FEW, find_argument, find_listed, numbers_if_many};
use crate::rule_context::RuleContext;
use crate::taker::Taker;
use crate::usage::disallowed_variable_usage;
use graphql_names::{Name, Node};
use indexmap::IndexMap;
use rule_values::{
    DefinedVariables, DiagnosticData, Fault, IndexedSchema, definition_numbers, is_full, tell,
    type_breaks,
};
use std::alloc::AllocError;
use tree_directives::{Argument, InputValueDefinition};

/// UndefinedArgument: an argument is valid only if the field or directive defines it (section 5.4.1).
fn undefined_argument(
    taker: &Taker<'_>,
    defined: Option<&IndexMap<Name, usize>>,
    argument: &Node<Argument>,
    faults: &mut Vec<Fault>,
) -> Result<(), AllocError>
    requires { IfSome defined (λ numbers. AreNumbers input_name numbers.now (input_value_trees taker.now.definitions.now)) }
    ensures { OnOk result (Tells faults.old faults.new (undefined_argument_of taker.now argument.now)) }
{
    let name = &argument.content().name;
    if taker.definitions.find_by(defined, name).is_some() {
        return Ok(());
    }
    let name = name.clone()?;
    let data = DiagnosticData::UndefinedArgument {
        name,
        coordinate: taker.name.coordinate()?,
        definition_location: taker.definition_location,
    };
    let location = argument.location();
    tell(faults, Some(Fault { location, data }))
}

/// Adds a fault for each argument that is given and not defined.
fn tell_undefined_arguments(
    taker: &Taker<'_>,
    defined: Option<&IndexMap<Name, usize>>,
    faults: &mut Vec<Fault>,
) -> Result<(), AllocError>
    requires { IfSome defined (λ numbers. AreNumbers input_name numbers.now (input_value_trees taker.now.definitions.now)) }
    ensures { OnOk result (Tells faults.old faults.new (undefined_arguments_of taker.now)) }
{
    for argument in taker.given {
        undefined_argument(taker, defined, argument, faults)?;
    }
    Ok(())
}

/// Whether no argument of that name is given, or it is null.
fn is_not_given(
    given: &[Node<Argument>],
    numbers: Option<&IndexMap<Name, usize>>,
    name: &Name,
) -> bool
    requires { IfSome numbers (λ numbers. AreNumbers argument_name numbers.now (arguments_of given.now)) }
    ensures { result ≡ is_absent_or_null (given_value name.now.text (arguments_of given.now)) }
{
    match find_argument(given, numbers, name) {
        None => true,
        Some(argument) => argument.content().value.content().is_null(),
    }
}

/// RequiredArgument: a field or use of a directive is valid only if each required argument is given, and not as null
/// (section 5.4.2.1).
fn required_argument(
    taker: &Taker<'_>,
    given: Option<&IndexMap<Name, usize>>,
    definition: &Node<InputValueDefinition>,
    faults: &mut Vec<Fault>,
) -> Result<(), AllocError>
    requires { IfSome given (λ numbers. AreNumbers argument_name numbers.now (arguments_of taker.now.given.now)) }
    ensures { OnOk result (Tells faults.old faults.new (required_argument (taker_of taker.now) (node_tree input_value_tree definition.now))) }
{
    let defined = definition.content();
    if !(defined.is_required() && is_not_given(taker.given, given, &defined.name)) {
        return Ok(());
    }
    let coordinate = taker.name.argument_coordinate(&defined.name)?;
    let expected_type = defined.ty.clone()?;
    let data = DiagnosticData::RequiredArgument {
        name: defined.name.clone()?,
        coordinate,
        expected_type,
        definition_location: definition.location(),
    };
    let location = taker.location;
    tell(faults, Some(Fault { location, data }))
}

/// Adds a fault for each required argument that is not given.
fn tell_required_arguments(
    taker: &Taker<'_>,
    given: Option<&IndexMap<Name, usize>>,
    faults: &mut Vec<Fault>,
) -> Result<(), AllocError>
    requires { IfSome given (λ numbers. AreNumbers argument_name numbers.now (arguments_of taker.now.given.now)) }
    ensures { OnOk result (Tells faults.old faults.new (required_arguments_of taker.now)) }
{
    // A short text can have many uses that lack many arguments each.
    if is_full(faults) {
        return Ok(());
    }
    let definitions = taker.definitions.with_required();
    for definition in definitions {
        required_argument(taker, given, definition, faults)?;
    }
    Ok(())
}

/// Adds the faults of what is given for an argument, judged by its definition: DisallowedVariableUsage, and the rules
/// on values.
fn check_argument(
    judging: &RuleContext<'_>,
    argument: &Node<Argument>,
    definition: &Node<InputValueDefinition>,
    faults: &mut Vec<Fault>,
) -> Result<(), AllocError>
    ensures { OnOk result (Adds faults.old faults.new (BreaksDefinition judging.now definition.now argument.now)) }
{
    let defined = definition.content();
    disallowed_variable_usage(judging, argument, defined, faults)?;
    let value = &argument.content().value;
    type_breaks(
        judging.schema,
        &defined.ty,
        value,
        judging.variables,
        faults,
    )
}

/// Adds the same for an argument, if it is defined.
fn check_if_defined(
    judging: &RuleContext<'_>,
    taker: &Taker<'_>,
    defined: Option<&IndexMap<Name, usize>>,
    argument: &Node<Argument>,
    faults: &mut Vec<Fault>,
) -> Result<(), AllocError>
    requires { IfSome defined (λ numbers. AreNumbers input_name numbers.now (input_value_trees taker.now.definitions.now)) }
    ensures { OnOk result (Adds faults.old faults.new (BreaksIfDefined judging.now taker.now argument.now)) }
{
    let name = &argument.content().name;
    match taker.definitions.find_by(defined, name) {
        None => Ok(()),
        Some(definition) => check_argument(judging, argument, definition, faults),
    }
}

/// Whether the map has that number under the name.
fn has_number(numbers: &IndexMap<Name, usize>, name: &Name, number: usize) -> bool
    ensures { IsTrue result ↔ (get (same_text name_text) numbers.now name.now ≡ Some number) }
{
    match numbers.get(name) {
        None => false,
        Some(own) => *own == number,
    }
}

/// Whether none of these arguments before that index has that name, which is that of the argument there; `numbers` has
/// the index of the first of each name, if they are noted.
fn is_first(
    given: &[Node<Argument>],
    numbers: Option<&IndexMap<Name, usize>>,
    index: usize,
    name: &Name,
) -> bool
    requires inside { index < length given.now }
    requires named { IsNamedAt given.now index name.now }
    requires noted { IfSome numbers (λ numbers. AreNumbers argument_name numbers.now (arguments_of given.now)) }
    ensures { IsTrue result ↔ (find (argument_has_name name.now.text) (take index (arguments_of given.now)) ≡ None) }
{
    match numbers {
        None => find_listed(&given[..index], name).is_none(),
        Some(numbers) => has_number(numbers, name, index),
    }
}

/// Adds the same for the first argument of each name.
fn check_arguments(
    judging: &RuleContext<'_>,
    taker: &Taker<'_>,
    defined: Option<&IndexMap<Name, usize>>,
    given: Option<&IndexMap<Name, usize>>,
    faults: &mut Vec<Fault>,
) -> Result<(), AllocError>
    requires defined { IfSome defined (λ numbers. AreNumbers input_name numbers.now (input_value_trees taker.now.definitions.now)) }
    requires given { IfSome given (λ numbers. AreNumbers argument_name numbers.now (arguments_of taker.now.given.now)) }
    ensures { OnOk result (Adds faults.old faults.new (SomeGivenBreaks judging.now taker.now)) }
{
    for index in 0..taker.given.len() {
        let argument = &taker.given[index];
        if is_first(taker.given, given, index, &argument.content().name) {
            check_if_defined(judging, taker, defined, argument, faults)?;
        }
    }
    Ok(())
}

/// Adds the faults of given arguments, judged by the definitions: UndefinedArgument, RequiredArgument,
/// DisallowedVariableUsage, and the rules on values of what is given for an argument against its type. Definitions have
/// their places in the schema, or the places that they have themselves, as a meta-field's arguments do.
pub fn check_taken(
    schema: &IndexedSchema<'_>,
    taker: &Taker<'_>,
    variables: &DefinedVariables<'_>,
    faults: &mut Vec<Fault>,
) -> Result<(), AllocError>
    ensures { OnOk result (AddsTakerFaults (schema_tree schema.now) (variables_of variables.now) taker.now faults.old faults.new) }
{
    if taker.given.is_empty() {
        return tell_required_arguments(taker, None, faults);
    }
    let judging = RuleContext { schema, variables };
    let alloc = *faults.allocator();
    let given = numbers_if_many(alloc, taker.given)?;
    check_some_taken(&judging, taker, given.as_ref(), faults)
}

/// The same; `given` has for each name the index of the first given argument of that name, if they are noted.
fn check_some_taken(
    judging: &RuleContext<'_>,
    taker: &Taker<'_>,
    given: Option<&IndexMap<Name, usize>>,
    faults: &mut Vec<Fault>,
) -> Result<(), AllocError>
    requires { IfSome given (λ numbers. AreNumbers argument_name numbers.now (arguments_of taker.now.given.now)) }
    ensures { OnOk result (AddsTakerFaults (schema_of judging.now) (variables_in judging.now) taker.now faults.old faults.new) }
{
    let definitions = taker.definitions.nodes();
    let known = taker.definitions.numbers();
    if known.is_some() || definitions.len() <= FEW {
        return check_numbered(judging, taker, known, given, faults);
    }
    let alloc = *faults.allocator();
    let defined = definition_numbers(alloc, definitions)?;
    check_numbered(judging, taker, Some(&defined), given, faults)
}

/// The same; `defined` has for each name the index of the first argument definition of that name.
fn check_numbered(
    judging: &RuleContext<'_>,
    taker: &Taker<'_>,
    defined: Option<&IndexMap<Name, usize>>,
    given: Option<&IndexMap<Name, usize>>,
    faults: &mut Vec<Fault>,
) -> Result<(), AllocError>
    requires defined { IfSome defined (λ numbers. AreNumbers input_name numbers.now (input_value_trees taker.now.definitions.now)) }
    requires given { IfSome given (λ numbers. AreNumbers argument_name numbers.now (arguments_of taker.now.given.now)) }
    ensures { OnOk result (AddsTakerFaults (schema_of judging.now) (variables_in judging.now) taker.now faults.old faults.new) }
{
    tell_undefined_arguments(taker, defined, faults)?;
    tell_required_arguments(taker, given, faults)?;
    check_arguments(judging, taker, defined, given, faults)
}
