//! Rules on the arguments of fields over an interface's fields (section 3.6, IsValidImplementation).
ghost use Rattle.std.specs.Prelude.{◌≡◌, ◌++◌, [], ◌∷◌, map, IfOk, OnOk};
ghost use Rattle.std.specs.Option.{option_map};
ghost use Rattle.tree_literals.specs.TypeTree.{type_tree, unplaced_type};
ghost use Rattle.tree_directives.specs.DirectiveTree.{input_value_trees};
ghost use Rattle.schema_inputs.specs.Firsts.{AreNumbers};
ghost use Rattle.schema_inputs.specs.Inputs.{input_name};
ghost use Rattle.rule_types.specs.Adds.{AddsThese};
ghost use Rattle.rule_types.specs.Firsts.{AreFirsts};
ghost use Rattle.rule_types.specs.FaultLists.{first_named};
ghost use Rattle.rule_types.specs.InterfaceFaults.{missing_interface_field_argument, extra_required_argument, same_type, invalid_implementation_field_argument_type, wanted_fault, own_fault, wanted_faults_over, own_faults_among, own_faults, arguments_faults};
ghost use Rattle.rule_types.specs.Trees.{input_tree};
ghost use Rattle.rule_types.specs.InterfaceTrees.{AreOwn, of_implementation, of_arguments, of_argument};

use crate::copies::copy_arguments;
use crate::implementation::Implementation;
use crate::interface_judging::InterfaceJudging;
use fault_data::{DiagnosticData, Fault, tell};
use graphql_names::{Name, Node};
use indexmap::IndexMap;
use schema_inputs::DefinedArguments;
use std::alloc::{AllocError, Global};
use tree_directives::InputValueDefinition;
use tree_literals::Type;

/// The first argument definition of each name.
// The nodes are shared copies: the borrow checker does not cover a map of references.
type Firsts = IndexMap<Name, Node<InputValueDefinition>>;

/// Tells the faults of a field's arguments, which are `own`, over those of an interface's field.
#[tactic(auto, using(crate::proofs::RoomSteps::room_steps))]
pub(crate) fn check_arguments(
    judging: &InterfaceJudging<'_>,
    implementation: &Implementation<'_>,
    own: &DefinedArguments<'_>,
    faults: &mut Vec<Fault>,
) -> Result<(), AllocError>
    requires { AreOwn own.now implementation.now }
    ensures { OnOk result (AddsThese faults.old faults.new (of_implementation arguments_faults implementation.now)) }
{
    check_wanted(implementation, own, faults)?;
    check_own(judging, implementation, own, faults)
}

/// Tells the faults of each argument of an interface's field, where `own` are the arguments of the type's field.
fn check_wanted(
    implementation: &Implementation<'_>,
    own: &DefinedArguments<'_>,
    faults: &mut Vec<Fault>,
) -> Result<(), AllocError>
    ensures { OnOk result (AddsThese faults.old faults.new (of_implementation wanted_faults_over implementation.now (input_value_trees own.now))) }
{
    for argument in &implementation.wanted.content().arguments {
        check_wanted_argument(implementation, own, argument, faults)?;
    }
    Ok(())
}

/// Tells the fault of an argument of an interface's field, where `own` are the arguments of the type's field.
fn check_wanted_argument(
    implementation: &Implementation<'_>,
    own: &DefinedArguments<'_>,
    argument: &Node<InputValueDefinition>,
    faults: &mut Vec<Fault>,
) -> Result<(), AllocError>
    ensures { OnOk result (AddsThese faults.old faults.new (of_argument wanted_fault implementation.now (input_value_trees own.now) argument.now)) }
{
    match own_named(own, &argument.content().name) {
        None => missing_interface_field_argument(implementation, argument, faults),
        Some(given) => {
            invalid_implementation_field_argument_type(implementation, argument, given, faults)
        }
    }
}

/// The first of these arguments that has that name.
fn own_named<'a>(own: &DefinedArguments<'a>, name: &Name) -> Option<&'a Node<InputValueDefinition>>
    ensures { option_map (λ a. input_tree a.now) result ≡ first_named (input_value_trees own.now) name.now.text }
{
    let nodes = own.nodes();
    match own.numbers() {
        None => find_listed(nodes, name),
        Some(numbers) => find_numbered(nodes, numbers, name),
    }
}

/// The first of these arguments that has that name; the list is scanned.
fn find_listed<'a>(
    arguments: &'a [Node<InputValueDefinition>],
    name: &Name,
) -> Option<&'a Node<InputValueDefinition>>
    ensures { option_map (λ a. input_tree a.now) result ≡ first_named (input_value_trees arguments.now) name.now.text }
{
    for argument in arguments {
        if name.as_str() == argument.content().name.as_str() {
            return Some(argument);
        }
    }
    None
}

/// The first of these arguments that has that name; `numbers` has its index.
fn find_numbered<'a>(
    arguments: &'a [Node<InputValueDefinition>],
    numbers: &IndexMap<Name, usize>,
    name: &Name,
) -> Option<&'a Node<InputValueDefinition>>
    requires { AreNumbers input_name numbers.now (input_value_trees arguments.now) }
    ensures { option_map (λ a. input_tree a.now) result ≡ first_named (input_value_trees arguments.now) name.now.text }
{
    match numbers.get(name) {
        None => None,
        Some(index) => arguments.get(*index),
    }
}

/// Tells the faults of the arguments of a type's field, which are `own`, that the interface's field lacks. Those that are not
/// required break no rule.
fn check_own(
    judging: &InterfaceJudging<'_>,
    implementation: &Implementation<'_>,
    own: &DefinedArguments<'_>,
    faults: &mut Vec<Fault>,
) -> Result<(), AllocError>
    requires { AreOwn own.now implementation.now }
    ensures { OnOk result (AddsThese faults.old faults.new (of_implementation own_faults implementation.now)) }
{
    let required = own.with_required();
    if required.is_empty() {
        return Ok(());
    }
    let of_interface = firsts(judging.alloc, &implementation.wanted.content().arguments)?;
    check_own_arguments(implementation, required, &of_interface, faults)
}

/// The first argument definition of each name.
fn firsts(alloc: Global, arguments: &[Node<InputValueDefinition>]) -> Result<Firsts, AllocError>
    ensures { IfOk result (λ m. AreFirsts m (map input_tree arguments.now)) }
{
    let mut firsts = IndexMap::new(alloc);
    for argument in arguments {
        note_first(&mut firsts, argument)?;
    }
    Ok(firsts)
}

/// Notes an argument definition, if it is the first of its name.
fn note_first(firsts: &mut Firsts, argument: &Node<InputValueDefinition>) -> Result<(), AllocError>
    ensures { (before : _) → AreFirsts firsts.old before → OnOk result (AreFirsts firsts.new (before ++ input_tree argument.now ∷ [])) }
{
    if first_like(firsts, argument).is_some() {
        return Ok(());
    }
    firsts.insert(argument.content().name.clone()?, argument.clone()?)?;
    Ok(())
}

/// The first argument definition that has the name of this one.
fn first_like<'a>(
    firsts: &'a Firsts,
    argument: &Node<InputValueDefinition>,
) -> Option<&'a Node<InputValueDefinition>>
    ensures { (vs : _) → AreFirsts firsts.now vs → option_map (λ a. input_tree a.now) result ≡ first_named vs (input_tree argument.now).it.name.it }
{
    firsts.get(&argument.content().name)
}

/// Tells each required one of these arguments of a field that the interface's field lacks.
fn check_own_arguments(
    implementation: &Implementation<'_>,
    arguments: &[Node<InputValueDefinition>],
    of_interface: &Firsts,
    faults: &mut Vec<Fault>,
) -> Result<(), AllocError>
    ensures { (vs : _) → AreFirsts of_interface.now vs → OnOk result (AddsThese faults.old faults.new (of_implementation own_faults_among implementation.now vs (input_value_trees arguments.now))) }
{
    for argument in arguments {
        check_own_argument(implementation, of_interface, argument, faults)?;
    }
    Ok(())
}

/// Tells the fault of an argument of a type's field, where `wanted` has the arguments of the interface's field.
fn check_own_argument(
    implementation: &Implementation<'_>,
    wanted: &Firsts,
    argument: &Node<InputValueDefinition>,
    faults: &mut Vec<Fault>,
) -> Result<(), AllocError>
    ensures { (ws : _) → AreFirsts wanted.now ws → OnOk result (AddsThese faults.old faults.new (of_argument own_fault implementation.now ws argument.now)) }
{
    match first_like(wanted, argument) {
        Some(_) => Ok(()),
        None => extra_required_implementation_field_argument(implementation, argument, faults),
    }
}

/// MissingInterfaceFieldArgument: a field that an interface asks for is valid only if it has each argument of the
/// interface's field (sections 3.6 and 3.7). Told of one that it lacks.
fn missing_interface_field_argument(
    implementation: &Implementation<'_>,
    argument: &Node<InputValueDefinition>,
    faults: &mut Vec<Fault>,
) -> Result<(), AllocError>
    ensures { OnOk result (AddsThese faults.old faults.new (of_implementation missing_interface_field_argument implementation.now (input_tree argument.now))) }
{
    let field_location = implementation.field.location();
    let (name, interface, field) = implementation.copy_names()?;
    tell(
        faults,
        Some(Fault {
            location: field_location,
            data: DiagnosticData::MissingInterfaceFieldArgument {
                name,
                interface,
                field,
                argument: argument.content().name.clone()?,
                field_location,
                interface_argument_location: argument.location(),
            },
        }),
    )
}

/// InvalidImplementationFieldArgumentType: an argument that an interface asks for is valid only if its type is that of the
/// interface's argument (sections 3.6 and 3.7).
fn invalid_implementation_field_argument_type(
    implementation: &Implementation<'_>,
    wanted: &Node<InputValueDefinition>,
    given: &Node<InputValueDefinition>,
    faults: &mut Vec<Fault>,
) -> Result<(), AllocError>
    ensures { OnOk result (AddsThese faults.old faults.new (of_arguments invalid_implementation_field_argument_type implementation.now wanted.now given.now)) }
{
    // The same type and no subtype: the types of arguments are invariant, where those of fields are covariant.
    if same_type(wanted.content().ty.content(), given.content().ty.content()) {
        return Ok(());
    }
    let (name, interface, field) = implementation.copy_names()?;
    let (argument, interface_type, actual_type) = copy_arguments(
        wanted.content(),
        given.content(),
    )?;
    tell(
        faults,
        Some(Fault {
            location: given.location(),
            data: DiagnosticData::InvalidImplementationFieldArgumentType {
                name,
                interface,
                field,
                argument,
                interface_type,
                actual_type,
                argument_location: given.location(),
                interface_argument_location: wanted.location(),
            },
        }),
    )
}

/// Whether two references to types are the same, ignoring places.
fn same_type(a: &Type, b: &Type) -> bool
    ensures { result ≡ same_type (unplaced_type (type_tree a.now)) (unplaced_type (type_tree b.now)) }
{
    *a == *b
}

/// ExtraRequiredImplementationFieldArgument: an argument that the interface's field lacks is valid only if it is not
/// required (sections 3.6 and 3.7).
fn extra_required_implementation_field_argument(
    implementation: &Implementation<'_>,
    argument: &Node<InputValueDefinition>,
    faults: &mut Vec<Fault>,
) -> Result<(), AllocError>
    ensures { OnOk result (AddsThese faults.old faults.new (of_implementation extra_required_argument implementation.now (input_tree argument.now))) }
{
    // A selection on the interface cannot give this argument, so it must be nullable or have a default.
    if !argument.content().is_required() {
        return Ok(());
    }
    let (name, interface, field) = implementation.copy_names()?;
    tell(
        faults,
        Some(Fault {
            location: argument.location(),
            data: DiagnosticData::ExtraRequiredImplementationFieldArgument {
                name,
                interface,
                field,
                argument: argument.content().name.clone()?,
                argument_location: argument.location(),
                interface_field_location: implementation.wanted.location(),
            },
        }),
    )
}
