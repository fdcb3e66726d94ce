//! Rules on argument definitions and input fields (sections 3.6, 3.10 and 3.13).
ghost use Rattle.std.specs.Prelude.{◌++◌, [], ◌∷◌, OnOk, flat_map};
ghost use Rattle.schema_components.specs.Lists.{each_place};
ghost use Rattle.rule_types.specs.Adds.{AddsThese};
ghost use Rattle.rule_types.specs.NamedWords.{named_words};
ghost use Rattle.rule_types.specs.Seen.{AreSeen};
ghost use Rattle.rule_types.specs.FaultLists.{unique_input_value, input_value_faults, argument_faults, arguments_faults};
ghost use Rattle.rule_types.specs.Trees.{schema_of, input_tree, input_trees};

use crate::look_ups::kind_inside;
use crate::reserved::{Named, reserved_name};
use crate::rule_context::RuleContext;
use crate::types_used::{input_type, undefined_type};
use fault_data::{DiagnosticData, Fault, tell};
use graphql_names::{Name, Node, SourceSpan};
use indexmap::IndexMap;
use std::alloc::AllocError;
use tree_directives::InputValueDefinition;

/// Tells the faults of the argument definitions of a field or directive.
#[tactic(auto, using(crate::proofs::RoomSteps::room_steps))]
pub(crate) fn check_arguments(
    judging: &RuleContext<'_>,
    arguments: &[Node<InputValueDefinition>],
    faults: &mut Vec<Fault>,
) -> Result<(), AllocError>
    ensures { OnOk result (AddsThese faults.old faults.new (arguments_faults (schema_of judging.now) (input_trees arguments.now))) }
{
    check_each_argument(judging, arguments, faults)?;
    check_repeats(judging, arguments, faults)
}

/// Tells the faults of each argument definition.
fn check_each_argument(
    judging: &RuleContext<'_>,
    arguments: &[Node<InputValueDefinition>],
    faults: &mut Vec<Fault>,
) -> Result<(), AllocError>
    ensures { OnOk result (AddsThese faults.old faults.new (flat_map (argument_faults (schema_of judging.now)) (input_trees arguments.now))) }
{
    for argument in arguments {
        check_argument(judging, argument, faults)?;
    }
    Ok(())
}

/// Tells the faults of an argument definition.
fn check_argument(
    judging: &RuleContext<'_>,
    argument: &Node<InputValueDefinition>,
    faults: &mut Vec<Fault>,
) -> Result<(), AllocError>
    ensures { OnOk result (AddsThese faults.old faults.new (argument_faults (schema_of judging.now) (input_tree argument.now))) }
{
    let name = &argument.content().name;
    check_input_value(judging, name, argument, Named::Argument, faults)
}

/// Tells the faults of an argument definition or input field of that name.
#[tactic(auto, using(crate::proofs::RoomSteps::room_steps))]
pub(crate) fn check_input_value(
    judging: &RuleContext<'_>,
    name: &Name,
    input: &Node<InputValueDefinition>,
    named: Named,
    faults: &mut Vec<Fault>,
) -> Result<(), AllocError>
    ensures { OnOk result (AddsThese faults.old faults.new (input_value_faults (schema_of judging.now) name.now.text (named_words named) (input_tree input.now))) }
{
    let content = input.content();
    let ty = content.ty.content();
    let kind = kind_inside(judging, ty);
    reserved_name(
        input.is_built_in(),
        name,
        content.name.location(),
        named.describe(),
        faults,
    )?;
    // At most one of these two tells a fault: a type that is not defined has no kind.
    undefined_type(ty, kind, faults)?;
    input_type(input, kind, faults)
}

/// Tells each argument definition whose name an earlier one has.
// Input fields need no such rule: folding tells repeated ones, and keeps the first.
fn check_repeats(
    judging: &RuleContext<'_>,
    arguments: &[Node<InputValueDefinition>],
    faults: &mut Vec<Fault>,
) -> Result<(), AllocError>
    ensures { OnOk result (AddsThese faults.old faults.new (each_place unique_input_value (input_trees arguments.now))) }
{
    let mut seen = IndexMap::new(judging.alloc);
    for argument in arguments {
        unique_input_value(&seen, argument, faults)?;
        see(&mut seen, argument)?;
    }
    Ok(())
}

/// UniqueInputValue: a field or directive definition is valid only if its arguments differ in name (sections 3.6 and 3.13).
/// `seen` has the first place of each name.
fn unique_input_value(
    seen: &IndexMap<Name, Option<SourceSpan>>,
    argument: &Node<InputValueDefinition>,
    faults: &mut Vec<Fault>,
) -> Result<(), AllocError>
    ensures { (before : _) → AreSeen seen.now before → OnOk result (AddsThese faults.old faults.new (unique_input_value before (input_tree argument.now))) }
{
    let name = &argument.content().name;
    match seen.get(name) {
        None => Ok(()),
        Some(first) => {
            let first = *first;
            tell(
                faults,
                Some(Fault {
                    // At the first definition, once for each later one of its name.
                    location: first,
                    data: DiagnosticData::UniqueInputValue {
                        name: name.clone()?,
                        original_definition: first,
                        redefined_definition: argument.location(),
                    },
                }),
            )
        }
    }
}

/// Notes the place of an argument, if it is the first of its name.
fn see(
    seen: &mut IndexMap<Name, Option<SourceSpan>>,
    argument: &Node<InputValueDefinition>,
) -> Result<(), AllocError>
    ensures { (before : _) → AreSeen seen.old before → OnOk result (AreSeen seen.new (before ++ input_tree argument.now ∷ [])) }
{
    let name = &argument.content().name;
    if seen.get(name).is_some() {
        return Ok(());
    }
    seen.insert(name.clone()?, argument.location())?;
    Ok(())
}
