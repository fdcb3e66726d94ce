//! Tells which rules on interfaces a schema breaks.
ghost use Rattle.std.specs.Prelude.{OnOk};
ghost use Rattle.schema_types.specs.TypeView.{extended_type};
ghost use Rattle.graphql_schema.specs.SchemaOf.{schema_tree};
ghost use Rattle.fault_data.specs.Adds.{Adds};
ghost use Rattle.rule_types.specs.Adds.{AddsThese};
ghost use Rattle.schema_types.specs.Distinct.{AreAllDistinct};
ghost use Rattle.fault_data.specs.in_rule_definitions.Rules.{InterfacesBreak};
ghost use Rattle.fault_data.specs.in_rule_definitions.PlacedFaults.{Told};
ghost use Rattle.rule_types.specs.InterfaceFaults.{over_faults, listed_faults, named_faults, type_faults, types_faults};
ghost use Rattle.schema_inputs.specs.Inputs.{AreInputsOf};
ghost use Rattle.rule_types.specs.InterfaceTrees.{StandsUnder, Stands, interface_tree, schema_of, of_implementer};

use crate::implementation::Implementer;
use crate::interface_fields::check_each_field;
use crate::interface_judging::InterfaceJudging;
use crate::interface_look_ups::interfaces_of;
use crate::interfaces::{check_transitive, recursive_interface_definition, undefined_interface};
use fault_data::{Fault, is_full};
use graphql_names::{Name, Node};
use graphql_schema::Schema;
use schema_inputs::SchemaInputs;
use schema_types::{ExtendedType, InterfaceType};
use std::alloc::{AllocError, Global};

/// Tells each fault of the rules on interfaces, as far as there is room. `inputs` has what the schema defines of many input
/// values. It fails only where memory is refused; then some may be told.
pub fn check_interfaces(
    alloc: Global,
    schema: &Schema,
    inputs: &SchemaInputs,
    faults: &mut Vec<Fault>,
) -> Result<(), AllocError>
    requires distinct { AreAllDistinct (schema_tree schema.now) }
    requires inputs { AreInputsOf (schema_tree schema.now) inputs.now }
    ensures { OnOk result (Adds faults.old faults.new (Told (schema_tree schema.now) InterfacesBreak)) }
{
    let judging = InterfaceJudging {
        alloc,
        schema,
        inputs,
    };
    check_each_type(&judging, faults)
}

/// Tells the faults of each type.
#[tactic(auto, using(crate::proofs::RoomSteps::room_steps))]
fn check_each_type(
    judging: &InterfaceJudging<'_>,
    faults: &mut Vec<Fault>,
) -> Result<(), AllocError>
    requires distinct { AreAllDistinct (schema_of judging.now) }
    requires inputs { AreInputsOf (schema_of judging.now) judging.now.inputs.now }
    ensures { OnOk result (AddsThese faults.old faults.new (types_faults (schema_of judging.now) judging.now.schema.now.types.entries)) }
{
    for (name, ty) in &judging.schema.types {
        // A full list stays unchanged. Going on would still visit each field of each interface of each type: millions
        // for a short text.
        if is_full(faults) {
            return Ok(());
        }
        check_type(judging, name, ty, faults)?;
    }
    Ok(())
}

/// Tells the faults of a type over each of its interfaces.
fn check_type(
    judging: &InterfaceJudging<'_>,
    name: &Name,
    ty: &ExtendedType,
    faults: &mut Vec<Fault>,
) -> Result<(), AllocError>
    requires { StandsUnder judging.now name.now ty.now }
    ensures { OnOk result (AddsThese faults.old faults.new (type_faults (schema_of judging.now) name.now.text (extended_type ty.now))) }
{
    for interface in interfaces_of(ty) {
        let implementer = Implementer {
            name,
            ty,
            interface,
        };
        check_interface(judging, &implementer, faults)?;
    }
    Ok(())
}

/// Tells the faults of a type over one of its interfaces.
#[tactic(auto, using(crate::proofs::RoomSteps::room_steps))]
fn check_interface(
    judging: &InterfaceJudging<'_>,
    implementer: &Implementer<'_>,
    faults: &mut Vec<Fault>,
) -> Result<(), AllocError>
    requires { Stands judging.now implementer.now }
    ensures { OnOk result (AddsThese faults.old faults.new (of_implementer (named_faults (schema_of judging.now)) implementer.now)) }
{
    recursive_interface_definition(implementer, faults)?;
    check_listed(judging, implementer, faults)
}

/// Tells the faults of a type over an interface of that name, which it lists, whether it is defined or not.
fn check_listed(
    judging: &InterfaceJudging<'_>,
    implementer: &Implementer<'_>,
    faults: &mut Vec<Fault>,
) -> Result<(), AllocError>
    requires { Stands judging.now implementer.now }
    ensures { OnOk result (AddsThese faults.old faults.new (of_implementer (listed_faults (schema_of judging.now)) implementer.now)) }
{
    let interface = &implementer.interface.name;
    match judging.schema.get_interface(interface) {
        None => undefined_interface(interface, faults),
        Some(over) => check_over(judging, implementer, over, faults),
    }
}

/// Tells the faults of a type over an interface that it lists and that is defined.
fn check_over(
    judging: &InterfaceJudging<'_>,
    implementer: &Implementer<'_>,
    over: &Node<InterfaceType>,
    faults: &mut Vec<Fault>,
) -> Result<(), AllocError>
    requires { Stands judging.now implementer.now }
    ensures { OnOk result (AddsThese faults.old faults.new (of_implementer (over_faults (schema_of judging.now)) implementer.now (interface_tree over.now))) }
{
    let over = over.content();
    let listed = over.implements_interfaces.as_slice();
    check_transitive(implementer, listed, faults)?;
    check_each_field(judging, implementer, &over.fields, faults)
}
