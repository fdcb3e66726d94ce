//! Rules on the fields of types that implement interfaces (section 3.6, IsValidImplementation).
ghost use Rattle.std.specs.Prelude.{OnOk};
ghost use Rattle.rule_types.specs.Adds.{AddsThese};
ghost use Rattle.rule_types.specs.InterfaceFaults.{missing_interface_field, invalid_implementation_field_type, implementation_faults, field_faults, each_field_faults};
ghost use Rattle.rule_types.specs.InterfaceTrees.{Stands, AreOwn, schema_of, of_implementer, of_field, of_implementation};

use crate::copies::{copy_names, copy_types};
use crate::implementation::{Implementation, Implementer};
use crate::interface_arguments::check_arguments;
use crate::interface_judging::InterfaceJudging;
use crate::interface_look_ups::{own_arguments, own_field};
use crate::valid_types::is_valid_implementation_field_type;
use fault_data::{DiagnosticData, Fault, is_full, tell};
use graphql_names::{Name, Node};
use indexmap::IndexMap;
use schema_components::Component;
use schema_inputs::DefinedArguments;
use std::alloc::AllocError;
use tree_type_members::FieldDefinition;

/// Tells the faults of a type over each of these fields of an interface.
#[tactic(auto, using(crate::proofs::RoomSteps::room_steps))]
pub(crate) fn check_each_field(
    judging: &InterfaceJudging<'_>,
    implementer: &Implementer<'_>,
    fields: &IndexMap<Name, Component<FieldDefinition>>,
    faults: &mut Vec<Fault>,
) -> Result<(), AllocError>
    requires { Stands judging.now implementer.now }
    ensures { OnOk result (AddsThese faults.old faults.new (of_implementer (each_field_faults (schema_of judging.now)) implementer.now fields.now.entries)) }
{
    for (field_name, wanted) in fields {
        check_field(judging, implementer, field_name, &wanted.node, faults)?;
    }
    Ok(())
}

/// Tells the faults of a type over a field of an interface.
#[tactic(auto, using(crate::proofs::RoomSteps::full_steps))]
fn check_field(
    judging: &InterfaceJudging<'_>,
    implementer: &Implementer<'_>,
    field_name: &Name,
    wanted: &Node<FieldDefinition>,
    faults: &mut Vec<Fault>,
) -> Result<(), AllocError>
    requires { Stands judging.now implementer.now }
    ensures { OnOk result (AddsThese faults.old faults.new (of_field (field_faults (schema_of judging.now)) implementer.now field_name.now wanted.now)) }
{
    // With a full list, going on would scan all arguments of the type's field for each interface that has the field,
    // and all members of the union that is the field's type.
    if is_full(faults) {
        return Ok(());
    }
    match own_field(implementer.ty, field_name) {
        None => missing_interface_field(implementer, field_name, wanted, faults),
        Some(field) => {
            let implementation = Implementation {
                name: implementer.name,
                interface: &implementer.interface.name,
                field_name,
                wanted,
                field: &field.node,
            };
            let own = own_arguments(judging, implementer.name, field_name, field);
            check_implementation(judging, &implementation, &own, faults)
        }
    }
}

/// Tells the faults of a field, whose arguments are `own`, over an interface's field of that name.
#[tactic(auto, using(crate::proofs::RoomSteps::room_steps))]
fn check_implementation(
    judging: &InterfaceJudging<'_>,
    implementation: &Implementation<'_>,
    own: &DefinedArguments<'_>,
    faults: &mut Vec<Fault>,
) -> Result<(), AllocError>
    requires { AreOwn own.now implementation.now }
    ensures { OnOk result (AddsThese faults.old faults.new (of_implementation (implementation_faults (schema_of judging.now)) implementation.now)) }
{
    invalid_implementation_field_type(judging, implementation, faults)?;
    check_arguments(judging, implementation, own, faults)
}

/// MissingInterfaceField: a type is valid only if it has each field of its interfaces (sections 3.6 and 3.7). Told of one
/// that it lacks.
fn missing_interface_field(
    implementer: &Implementer<'_>,
    field_name: &Name,
    wanted: &Node<FieldDefinition>,
    faults: &mut Vec<Fault>,
) -> Result<(), AllocError>
    ensures { OnOk result (AddsThese faults.old faults.new (of_field missing_interface_field implementer.now field_name.now wanted.now)) }
{
    let interface = &implementer.interface.name;
    let implements_location = interface.location();
    let (name, interface, field) = copy_names(implementer.name, interface, field_name)?;
    tell(
        faults,
        Some(Fault {
            location: implementer.ty.location(),
            data: DiagnosticData::MissingInterfaceField {
                name,
                implements_location,
                interface,
                field,
                field_location: wanted.location(),
            },
        }),
    )
}

/// InvalidImplementationFieldType: a field that an interface asks for is valid only if its type is that of the interface's
/// field or a subtype of it (sections 3.6 and 3.7).
fn invalid_implementation_field_type(
    judging: &InterfaceJudging<'_>,
    implementation: &Implementation<'_>,
    faults: &mut Vec<Fault>,
) -> Result<(), AllocError>
    ensures { OnOk result (AddsThese faults.old faults.new (of_implementation invalid_implementation_field_type implementation.now (schema_of judging.now))) }
{
    let interface_type = &implementation.wanted.content().ty;
    let actual_type = &implementation.field.content().ty;
    if is_valid_implementation_field_type(judging.schema, interface_type, actual_type) {
        return Ok(());
    }
    let (name, interface, field) = implementation.copy_names()?;
    let (interface_type, actual_type) = copy_types(interface_type, actual_type)?;
    tell(
        faults,
        Some(Fault {
            location: implementation.field.location(),
            data: DiagnosticData::InvalidImplementationFieldType {
                name,
                interface,
                field,
                interface_type,
                actual_type,
                field_location: implementation.field.location(),
                interface_field_location: implementation.wanted.location(),
            },
        }),
    )
}
