//! Rules on the interfaces that a type lists (sections 3.6 and 3.7).
ghost use Rattle.std.specs.Prelude.{OnOk};
ghost use Rattle.graphql_names.specs.Placed.{name_tree};
ghost use Rattle.rule_types.specs.Adds.{AddsThese};
ghost use Rattle.rule_types.specs.InterfaceFaults.{recursive_interface_definition, transitive_implemented_interfaces, undefined_interface, each_transitive_faults};
ghost use Rattle.rule_types.specs.InterfaceTrees.{of_implementer};

use crate::implementation::Implementer;
use crate::interface_look_ups::implements;
use fault_data::{DiagnosticData, Fault, tell};
use graphql_names::Name;
use schema_components::ComponentName;
use std::alloc::AllocError;

/// UndefinedDefinition: a type is valid only if each name that it implements is that of an interface (sections 3.6 and
/// 3.7). Told of one that is not.
pub(crate) fn undefined_interface(
    interface: &Name,
    faults: &mut Vec<Fault>,
) -> Result<(), AllocError>
    ensures { OnOk result (AddsThese faults.old faults.new (undefined_interface (name_tree interface.now))) }
{
    tell(
        faults,
        Some(Fault {
            location: interface.location(),
            data: DiagnosticData::UndefinedDefinition {
                name: interface.clone()?,
            },
        }),
    )
}

/// RecursiveInterfaceDefinition: an interface type is valid only if it does not implement itself (section 3.7).
pub(crate) fn recursive_interface_definition(
    implementer: &Implementer<'_>,
    faults: &mut Vec<Fault>,
) -> Result<(), AllocError>
    ensures { OnOk result (AddsThese faults.old faults.new (of_implementer recursive_interface_definition implementer.now)) }
{
    // An object that lists its own name lists no interface: that is told as UndefinedDefinition.
    if !implementer.ty.is_interface() {
        return Ok(());
    }
    let interface = &implementer.interface.name;
    // A longer cycle needs no search: by TransitiveImplementedInterfaces, each interface of it would have to list itself.
    if interface.as_str() != implementer.name.as_str() {
        return Ok(());
    }
    tell(
        faults,
        Some(Fault {
            location: interface.location(),
            data: DiagnosticData::RecursiveInterfaceDefinition {
                name: implementer.name.clone()?,
            },
        }),
    )
}

/// Tells each of these interfaces, which an interface lists, that a type that lists it does not.
#[tactic(auto, using(crate::proofs::RoomSteps::room_steps))]
pub(crate) fn check_transitive(
    implementer: &Implementer<'_>,
    listed: &[ComponentName],
    faults: &mut Vec<Fault>,
) -> Result<(), AllocError>
    ensures { OnOk result (AddsThese faults.old faults.new (of_implementer each_transitive_faults implementer.now listed.now)) }
{
    for missing in listed {
        transitive_implemented_interfaces(implementer, missing, faults)?;
    }
    Ok(())
}

/// TransitiveImplementedInterfaces: a type is valid only if it also implements what its interfaces implement (sections 3.6
/// and 3.7).
fn transitive_implemented_interfaces(
    implementer: &Implementer<'_>,
    missing: &ComponentName,
    faults: &mut Vec<Fault>,
) -> Result<(), AllocError>
    ensures { OnOk result (AddsThese faults.old faults.new (of_implementer transitive_implemented_interfaces implementer.now (name_tree missing.now.name))) }
{
    if implements(implementer.ty, missing) {
        return Ok(());
    }
    tell(
        faults,
        Some(Fault {
            location: implementer.ty.location(),
            data: DiagnosticData::TransitiveImplementedInterfaces {
                interface: implementer.name.clone()?,
                via_interface: implementer.interface.name.clone()?,
                transitive_interface_location: missing.name.location(),
                missing_interface: missing.name.clone()?,
            },
        }),
    )
}
