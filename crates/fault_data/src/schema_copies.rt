//! Copies of what breaks rules of schemas.
ghost use Rattle.std.specs.Prelude.{◌≡◌, IfOk, IsTrue, Some};
ghost use Rattle.fault_data.specs.CopyGroups.{set_name, set_places, is_of_implementation, is_of_cycle};
ghost use Rattle.fault_data.specs.DiagnosticView.{diagnostic_of};

use crate::diagnostic_data::DiagnosticData;
use graphql_names::{Name, SourceSpan};
use std::alloc::AllocError;
use tree_literals::{copies_of_five, copies_of_four, copies_of_three, copies_of_two};

/// What is wrong with a type that lacks its members, with a copy of the type's name and of its extensions' places.
pub(crate) fn with_set(
    diagnostic: &DiagnosticData,
    type_name: Name,
    extensions_locations: Vec<Option<SourceSpan>>,
) -> DiagnosticData
    requires name { set_name diagnostic.now ≡ Some type_name }
    requires places { set_places diagnostic.now ≡ Some extensions_locations.items }
    ensures { diagnostic_of result ≡ diagnostic_of diagnostic.now }
{
    match diagnostic {
        DiagnosticData::EmptyFieldSet { type_location, .. } => DiagnosticData::EmptyFieldSet {
            type_name,
            type_location: *type_location,
            extensions_locations,
        },
        DiagnosticData::EmptyValueSet { type_location, .. } => DiagnosticData::EmptyValueSet {
            type_name,
            type_location: *type_location,
            extensions_locations,
        },
        DiagnosticData::EmptyMemberSet { type_location, .. } => DiagnosticData::EmptyMemberSet {
            type_name,
            type_location: *type_location,
            extensions_locations,
        },
        DiagnosticData::EmptyInputValueSet { type_location, .. } =>
            DiagnosticData::EmptyInputValueSet {
                type_name,
                type_location: *type_location,
                extensions_locations,
            },
        _ => unreachable!(),
    }
}

/// A copy of what is wrong with a type that does not implement an interface.
pub(crate) fn copied_implementation(
    diagnostic: &DiagnosticData,
) -> Result<DiagnosticData, AllocError>
    requires { IsTrue (is_of_implementation diagnostic.now) }
    ensures { IfOk result (λ copy. diagnostic_of copy ≡ diagnostic_of diagnostic.now) }
{
    match diagnostic {
        DiagnosticData::TransitiveImplementedInterfaces {
            interface,
            via_interface,
            transitive_interface_location,
            missing_interface,
        } => {
            let (interface, via_interface, missing_interface) = copies_of_three(
                interface,
                via_interface,
                missing_interface,
            )?;
            Ok(DiagnosticData::TransitiveImplementedInterfaces {
                interface,
                via_interface,
                transitive_interface_location: *transitive_interface_location,
                missing_interface,
            })
        }
        DiagnosticData::MissingInterfaceField {
            name,
            implements_location,
            interface,
            field,
            field_location,
        } => {
            let (name, interface, field) = copies_of_three(name, interface, field)?;
            Ok(DiagnosticData::MissingInterfaceField {
                name,
                implements_location: *implements_location,
                interface,
                field,
                field_location: *field_location,
            })
        }
        DiagnosticData::InvalidImplementationFieldType {
            name,
            interface,
            field,
            interface_type,
            actual_type,
            field_location,
            interface_field_location,
        } => {
            let (name, interface, field, interface_type, actual_type) = copies_of_five(
                name,
                interface,
                field,
                interface_type,
                actual_type,
            )?;
            Ok(DiagnosticData::InvalidImplementationFieldType {
                name,
                interface,
                field,
                interface_type,
                actual_type,
                field_location: *field_location,
                interface_field_location: *interface_field_location,
            })
        }
        DiagnosticData::MissingInterfaceFieldArgument {
            name,
            interface,
            field,
            argument,
            field_location,
            interface_argument_location,
        } => {
            let (name, interface, field, argument) = copies_of_four(
                name, interface, field, argument,
            )?;
            Ok(DiagnosticData::MissingInterfaceFieldArgument {
                name,
                interface,
                field,
                argument,
                field_location: *field_location,
                interface_argument_location: *interface_argument_location,
            })
        }
        DiagnosticData::InvalidImplementationFieldArgumentType {
            name,
            interface,
            field,
            argument,
            interface_type,
            actual_type,
            argument_location,
            interface_argument_location,
        } => {
            let (name, interface, field, argument) = copies_of_four(
                name, interface, field, argument,
            )?;
            let (interface_type, actual_type) = copies_of_two(interface_type, actual_type)?;
            Ok(DiagnosticData::InvalidImplementationFieldArgumentType {
                name,
                interface,
                field,
                argument,
                interface_type,
                actual_type,
                argument_location: *argument_location,
                interface_argument_location: *interface_argument_location,
            })
        }
        DiagnosticData::ExtraRequiredImplementationFieldArgument {
            name,
            interface,
            field,
            argument,
            argument_location,
            interface_field_location,
        } => {
            let (name, interface, field, argument) = copies_of_four(
                name, interface, field, argument,
            )?;
            Ok(DiagnosticData::ExtraRequiredImplementationFieldArgument {
                name,
                interface,
                field,
                argument,
                argument_location: *argument_location,
                interface_field_location: *interface_field_location,
            })
        }
        _ => unreachable!(),
    }
}

/// A copy of what is wrong with a definition that leads back to itself.
pub(crate) fn copied_cycle(diagnostic: &DiagnosticData) -> Result<DiagnosticData, AllocError>
    requires { IsTrue (is_of_cycle diagnostic.now) }
    ensures { IfOk result (λ copy. diagnostic_of copy ≡ diagnostic_of diagnostic.now) }
{
    match diagnostic {
        DiagnosticData::RecursiveInputObjectDefinition { name, trace } => {
            let (name, trace) = copies_of_two(name, trace)?;
            Ok(DiagnosticData::RecursiveInputObjectDefinition { name, trace })
        }
        DiagnosticData::RecursiveDirectiveDefinition { name, trace } => {
            let (name, trace) = copies_of_two(name, trace)?;
            Ok(DiagnosticData::RecursiveDirectiveDefinition { name, trace })
        }
        DiagnosticData::RecursiveFragmentDefinition {
            head_location,
            name,
            trace,
        } => {
            let (name, trace) = copies_of_two(name, trace)?;
            Ok(DiagnosticData::RecursiveFragmentDefinition {
                head_location: *head_location,
                name,
                trace,
            })
        }
        _ => unreachable!(),
    }
}
