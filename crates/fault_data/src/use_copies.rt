//! Copies of what breaks rules of uses, of values and of documents.
ghost use Rattle.std.specs.Prelude.{◌≡◌, IfOk, IsTrue};
ghost use Rattle.fault_data.specs.CopyGroups.{is_of_use, is_of_value, is_of_document};
ghost use Rattle.fault_data.specs.DiagnosticView.{diagnostic_of};

use crate::coordinate_copies::{copied_attribute, copied_coordinate};
use crate::diagnostic_data::DiagnosticData;
use std::alloc::AllocError;
use tree_literals::{copies_of_four, copies_of_three, copies_of_two};

/// A copy of what is wrong with a use of a directive or an argument.
pub(crate) fn copied_use(diagnostic: &DiagnosticData) -> Result<DiagnosticData, AllocError>
    requires { IsTrue (is_of_use diagnostic.now) }
    ensures { IfOk result (λ copy. diagnostic_of copy ≡ diagnostic_of diagnostic.now) }
{
    match diagnostic {
        DiagnosticData::UnsupportedLocation {
            name,
            location,
            valid_locations,
            definition_location,
        } => {
            let (name, valid_locations) = copies_of_two(name, valid_locations)?;
            Ok(DiagnosticData::UnsupportedLocation {
                name,
                location: *location,
                valid_locations,
                definition_location: *definition_location,
            })
        }
        DiagnosticData::UndefinedArgument {
            name,
            coordinate,
            definition_location,
        } => {
            let name = name.clone()?;
            let coordinate = copied_coordinate(coordinate)?;
            Ok(DiagnosticData::UndefinedArgument {
                name,
                coordinate,
                definition_location: *definition_location,
            })
        }
        DiagnosticData::RequiredArgument {
            name,
            coordinate,
            expected_type,
            definition_location,
        } => {
            let (name, expected_type) = copies_of_two(name, expected_type)?;
            let coordinate = copied_coordinate(coordinate)?;
            Ok(DiagnosticData::RequiredArgument {
                name,
                coordinate,
                expected_type,
                definition_location: *definition_location,
            })
        }
        DiagnosticData::DisallowedVariableUsage {
            variable,
            variable_type,
            variable_location,
            argument,
            argument_type,
            argument_location,
        } => {
            let (variable, variable_type, argument, argument_type) = copies_of_four(
                variable,
                variable_type,
                argument,
                argument_type,
            )?;
            Ok(DiagnosticData::DisallowedVariableUsage {
                variable,
                variable_type,
                variable_location: *variable_location,
                argument,
                argument_type,
                argument_location: *argument_location,
            })
        }
        _ => unreachable!(),
    }
}

/// A copy of what is wrong with a value.
pub(crate) fn copied_value(diagnostic: &DiagnosticData) -> Result<DiagnosticData, AllocError>
    requires { IsTrue (is_of_value diagnostic.now) }
    ensures { IfOk result (λ copy. diagnostic_of copy ≡ diagnostic_of diagnostic.now) }
{
    match diagnostic {
        DiagnosticData::UnsupportedValueType {
            value,
            ty,
            definition_location,
        } => {
            let (value, ty) = copies_of_two(value, ty)?;
            Ok(DiagnosticData::UnsupportedValueType {
                value,
                ty,
                definition_location: *definition_location,
            })
        }
        DiagnosticData::IntCoercionError { value } => {
            let value = value.clone()?;
            Ok(DiagnosticData::IntCoercionError { value })
        }
        DiagnosticData::FloatCoercionError { value } => {
            let value = value.clone()?;
            Ok(DiagnosticData::FloatCoercionError { value })
        }
        DiagnosticData::UndefinedEnumValue {
            value,
            definition,
            definition_location,
        } => {
            let (value, definition) = copies_of_two(value, definition)?;
            Ok(DiagnosticData::UndefinedEnumValue {
                value,
                definition,
                definition_location: *definition_location,
            })
        }
        DiagnosticData::UndefinedInputValue {
            value,
            definition,
            definition_location,
        } => {
            let (value, definition) = copies_of_two(value, definition)?;
            Ok(DiagnosticData::UndefinedInputValue {
                value,
                definition,
                definition_location: *definition_location,
            })
        }
        DiagnosticData::RequiredField {
            name,
            coordinate,
            expected_type,
            definition_location,
        } => {
            let (name, expected_type) = copies_of_two(name, expected_type)?;
            let coordinate = copied_attribute(coordinate)?;
            Ok(DiagnosticData::RequiredField {
                name,
                coordinate,
                expected_type,
                definition_location: *definition_location,
            })
        }
        _ => unreachable!(),
    }
}

/// A copy of what is wrong with a part of a document.
pub(crate) fn copied_document(diagnostic: &DiagnosticData) -> Result<DiagnosticData, AllocError>
    requires { IsTrue (is_of_document diagnostic.now) }
    ensures { IfOk result (λ copy. diagnostic_of copy ≡ diagnostic_of diagnostic.now) }
{
    match diagnostic {
        DiagnosticData::VariableInputType {
            name,
            ty,
            describe_type,
        } => {
            let (name, ty) = copies_of_two(name, ty)?;
            Ok(DiagnosticData::VariableInputType {
                name,
                ty,
                describe_type: *describe_type,
            })
        }
        DiagnosticData::MissingSubselection {
            coordinate,
            output_type,
            describe_type,
        } => {
            let output_type = output_type.clone()?;
            let coordinate = copied_attribute(coordinate)?;
            Ok(DiagnosticData::MissingSubselection {
                coordinate,
                output_type,
                describe_type: *describe_type,
            })
        }
        DiagnosticData::InvalidFragmentTarget { name, ty } => {
            let (name, ty) = copies_of_two(name, ty)?;
            Ok(DiagnosticData::InvalidFragmentTarget { name, ty })
        }
        DiagnosticData::InvalidFragmentSpread {
            name,
            type_name,
            type_condition,
            fragment_location,
            type_location,
        } => {
            let (name, type_name, type_condition) = copies_of_three(
                name,
                type_name,
                type_condition,
            )?;
            Ok(DiagnosticData::InvalidFragmentSpread {
                name,
                type_name,
                type_condition,
                fragment_location: *fragment_location,
                type_location: *type_location,
            })
        }
        _ => unreachable!(),
    }
}
