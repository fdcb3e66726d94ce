//! Copies of what breaks rules. Names and nodes are shared, and not copied.
ghost use Rattle.std.specs.Prelude.{◌≡◌, IfOk, Some};
ghost use Rattle.fault_data.specs.CopyGroups.{one_name};
ghost use Rattle.fault_data.specs.DiagnosticView.{diagnostic_of};

use crate::diagnostic_data::DiagnosticData;
use crate::schema_copies::{copied_cycle, copied_implementation, with_set};
use crate::use_copies::{copied_document, copied_use, copied_value};
use graphql_names::Name;
use std::alloc::AllocError;
use tree_literals::copies_of_two;

impl DiagnosticData {
    /// The same data again: names and nodes are shared, lists, strings and the boxes of types are copied.
    pub fn clone(&self) -> Result<DiagnosticData, AllocError>
        ensures { IfOk result (λ copy. diagnostic_of copy ≡ diagnostic_of self.now) }
    {
        match self {
            DiagnosticData::QueryRootOperationType => Ok(DiagnosticData::QueryRootOperationType),
            DiagnosticData::RecursionError => Ok(DiagnosticData::RecursionError),
            DiagnosticData::UndefinedDefinition { name }
            | DiagnosticData::RootOperationObjectType { name, .. }
            | DiagnosticData::DuplicateRootOperationType { name, .. }
            | DiagnosticData::ReservedName { name, .. }
            | DiagnosticData::OutputType { name, .. }
            | DiagnosticData::InputType { name, .. }
            | DiagnosticData::UnionMemberObjectType { name, .. }
            | DiagnosticData::RecursiveInterfaceDefinition { name }
            | DiagnosticData::UniqueInputValue { name, .. }
            | DiagnosticData::DeeplyNestedType { name, .. }
            | DiagnosticData::UndefinedDirective { name }
            | DiagnosticData::UniqueDirective { name, .. }
            | DiagnosticData::UniqueArgument { name, .. }
            | DiagnosticData::UndefinedVariable { name }
            | DiagnosticData::UniqueVariable { name, .. }
            | DiagnosticData::UnusedVariable { name }
            | DiagnosticData::UndefinedFragment { name }
            | DiagnosticData::UnusedFragment { name } => Ok(with_name(self, name.clone()?)),
            DiagnosticData::EmptyFieldSet {
                type_name,
                extensions_locations,
                ..
            }
            | DiagnosticData::EmptyValueSet {
                type_name,
                extensions_locations,
                ..
            }
            | DiagnosticData::EmptyMemberSet {
                type_name,
                extensions_locations,
                ..
            }
            | DiagnosticData::EmptyInputValueSet {
                type_name,
                extensions_locations,
                ..
            } => {
                let (type_name, places) = copies_of_two(type_name, extensions_locations)?;
                Ok(with_set(self, type_name, places))
            }
            DiagnosticData::TransitiveImplementedInterfaces { .. }
            | DiagnosticData::MissingInterfaceField { .. }
            | DiagnosticData::InvalidImplementationFieldType { .. }
            | DiagnosticData::MissingInterfaceFieldArgument { .. }
            | DiagnosticData::InvalidImplementationFieldArgumentType { .. }
            | DiagnosticData::ExtraRequiredImplementationFieldArgument { .. } =>
                copied_implementation(self),
            DiagnosticData::RecursiveInputObjectDefinition { .. }
            | DiagnosticData::RecursiveDirectiveDefinition { .. }
            | DiagnosticData::RecursiveFragmentDefinition { .. } => copied_cycle(self),
            DiagnosticData::UnsupportedLocation { .. }
            | DiagnosticData::UndefinedArgument { .. }
            | DiagnosticData::RequiredArgument { .. }
            | DiagnosticData::DisallowedVariableUsage { .. } => copied_use(self),
            DiagnosticData::UnsupportedValueType { .. }
            | DiagnosticData::IntCoercionError { .. }
            | DiagnosticData::FloatCoercionError { .. }
            | DiagnosticData::UndefinedEnumValue { .. }
            | DiagnosticData::UndefinedInputValue { .. }
            | DiagnosticData::RequiredField { .. } => copied_value(self),
            DiagnosticData::VariableInputType { .. }
            | DiagnosticData::MissingSubselection { .. }
            | DiagnosticData::InvalidFragmentTarget { .. }
            | DiagnosticData::InvalidFragmentSpread { .. } => copied_document(self),
        }
    }
}

/// The same data with a copy of its name, which is all that it owns.
fn with_name(diagnostic: &DiagnosticData, name: Name) -> DiagnosticData
    requires { one_name diagnostic.now ≡ Some name }
    ensures { diagnostic_of result ≡ diagnostic_of diagnostic.now }
{
    match diagnostic {
        DiagnosticData::UndefinedDefinition { .. } => DiagnosticData::UndefinedDefinition { name },
        DiagnosticData::RootOperationObjectType { describe_type, .. } =>
            DiagnosticData::RootOperationObjectType {
                name,
                describe_type: *describe_type,
            },
        DiagnosticData::DuplicateRootOperationType {
            original_operation,
            original_definition,
            redefined_operation,
            redefined_definition,
            ..
        } => DiagnosticData::DuplicateRootOperationType {
            name,
            original_operation: *original_operation,
            original_definition: *original_definition,
            redefined_operation: *redefined_operation,
            redefined_definition: *redefined_definition,
        },
        DiagnosticData::ReservedName { describe, .. } => DiagnosticData::ReservedName {
            name,
            describe: *describe,
        },
        DiagnosticData::OutputType {
            describe_type,
            type_location,
            ..
        } => DiagnosticData::OutputType {
            name,
            describe_type: *describe_type,
            type_location: *type_location,
        },
        DiagnosticData::InputType {
            describe_type,
            type_location,
            ..
        } => DiagnosticData::InputType {
            name,
            describe_type: *describe_type,
            type_location: *type_location,
        },
        DiagnosticData::UnionMemberObjectType { describe_type, .. } =>
            DiagnosticData::UnionMemberObjectType {
                name,
                describe_type: *describe_type,
            },
        DiagnosticData::RecursiveInterfaceDefinition { .. } =>
            DiagnosticData::RecursiveInterfaceDefinition { name },
        DiagnosticData::UniqueInputValue {
            original_definition,
            redefined_definition,
            ..
        } => DiagnosticData::UniqueInputValue {
            name,
            original_definition: *original_definition,
            redefined_definition: *redefined_definition,
        },
        DiagnosticData::DeeplyNestedType { describe_type, .. } => DiagnosticData::DeeplyNestedType {
            name,
            describe_type: *describe_type,
        },
        DiagnosticData::UndefinedDirective { .. } => DiagnosticData::UndefinedDirective { name },
        DiagnosticData::UniqueDirective {
            original_application,
            ..
        } => DiagnosticData::UniqueDirective {
            name,
            original_application: *original_application,
        },
        DiagnosticData::UniqueArgument {
            original_definition,
            redefined_definition,
            ..
        } => DiagnosticData::UniqueArgument {
            name,
            original_definition: *original_definition,
            redefined_definition: *redefined_definition,
        },
        DiagnosticData::UndefinedVariable { .. } => DiagnosticData::UndefinedVariable { name },
        DiagnosticData::UniqueVariable {
            original_definition,
            redefined_definition,
            ..
        } => DiagnosticData::UniqueVariable {
            name,
            original_definition: *original_definition,
            redefined_definition: *redefined_definition,
        },
        DiagnosticData::UnusedVariable { .. } => DiagnosticData::UnusedVariable { name },
        DiagnosticData::UndefinedFragment { .. } => DiagnosticData::UndefinedFragment { name },
        DiagnosticData::UnusedFragment { .. } => DiagnosticData::UnusedFragment { name },
        _ => unreachable!(),
    }
}
