//! The text of what breaks a rule.
ghost use Rattle.std.specs.Prelude.{◌≡◌, Some};
ghost use Rattle.fault_data.specs.DiagnosticView.{diagnostic_of};
ghost use Rattle.fault_data.specs.FilledTemplate.{filled};
ghost use Rattle.fault_data.specs.Messages.{diagnostic_message};

use crate::diagnostic_data::DiagnosticData;
use crate::template::{Gap, Template};
use std::fmt;

impl fmt::Display for DiagnosticData {
    ghost output = { λ d. Some (diagnostic_message (diagnostic_of d)) };

    fn fmt<W: fmt::Write>(&self, f: &mut fmt::Formatter<W>) -> fmt::Result {
        // The variants are matched for their words alone: a `write!` in each arm would cost far more to prove.
        fmt::Display::fmt(&template_of(self), f)
    }
}

/// Its message.
impl fmt::Debug for DiagnosticData {
    fn fmt<W: fmt::Write>(&self, f: &mut fmt::Formatter<W>) -> fmt::Result {
        fmt::Display::fmt(self, f)
    }
}

/// The template of each variant, with what fills its gaps.
fn template_of(diagnostic: &DiagnosticData) -> Template<'_>
    ensures { filled result ≡ diagnostic_message (diagnostic_of diagnostic.now) }
{
    match diagnostic {
        DiagnosticData::QueryRootOperationType => Template::Whole(
            "missing query root operation type in schema definition",
        ),
        DiagnosticData::UndefinedDefinition { name } => Template::One(
            "cannot find type `",
            Gap::Name(name),
            "` in this document",
        ),
        DiagnosticData::RootOperationObjectType { name, .. } => Template::One(
            "`",
            Gap::Name(name),
            "` field must return an object type",
        ),
        DiagnosticData::DuplicateRootOperationType { name, .. } => Template::One(
            "the same type `",
            Gap::Name(name),
            "` must not be used for multiple root operation types",
        ),
        DiagnosticData::ReservedName { name, describe } => Template::Two(
            "",
            Gap::Words(*describe),
            " cannot be named `",
            Gap::Name(name),
            "` as names starting with two underscores are reserved",
        ),
        DiagnosticData::OutputType { name, .. } => Template::One(
            "`",
            Gap::Name(name),
            "` field must return an output type",
        ),
        DiagnosticData::InputType { name, .. } => Template::One(
            "`",
            Gap::Name(name),
            "` field must be of an input type",
        ),
        DiagnosticData::EmptyFieldSet { type_name, .. } => Template::One(
            "`",
            Gap::Name(type_name),
            "` has no fields",
        ),
        DiagnosticData::EmptyValueSet { type_name, .. } => Template::One(
            "`",
            Gap::Name(type_name),
            "` has no enum values",
        ),
        DiagnosticData::EmptyMemberSet { type_name, .. } => Template::One(
            "`",
            Gap::Name(type_name),
            "` has no member types",
        ),
        DiagnosticData::EmptyInputValueSet { type_name, .. } => Template::One(
            "`",
            Gap::Name(type_name),
            "` has no input values",
        ),
        DiagnosticData::UnionMemberObjectType { name, .. } => Template::One(
            "union member `",
            Gap::Name(name),
            "` must be an object type",
        ),
        DiagnosticData::RecursiveInterfaceDefinition { name } => Template::One(
            "interface ",
            Gap::Name(name),
            " cannot implement itself",
        ),
        DiagnosticData::TransitiveImplementedInterfaces {
            interface,
            via_interface,
            missing_interface,
            ..
        } => Template::Three(
            "interface `",
            Gap::Name(interface),
            "` declares that it implements `",
            Gap::Name(via_interface),
            "`, but to do so it must also implement `",
            Gap::Name(missing_interface),
            "`",
        ),
        DiagnosticData::MissingInterfaceField {
            name,
            interface,
            field,
            ..
        } => Template::Three(
            "type `",
            Gap::Name(name),
            "` does not satisfy interface `",
            Gap::Name(interface),
            "`: missing field `",
            Gap::Name(field),
            "`",
        ),
        DiagnosticData::InvalidImplementationFieldType {
            name,
            interface,
            field,
            interface_type,
            actual_type,
            ..
        } => Template::Four(
            "interface field `",
            Gap::FieldOf(interface, field),
            "` expects type `",
            Gap::Type(interface_type),
            "` but `",
            Gap::FieldOf(name, field),
            "` of type `",
            Gap::Type(actual_type),
            "` is not a proper subtype",
        ),
        DiagnosticData::MissingInterfaceFieldArgument {
            name,
            interface,
            field,
            argument,
            ..
        } => Template::Three(
            "interface field `",
            Gap::FieldOf(interface, field),
            "` expects argument `",
            Gap::Name(argument),
            "` but `",
            Gap::FieldOf(name, field),
            "` does not provide it",
        ),
        DiagnosticData::InvalidImplementationFieldArgumentType {
            name,
            interface,
            field,
            argument,
            interface_type,
            actual_type,
            ..
        } => Template::Five(
            "interface field `",
            Gap::FieldOf(interface, field),
            "` expects argument `",
            Gap::Name(argument),
            "` of type `",
            Gap::TypeNode(interface_type),
            "` but `",
            Gap::FieldOf(name, field),
            "` provides type `",
            Gap::TypeNode(actual_type),
            "`",
        ),
        DiagnosticData::ExtraRequiredImplementationFieldArgument {
            name,
            interface,
            field,
            argument,
            ..
        } => Template::Three(
            "`",
            Gap::FieldOf(name, field),
            "` has extra required argument `",
            Gap::Name(argument),
            "` not present in interface `",
            Gap::FieldOf(interface, field),
            "`",
        ),
        DiagnosticData::UniqueInputValue { name, .. } => Template::One(
            "the value `",
            Gap::Name(name),
            "` is defined multiple times",
        ),
        DiagnosticData::RecursiveInputObjectDefinition { name, .. } => Template::One(
            "`",
            Gap::Name(name),
            "` input object cannot reference itself",
        ),
        DiagnosticData::RecursiveDirectiveDefinition { name, .. } => Template::One(
            "`",
            Gap::Name(name),
            "` directive definition cannot reference itself",
        ),
        DiagnosticData::DeeplyNestedType { name, .. } => Template::One(
            "`",
            Gap::Name(name),
            "` contains too much nesting",
        ),
        DiagnosticData::UndefinedDirective { name } => Template::One(
            "cannot find directive `@",
            Gap::Name(name),
            "` in this document",
        ),
        DiagnosticData::UniqueDirective { name, .. } => Template::One(
            "non-repeatable directive ",
            Gap::Name(name),
            " can only be used once per location",
        ),
        DiagnosticData::UnsupportedLocation { name, location, .. } => Template::Two(
            "",
            Gap::Name(name),
            " directive is not supported for ",
            Gap::Location(*location),
            " location",
        ),
        DiagnosticData::UniqueArgument { name, .. } => Template::One(
            "the argument `",
            Gap::Name(name),
            "` is provided multiple times",
        ),
        DiagnosticData::UndefinedArgument {
            name,
            coordinate,
            ..
        } => Template::Two(
            "the argument `",
            Gap::Name(name),
            "` is not supported by `",
            Gap::Coordinate(coordinate),
            "`",
        ),
        DiagnosticData::RequiredArgument { coordinate, .. } => Template::One(
            "the required argument `",
            Gap::Coordinate(coordinate),
            "` is not provided",
        ),
        DiagnosticData::DisallowedVariableUsage {
            variable,
            variable_type,
            argument,
            argument_type,
            ..
        } => Template::Four(
            "variable `$",
            Gap::Name(variable),
            "` of type `",
            Gap::Type(variable_type),
            "` cannot be used for argument `",
            Gap::Name(argument),
            "` of type `",
            Gap::Type(argument_type),
            "`",
        ),
        DiagnosticData::UnsupportedValueType { value, ty, .. } => Template::Two(
            "expected value of type ",
            Gap::TypeNode(ty),
            ", found ",
            Gap::Kind(value),
            "",
        ),
        DiagnosticData::IntCoercionError { .. } => Template::Whole(
            "int cannot represent non 32-bit signed integer value",
        ),
        DiagnosticData::FloatCoercionError { .. } => Template::Whole(
            "float cannot represent non-finite 64-bit floating point value",
        ),
        DiagnosticData::UndefinedVariable { name } => Template::One(
            "variable `$",
            Gap::Name(name),
            "` is not defined",
        ),
        DiagnosticData::UndefinedEnumValue {
            value,
            definition,
            ..
        } => Template::Two(
            "value `",
            Gap::Name(value),
            "` does not exist on `",
            Gap::Name(definition),
            "`",
        ),
        DiagnosticData::UndefinedInputValue {
            value,
            definition,
            ..
        } => Template::Two(
            "field `",
            Gap::Name(value),
            "` does not exist on `",
            Gap::Name(definition),
            "`",
        ),
        DiagnosticData::RequiredField { coordinate, .. } => Template::One(
            "the required field `",
            Gap::Attribute(coordinate),
            "` is not provided",
        ),
        DiagnosticData::UniqueVariable { name, .. } => Template::One(
            "the variable `$",
            Gap::Name(name),
            "` is declared multiple times",
        ),
        DiagnosticData::VariableInputType { name, .. } => Template::One(
            "`$",
            Gap::Name(name),
            "` variable must be of an input type",
        ),
        DiagnosticData::UnusedVariable { name } => Template::One(
            "unused variable: `$",
            Gap::Name(name),
            "`",
        ),
        DiagnosticData::MissingSubselection { .. } => Template::Whole(
            "interface, union and object types must have a subselection set",
        ),
        DiagnosticData::UndefinedFragment { name } => Template::One(
            "cannot find fragment `",
            Gap::Name(name),
            "` in this document",
        ),
        DiagnosticData::InvalidFragmentTarget { name, .. } => Template::One(
            "",
            Gap::Fragment(name),
            " must have a composite type in its type condition",
        ),
        DiagnosticData::InvalidFragmentSpread {
            name,
            type_name,
            type_condition,
            ..
        } => Template::Three(
            "",
            Gap::Fragment(name),
            " with type condition `",
            Gap::Name(type_condition),
            "` cannot be applied to `",
            Gap::Name(type_name),
            "`",
        ),
        DiagnosticData::UnusedFragment { name } => Template::One(
            "fragment `",
            Gap::Name(name),
            "` must be used in an operation",
        ),
        DiagnosticData::RecursiveFragmentDefinition { name, .. } => Template::One(
            "`",
            Gap::Name(name),
            "` fragment cannot reference itself",
        ),
        DiagnosticData::RecursionError => Template::Whole("too much recursion"),
    }
}
