//! The names and types that a fault has, under the names of its variant's fields; and what a warning has.

use fault_data::DiagnosticData;
use fault_document_errors::BuildError;
use graphql_faults::Details;
use graphql_names::Name;
use report_forms::Field;
use rule_warnings::DeprecatedUse;
use schema_fold::BuildError as FoldingError;
use std::alloc::{AllocError, Global};
use std::fmt::Display;
use strict_documents::Departure;

/// Each name and each type of the fault's data, in their order.
pub(crate) fn fields_of(alloc: Global, details: &Details) -> Result<Vec<Field>, AllocError> {
    let mut fields = Fields::new(alloc);
    match details {
        Details::Data(data) => put_of_data(&mut fields, data),
        Details::DocumentBuild(error) => put_of_document(&mut fields, error),
        Details::SchemaBuild(error) => put_of_folding(&mut fields, error),
        _ => {}
    }
    fields.finish()
}

/// The coordinate and the reason of a use of what is deprecated.
pub(crate) fn fields_of_use(alloc: Global, one: &DeprecatedUse) -> Result<Vec<Field>, AllocError> {
    let mut fields = Fields::new(alloc);
    fields.put("coordinate", &one.coordinate);
    fields.put("reason", &one.reason());
    fields.finish()
}

/// The name that a departure mentions, if it mentions one.
pub(crate) fn fields_of_departure(
    alloc: Global,
    one: &Departure,
) -> Result<Vec<Field>, AllocError> {
    let mut fields = Fields::new(alloc);
    fields.put_if_any(&one.name);
    fields.finish()
}

/// A list of fields, and whether memory sufficed for each.
#[derive(Drop)]
struct Fields {
    alloc: Global,
    list: Vec<Field>,
    is_whole: bool,
}

impl Fields {
    /// Nothing is added yet.
    fn new(alloc: Global) -> Fields {
        Fields {
            alloc,
            list: Vec::new(alloc),
            is_whole: true,
        }
    }

    /// The list, if it is whole.
    fn finish(self) -> Result<Vec<Field>, AllocError> {
        let Fields { list, is_whole, .. } = self;
        if is_whole { Ok(list) } else { Err(AllocError) }
    }

    /// Adds a field.
    fn put<T: Display>(&mut self, name: &'static str, value: &T) {
        let added = match value.to_string(self.alloc) {
            Ok(value) => self.list.push(Field { name, value }).is_ok(),
            Err(_) => false,
        };
        self.is_whole = self.is_whole && added;
    }

    /// Adds a name, if there is one.
    fn put_if_any(&mut self, name: &Option<Name>) {
        if let Some(name) = name {
            self.put("name", name);
        }
    }
}

/// Adds the names of a field that an interface asks for.
fn put_asked(fields: &mut Fields, name: &Name, interface: &Name, field: &Name) {
    fields.put("name", name);
    fields.put("interface", interface);
    fields.put("field", field);
}

/// Adds the fields of a fault of folding.
fn put_of_folding(fields: &mut Fields, error: &FoldingError) {
    match error {
        FoldingError::DirectiveDefinitionCollision { name }
        | FoldingError::TypeDefinitionCollision { name }
        | FoldingError::BuiltInScalarTypeRedefinition { name }
        | FoldingError::OrphanTypeExtension { name }
        | FoldingError::TypeExtensionKindMismatch { name } => fields.put("name", name),
        FoldingError::DuplicateImplementsInterfaceInObject { type_name, name }
        | FoldingError::DuplicateImplementsInterfaceInInterface { type_name, name }
        | FoldingError::ObjectFieldNameCollision { type_name, name }
        | FoldingError::InterfaceFieldNameCollision { type_name, name }
        | FoldingError::EnumValueNameCollision { type_name, name }
        | FoldingError::UnionMemberNameCollision { type_name, name }
        | FoldingError::InputFieldNameCollision { type_name, name } => {
            fields.put("type_name", type_name);
            fields.put("name", name);
        }
        _ => {}
    }
}

/// Adds the fields of a fault of typing, merging, subscriptions or `@defer`.
fn put_of_document(fields: &mut Fields, error: &BuildError) {
    match error {
        BuildError::OperationNameCollision { name } | BuildError::FragmentNameCollision { name } =>
            fields.put("name", name),
        BuildError::UndefinedTypeInNamedFragmentTypeCondition { type_name }
        | BuildError::UndefinedTypeInInlineFragmentTypeCondition { type_name }
        | BuildError::SubselectionOnScalarType { type_name }
        | BuildError::SubselectionOnEnumType { type_name } => fields.put("type_name", type_name),
        BuildError::UndefinedField {
            type_name,
            field_name,
        } => {
            fields.put("type_name", type_name);
            fields.put("field_name", field_name);
        }
        BuildError::ConflictingFieldName(conflict) => fields.put("alias", &conflict.alias),
        BuildError::ConflictingFieldArgument(conflict) => fields.put("alias", &conflict.alias),
        BuildError::ConflictingFieldType(conflict) => {
            fields.put("alias", &conflict.alias);
            fields.put("original_type", &conflict.original_type);
            fields.put("conflicting_type", &conflict.conflicting_type);
        }
        BuildError::SubscriptionUsesMultipleFields { name }
        | BuildError::SubscriptionUsesConditionalSelection { name } => fields.put_if_any(name),
        BuildError::SubscriptionUsesIntrospection { name, field } => {
            fields.put_if_any(name);
            fields.put("field", field);
        }
        _ => {}
    }
}

/// Adds the fields of a fault of schemas, uses, values or documents.
fn put_of_data(fields: &mut Fields, data: &DiagnosticData) {
    match data {
        DiagnosticData::UndefinedDefinition { name }
        | DiagnosticData::RootOperationObjectType { name, .. }
        | DiagnosticData::DuplicateRootOperationType { name, .. }
        | DiagnosticData::ReservedName { name, .. }
        | DiagnosticData::OutputType { name, .. }
        | DiagnosticData::InputType { name, .. }
        | DiagnosticData::UnionMemberObjectType { name, .. }
        | DiagnosticData::RecursiveInterfaceDefinition { name }
        | DiagnosticData::UniqueInputValue { name, .. }
        | DiagnosticData::RecursiveInputObjectDefinition { name, .. }
        | DiagnosticData::RecursiveDirectiveDefinition { name, .. }
        | DiagnosticData::DeeplyNestedType { name, .. }
        | DiagnosticData::UndefinedDirective { name }
        | DiagnosticData::UniqueDirective { name, .. }
        | DiagnosticData::UnsupportedLocation { name, .. }
        | DiagnosticData::UniqueArgument { name, .. }
        | DiagnosticData::UndefinedArgument { name, .. }
        | DiagnosticData::UndefinedVariable { name }
        | DiagnosticData::UniqueVariable { name, .. }
        | DiagnosticData::UnusedVariable { name }
        | DiagnosticData::UndefinedFragment { name }
        | DiagnosticData::UnusedFragment { name }
        | DiagnosticData::RecursiveFragmentDefinition { name, .. } => fields.put("name", name),
        DiagnosticData::EmptyFieldSet { type_name, .. }
        | DiagnosticData::EmptyValueSet { type_name, .. }
        | DiagnosticData::EmptyMemberSet { type_name, .. }
        | DiagnosticData::EmptyInputValueSet { type_name, .. } => fields.put(
            "type_name",
            type_name,
        ),
        DiagnosticData::TransitiveImplementedInterfaces { .. }
        | DiagnosticData::MissingInterfaceField { .. }
        | DiagnosticData::InvalidImplementationFieldType { .. }
        | DiagnosticData::MissingInterfaceFieldArgument { .. }
        | DiagnosticData::InvalidImplementationFieldArgumentType { .. }
        | DiagnosticData::ExtraRequiredImplementationFieldArgument { .. } => put_of_interfaces(
            fields, data,
        ),
        _ => put_of_uses(fields, data),
    }
}

/// Adds the fields of a fault of what a type implements.
fn put_of_interfaces(fields: &mut Fields, data: &DiagnosticData) {
    match data {
        DiagnosticData::TransitiveImplementedInterfaces {
            interface,
            via_interface,
            missing_interface,
            ..
        } => {
            fields.put("interface", interface);
            fields.put("via_interface", via_interface);
            fields.put("missing_interface", missing_interface);
        }
        DiagnosticData::MissingInterfaceField {
            name,
            interface,
            field,
            ..
        } => put_asked(fields, name, interface, field),
        DiagnosticData::InvalidImplementationFieldType {
            name,
            interface,
            field,
            interface_type,
            actual_type,
            ..
        } => {
            put_asked(fields, name, interface, field);
            fields.put("interface_type", interface_type);
            fields.put("actual_type", actual_type);
        }
        DiagnosticData::MissingInterfaceFieldArgument {
            name,
            interface,
            field,
            argument,
            ..
        }
        | DiagnosticData::ExtraRequiredImplementationFieldArgument {
            name,
            interface,
            field,
            argument,
            ..
        } => {
            put_asked(fields, name, interface, field);
            fields.put("argument", argument);
        }
        DiagnosticData::InvalidImplementationFieldArgumentType {
            name,
            interface,
            field,
            argument,
            interface_type,
            actual_type,
            ..
        } => {
            put_asked(fields, name, interface, field);
            fields.put("argument", argument);
            fields.put("interface_type", interface_type);
            fields.put("actual_type", actual_type);
        }
        _ => {}
    }
}

/// Adds the fields of a fault of uses, values or documents that has a type, or more names than one.
fn put_of_uses(fields: &mut Fields, data: &DiagnosticData) {
    match data {
        DiagnosticData::RequiredArgument {
            name,
            expected_type,
            ..
        }
        | DiagnosticData::RequiredField {
            name,
            expected_type,
            ..
        } => {
            fields.put("name", name);
            fields.put("expected_type", expected_type);
        }
        DiagnosticData::DisallowedVariableUsage {
            variable,
            variable_type,
            argument,
            argument_type,
            ..
        } => {
            fields.put("variable", variable);
            fields.put("variable_type", variable_type);
            fields.put("argument", argument);
            fields.put("argument_type", argument_type);
        }
        DiagnosticData::UnsupportedValueType { ty, .. } => fields.put("ty", ty),
        DiagnosticData::UndefinedEnumValue {
            value,
            definition,
            ..
        }
        | DiagnosticData::UndefinedInputValue {
            value,
            definition,
            ..
        } => {
            fields.put("value", value);
            fields.put("definition", definition);
        }
        DiagnosticData::VariableInputType { name, ty, .. } => {
            fields.put("name", name);
            fields.put("ty", ty);
        }
        DiagnosticData::MissingSubselection { output_type, .. } => fields.put(
            "output_type",
            output_type,
        ),
        DiagnosticData::InvalidFragmentTarget { name, ty } => {
            fields.put_if_any(name);
            fields.put("ty", ty);
        }
        DiagnosticData::InvalidFragmentSpread {
            name,
            type_name,
            type_condition,
            ..
        } => {
            fields.put_if_any(name);
            fields.put("type_name", type_name);
            fields.put("type_condition", type_condition);
        }
        _ => {}
    }
}
