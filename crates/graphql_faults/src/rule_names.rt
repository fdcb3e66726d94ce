//! The names of rules.
ghost use Rattle.std.specs.Prelude.{◌≡◌};
ghost use Rattle.schema_fold.specs.FaultView.{breach_of};
ghost use Rattle.fault_document_errors.specs.DocumentBreachView.{document_breach_of};
ghost use Rattle.fault_data.specs.DiagnosticView.{diagnostic_of};
ghost use Rattle.graphql_faults.specs.DetailsNames.{folding_rule_name, document_rule_name, rule_name};

use fault_data::DiagnosticData;
use fault_document_errors::BuildError as DocumentError;
use schema_fold::BuildError as SchemaError;

/// The name of the rule of folding that is broken.
pub(crate) fn folding_rule_name(error: &SchemaError) -> &'static str
    ensures { result.now ≡ folding_rule_name (breach_of error.now) }
{
    match error {
        SchemaError::ExecutableDefinition => "ExecutableDefinition",
        SchemaError::SchemaDefinitionCollision => "SchemaDefinitionCollision",
        SchemaError::DirectiveDefinitionCollision { .. } => "DirectiveDefinitionCollision",
        SchemaError::TypeDefinitionCollision { .. } => "TypeDefinitionCollision",
        SchemaError::BuiltInScalarTypeRedefinition { .. } => "BuiltInScalarTypeRedefinition",
        SchemaError::OrphanSchemaExtension => "OrphanSchemaExtension",
        SchemaError::OrphanTypeExtension { .. } => "OrphanTypeExtension",
        SchemaError::TypeExtensionKindMismatch { .. } => "TypeExtensionKindMismatch",
        SchemaError::DuplicateRootOperation { .. } => "DuplicateRootOperation",
        SchemaError::DuplicateImplementsInterfaceInObject { .. } =>
            "DuplicateImplementsInterfaceInObject",
        SchemaError::DuplicateImplementsInterfaceInInterface { .. } =>
            "DuplicateImplementsInterfaceInInterface",
        SchemaError::ObjectFieldNameCollision { .. } => "ObjectFieldNameCollision",
        SchemaError::InterfaceFieldNameCollision { .. } => "InterfaceFieldNameCollision",
        SchemaError::EnumValueNameCollision { .. } => "EnumValueNameCollision",
        SchemaError::UnionMemberNameCollision { .. } => "UnionMemberNameCollision",
        SchemaError::InputFieldNameCollision { .. } => "InputFieldNameCollision",
    }
}

/// The name of the rule of typing, of merging, of subscriptions or of `@defer` that is broken.
pub(crate) fn document_rule_name(error: &DocumentError) -> &'static str
    ensures { result.now ≡ document_rule_name (document_breach_of error.now) }
{
    match error {
        DocumentError::TypeSystemDefinition => "TypeSystemDefinition",
        DocumentError::AmbiguousAnonymousOperation => "AmbiguousAnonymousOperation",
        DocumentError::OperationNameCollision { .. } => "OperationNameCollision",
        DocumentError::FragmentNameCollision { .. } => "FragmentNameCollision",
        DocumentError::UndefinedRootOperation { .. } => "UndefinedRootOperation",
        DocumentError::UndefinedTypeInNamedFragmentTypeCondition { .. } =>
            "UndefinedTypeInNamedFragmentTypeCondition",
        DocumentError::UndefinedTypeInInlineFragmentTypeCondition { .. } =>
            "UndefinedTypeInInlineFragmentTypeCondition",
        DocumentError::SubselectionOnScalarType { .. } => "SubselectionOnScalarType",
        DocumentError::SubselectionOnEnumType { .. } => "SubselectionOnEnumType",
        DocumentError::UndefinedField { .. } => "UndefinedField",
        DocumentError::ConflictingFieldName(_) => "ConflictingFieldName",
        DocumentError::ConflictingFieldArgument(_) => "ConflictingFieldArgument",
        DocumentError::ConflictingFieldType(_) => "ConflictingFieldType",
        DocumentError::SubscriptionUsesMultipleFields { .. } => "SubscriptionUsesMultipleFields",
        DocumentError::SubscriptionUsesIntrospection { .. } => "SubscriptionUsesIntrospection",
        DocumentError::SubscriptionUsesConditionalSelection { .. } =>
            "SubscriptionUsesConditionalSelection",
        DocumentError::DeferLabelMustNotBeVariable => "DeferLabelMustNotBeVariable",
        DocumentError::DuplicateDeferLabel { .. } => "DuplicateDeferLabel",
        DocumentError::DeferOnRootMutationOrSubscriptionField { .. } =>
            "DeferOnRootMutationOrSubscriptionField",
        DocumentError::DeferInSubscriptionMustBeConditional =>
            "DeferInSubscriptionMustBeConditional",
    }
}

/// The name of the rule of schemas, of uses, of values or of documents that is broken.
pub(crate) fn rule_name(diagnostic: &DiagnosticData) -> &'static str
    ensures { result.now ≡ rule_name (diagnostic_of diagnostic.now) }
{
    match diagnostic {
        DiagnosticData::QueryRootOperationType => "QueryRootOperationType",
        DiagnosticData::UndefinedDefinition { .. } => "UndefinedDefinition",
        DiagnosticData::RootOperationObjectType { .. } => "RootOperationObjectType",
        DiagnosticData::DuplicateRootOperationType { .. } => "DuplicateRootOperationType",
        DiagnosticData::ReservedName { .. } => "ReservedName",
        DiagnosticData::OutputType { .. } => "OutputType",
        DiagnosticData::InputType { .. } => "InputType",
        DiagnosticData::EmptyFieldSet { .. } => "EmptyFieldSet",
        DiagnosticData::EmptyValueSet { .. } => "EmptyValueSet",
        DiagnosticData::EmptyMemberSet { .. } => "EmptyMemberSet",
        DiagnosticData::EmptyInputValueSet { .. } => "EmptyInputValueSet",
        DiagnosticData::UnionMemberObjectType { .. } => "UnionMemberObjectType",
        DiagnosticData::RecursiveInterfaceDefinition { .. } => "RecursiveInterfaceDefinition",
        DiagnosticData::TransitiveImplementedInterfaces { .. } => "TransitiveImplementedInterfaces",
        DiagnosticData::MissingInterfaceField { .. } => "MissingInterfaceField",
        DiagnosticData::InvalidImplementationFieldType { .. } => "InvalidImplementationFieldType",
        DiagnosticData::MissingInterfaceFieldArgument { .. } => "MissingInterfaceFieldArgument",
        DiagnosticData::InvalidImplementationFieldArgumentType { .. } =>
            "InvalidImplementationFieldArgumentType",
        DiagnosticData::ExtraRequiredImplementationFieldArgument { .. } =>
            "ExtraRequiredImplementationFieldArgument",
        DiagnosticData::UniqueInputValue { .. } => "UniqueInputValue",
        DiagnosticData::RecursiveInputObjectDefinition { .. } => "RecursiveInputObjectDefinition",
        DiagnosticData::RecursiveDirectiveDefinition { .. } => "RecursiveDirectiveDefinition",
        DiagnosticData::DeeplyNestedType { .. } => "DeeplyNestedType",
        DiagnosticData::UndefinedDirective { .. } => "UndefinedDirective",
        DiagnosticData::UniqueDirective { .. } => "UniqueDirective",
        DiagnosticData::UnsupportedLocation { .. } => "UnsupportedLocation",
        DiagnosticData::UniqueArgument { .. } => "UniqueArgument",
        DiagnosticData::UndefinedArgument { .. } => "UndefinedArgument",
        DiagnosticData::RequiredArgument { .. } => "RequiredArgument",
        DiagnosticData::DisallowedVariableUsage { .. } => "DisallowedVariableUsage",
        DiagnosticData::UnsupportedValueType { .. } => "UnsupportedValueType",
        DiagnosticData::IntCoercionError { .. } => "IntCoercionError",
        DiagnosticData::FloatCoercionError { .. } => "FloatCoercionError",
        DiagnosticData::UndefinedVariable { .. } => "UndefinedVariable",
        DiagnosticData::UndefinedEnumValue { .. } => "UndefinedEnumValue",
        DiagnosticData::UndefinedInputValue { .. } => "UndefinedInputValue",
        DiagnosticData::RequiredField { .. } => "RequiredField",
        DiagnosticData::UniqueVariable { .. } => "UniqueVariable",
        DiagnosticData::VariableInputType { .. } => "VariableInputType",
        DiagnosticData::UnusedVariable { .. } => "UnusedVariable",
        DiagnosticData::MissingSubselection { .. } => "MissingSubselection",
        DiagnosticData::UndefinedFragment { .. } => "UndefinedFragment",
        DiagnosticData::InvalidFragmentTarget { .. } => "InvalidFragmentTarget",
        DiagnosticData::InvalidFragmentSpread { .. } => "InvalidFragmentSpread",
        DiagnosticData::UnusedFragment { .. } => "UnusedFragment",
        DiagnosticData::RecursiveFragmentDefinition { .. } => "RecursiveFragmentDefinition",
        DiagnosticData::RecursionError => "RecursionError",
    }
}
