//! What breaks a rule of typing, of merging, of subscriptions or of `@defer`.

use graphql_names::{Name, SourceSpan};
use schema_coordinates::{FieldArgumentCoordinate, TypeAttributeCoordinate};
use tree_literals::{Type, Value};
use tree_operations::OperationType;

/// What breaks a rule of typing documents, of merging, of subscriptions or of `@defer`, with the data that belong to it
/// (section 5). Fields that end in `location` are places, None where there is none.
#[derive(PartialEq, Eq)]
pub enum BuildError {
    /// A definition of the type system in a document (section 5.1.1).
    TypeSystemDefinition,
    /// An operation without a name beside another operation (section 5.2.2.1).
    AmbiguousAnonymousOperation,
    /// A second operation of that name (section 5.2.1.1).
    OperationNameCollision {
        name: Name,
    },
    /// A second fragment of that name (section 5.5.1.1).
    FragmentNameCollision {
        name: Name,
    },
    /// An operation of which the schema has no root (section 3.3.1).
    UndefinedRootOperation {
        operation_type: OperationType,
    },
    /// A fragment on a type that is not there (section 5.5.1.2).
    UndefinedTypeInNamedFragmentTypeCondition {
        type_name: Name,
    },
    /// An inline fragment on a type that is not there (section 5.5.1.2).
    UndefinedTypeInInlineFragmentTypeCondition {
        type_name: Name,
    },
    /// A field that selects from values of a scalar (section 5.3.3).
    SubselectionOnScalarType {
        type_name: Name,
    },
    /// A field that selects from values of an enum (section 5.3.3).
    SubselectionOnEnumType {
        type_name: Name,
    },
    /// A field that its type does not have (section 5.3.1).
    UndefinedField {
        type_name: Name,
        field_name: Name,
    },
    /// Fields of one response key are different ones (section 5.3.2).
    ConflictingFieldName(Box<ConflictingFieldName>),
    /// Fields of one response key have different arguments (section 5.3.2).
    ConflictingFieldArgument(Box<ConflictingFieldArgument>),
    /// Fields of one response key have types of different shapes (section 5.3.2).
    ConflictingFieldType(Box<ConflictingFieldType>),
    /// A subscription selects more than one field at its root (section 5.2.3.1).
    SubscriptionUsesMultipleFields {
        name: Option<Name>,
    },
    /// A subscription selects a meta-field at its root (section 5.2.3.1).
    SubscriptionUsesIntrospection {
        name: Option<Name>,
        field: Name,
    },
    /// A selection at a subscription's root has `@skip` or `@include` (section 5.2.3.1).
    SubscriptionUsesConditionalSelection {
        name: Option<Name>,
    },
    /// The label of a `@defer` is a variable.
    DeferLabelMustNotBeVariable,
    /// The label of a `@defer` is that of an earlier one.
    DuplicateDeferLabel {
        label: String,
        original_location: Option<SourceSpan>,
    },
    /// A `@defer` is at the root of a mutation or subscription.
    DeferOnRootMutationOrSubscriptionField {
        operation_type: OperationType,
    },
    /// A `@defer` in a subscription always takes effect.
    DeferInSubscriptionMustBeConditional,
}

impl Drop for BuildError {
    fn drop(self) {
        match self {
            BuildError::TypeSystemDefinition
            | BuildError::AmbiguousAnonymousOperation
            | BuildError::OperationNameCollision { name: _ }
            | BuildError::FragmentNameCollision { name: _ }
            | BuildError::UndefinedRootOperation { operation_type: _ }
            | BuildError::UndefinedTypeInNamedFragmentTypeCondition { type_name: _ }
            | BuildError::UndefinedTypeInInlineFragmentTypeCondition { type_name: _ }
            | BuildError::SubselectionOnScalarType { type_name: _ }
            | BuildError::SubselectionOnEnumType { type_name: _ }
            | BuildError::UndefinedField {
                type_name: _,
                field_name: _,
            }
            | BuildError::ConflictingFieldName(_)
            | BuildError::ConflictingFieldArgument(_)
            | BuildError::ConflictingFieldType(_)
            | BuildError::SubscriptionUsesMultipleFields { name: _ }
            | BuildError::SubscriptionUsesIntrospection { name: _, field: _ }
            | BuildError::SubscriptionUsesConditionalSelection { name: _ }
            | BuildError::DeferLabelMustNotBeVariable
            | BuildError::DuplicateDeferLabel {
                label: _,
                original_location: _,
            }
            | BuildError::DeferOnRootMutationOrSubscriptionField { operation_type: _ }
            | BuildError::DeferInSubscriptionMustBeConditional => {}
        }
    }
}

/// Two fields of one response key that are different fields.
#[derive(PartialEq, Eq)]
pub struct ConflictingFieldName {
    /// The response key.
    pub alias: Name,
    pub original_location: Option<SourceSpan>,
    pub original_selection: TypeAttributeCoordinate,
    pub conflicting_location: Option<SourceSpan>,
    pub conflicting_selection: TypeAttributeCoordinate,
}

// Not derived: a derived drop is proved again in each crate that drops one.
impl Drop for ConflictingFieldName {
    fn drop(self) {
        let ConflictingFieldName {
            alias: _,
            original_location: _,
            original_selection: _,
            conflicting_location: _,
            conflicting_selection: _,
        } = self;
    }
}

/// Two fields of one response key that give an argument different values, or of which one does not give it.
#[derive(PartialEq, Eq)]
pub struct ConflictingFieldArgument {
    /// The response key.
    pub alias: Name,
    pub original_location: Option<SourceSpan>,
    pub original_coordinate: FieldArgumentCoordinate,
    pub original_value: Option<Value>,
    pub conflicting_location: Option<SourceSpan>,
    pub conflicting_coordinate: FieldArgumentCoordinate,
    pub conflicting_value: Option<Value>,
}

// Not derived: a derived drop is proved again in each crate that drops one.
impl Drop for ConflictingFieldArgument {
    fn drop(self) {
        let ConflictingFieldArgument {
            alias: _,
            original_location: _,
            original_coordinate: _,
            original_value: _,
            conflicting_location: _,
            conflicting_coordinate: _,
            conflicting_value: _,
        } = self;
    }
}

/// Two fields of one response key whose types have different shapes.
#[derive(PartialEq, Eq)]
pub struct ConflictingFieldType {
    /// The response key.
    pub alias: Name,
    pub original_location: Option<SourceSpan>,
    pub original_coordinate: TypeAttributeCoordinate,
    pub original_type: Type,
    pub conflicting_location: Option<SourceSpan>,
    pub conflicting_coordinate: TypeAttributeCoordinate,
    pub conflicting_type: Type,
}

// Not derived: a derived drop is proved again in each crate that drops one.
impl Drop for ConflictingFieldType {
    fn drop(self) {
        let ConflictingFieldType {
            alias: _,
            original_location: _,
            original_coordinate: _,
            original_type: _,
            conflicting_location: _,
            conflicting_coordinate: _,
            conflicting_type: _,
        } = self;
    }
}
