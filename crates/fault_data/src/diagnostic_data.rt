//! What breaks a rule, with the data that its message tells and the places that belong to it.

use document_typed_selections::FragmentSpread;
use graphql_names::{Name, Node, SourceSpan};
use schema_coordinates::{SchemaCoordinate, TypeAttributeCoordinate};
use tree_directives::{Directive, DirectiveLocation, InputValueDefinition};
use tree_literals::{Type, Value};
use tree_operations::OperationType;

/// What breaks a rule of schemas, of uses of directives and arguments, of values, or of documents (sections 3 and 5).
///
/// Fields that end in `location`, `definition` or `application` are places, None where there is none. Of the fields, the
/// first name or text alone is hashed.
// The hash takes at most one field of a variant: the proof for all fields took three times as long.
#[derive(PartialEq, Eq)]
#[derive_where(Hash)]
pub enum DiagnosticData {
    // ---- schemas
    /// The schema has no root for queries (section 3.3.1).
    QueryRootOperationType,
    /// A type that is referred to is not there, or an implemented name is no interface.
    UndefinedDefinition {
        name: Name,
    },
    /// A root is no object type (section 3.3.1).
    RootOperationObjectType {
        name: Name,
        #[derive_where(skip(Hash))]
        describe_type: &'static str,
    },
    /// Two roots are one type (section 3.3.1).
    DuplicateRootOperationType {
        name: Name,
        #[derive_where(skip(Hash))]
        original_operation: OperationType,
        #[derive_where(skip(Hash))]
        original_definition: Option<SourceSpan>,
        #[derive_where(skip(Hash))]
        redefined_operation: OperationType,
        #[derive_where(skip(Hash))]
        redefined_definition: Option<SourceSpan>,
    },
    /// A name begins with `__` (section 2.1.9).
    ReservedName {
        name: Name,
        #[derive_where(skip(Hash))]
        describe: &'static str,
    },
    /// A field's type is no output type (section 3.6).
    OutputType {
        name: Name,
        #[derive_where(skip(Hash))]
        describe_type: &'static str,
        #[derive_where(skip(Hash))]
        type_location: Option<SourceSpan>,
    },
    /// The type of an argument or input field is no input type (sections 3.6.1 and 3.10).
    InputType {
        name: Name,
        #[derive_where(skip(Hash))]
        describe_type: &'static str,
        #[derive_where(skip(Hash))]
        type_location: Option<SourceSpan>,
    },
    /// An object or interface without fields (sections 3.6 and 3.7).
    EmptyFieldSet {
        type_name: Name,
        #[derive_where(skip(Hash))]
        type_location: Option<SourceSpan>,
        #[derive_where(skip(Hash))]
        extensions_locations: Vec<Option<SourceSpan>>,
    },
    /// An enum without values (section 3.9).
    EmptyValueSet {
        type_name: Name,
        #[derive_where(skip(Hash))]
        type_location: Option<SourceSpan>,
        #[derive_where(skip(Hash))]
        extensions_locations: Vec<Option<SourceSpan>>,
    },
    /// A union without members (section 3.8).
    EmptyMemberSet {
        type_name: Name,
        #[derive_where(skip(Hash))]
        type_location: Option<SourceSpan>,
        #[derive_where(skip(Hash))]
        extensions_locations: Vec<Option<SourceSpan>>,
    },
    /// An input object without fields (section 3.10).
    EmptyInputValueSet {
        type_name: Name,
        #[derive_where(skip(Hash))]
        type_location: Option<SourceSpan>,
        #[derive_where(skip(Hash))]
        extensions_locations: Vec<Option<SourceSpan>>,
    },
    /// A member of a union is no object type (section 3.8).
    UnionMemberObjectType {
        name: Name,
        #[derive_where(skip(Hash))]
        describe_type: &'static str,
    },
    /// An interface implements itself (section 3.7).
    RecursiveInterfaceDefinition {
        name: Name,
    },
    /// A type does not implement an interface that one of its interfaces implements (sections 3.6 and 3.7).
    TransitiveImplementedInterfaces {
        interface: Name,
        #[derive_where(skip(Hash))]
        via_interface: Name,
        #[derive_where(skip(Hash))]
        transitive_interface_location: Option<SourceSpan>,
        #[derive_where(skip(Hash))]
        missing_interface: Name,
    },
    /// A type lacks a field of its interface (sections 3.6 and 3.7).
    MissingInterfaceField {
        name: Name,
        #[derive_where(skip(Hash))]
        implements_location: Option<SourceSpan>,
        #[derive_where(skip(Hash))]
        interface: Name,
        #[derive_where(skip(Hash))]
        field: Name,
        #[derive_where(skip(Hash))]
        field_location: Option<SourceSpan>,
    },
    /// A field's type does not fit its interface's (sections 3.6 and 3.7).
    InvalidImplementationFieldType {
        name: Name,
        #[derive_where(skip(Hash))]
        interface: Name,
        #[derive_where(skip(Hash))]
        field: Name,
        #[derive_where(skip(Hash))]
        interface_type: Type,
        #[derive_where(skip(Hash))]
        actual_type: Type,
        #[derive_where(skip(Hash))]
        field_location: Option<SourceSpan>,
        #[derive_where(skip(Hash))]
        interface_field_location: Option<SourceSpan>,
    },
    /// A field lacks an argument of its interface's field (sections 3.6 and 3.7).
    MissingInterfaceFieldArgument {
        name: Name,
        #[derive_where(skip(Hash))]
        interface: Name,
        #[derive_where(skip(Hash))]
        field: Name,
        #[derive_where(skip(Hash))]
        argument: Name,
        #[derive_where(skip(Hash))]
        field_location: Option<SourceSpan>,
        #[derive_where(skip(Hash))]
        interface_argument_location: Option<SourceSpan>,
    },
    /// An argument has another type than that of the interface's field (sections 3.6 and 3.7).
    InvalidImplementationFieldArgumentType {
        name: Name,
        #[derive_where(skip(Hash))]
        interface: Name,
        #[derive_where(skip(Hash))]
        field: Name,
        #[derive_where(skip(Hash))]
        argument: Name,
        #[derive_where(skip(Hash))]
        interface_type: Node<Type>,
        #[derive_where(skip(Hash))]
        actual_type: Node<Type>,
        #[derive_where(skip(Hash))]
        argument_location: Option<SourceSpan>,
        #[derive_where(skip(Hash))]
        interface_argument_location: Option<SourceSpan>,
    },
    /// A field has a required argument that its interface's field lacks (sections 3.6 and 3.7).
    ExtraRequiredImplementationFieldArgument {
        name: Name,
        #[derive_where(skip(Hash))]
        interface: Name,
        #[derive_where(skip(Hash))]
        field: Name,
        #[derive_where(skip(Hash))]
        argument: Name,
        #[derive_where(skip(Hash))]
        argument_location: Option<SourceSpan>,
        #[derive_where(skip(Hash))]
        interface_field_location: Option<SourceSpan>,
    },
    /// Two argument definitions, or two keys of an object literal, have one name (sections 3.6.1 and 5.6.3).
    UniqueInputValue {
        name: Name,
        #[derive_where(skip(Hash))]
        original_definition: Option<SourceSpan>,
        #[derive_where(skip(Hash))]
        redefined_definition: Option<SourceSpan>,
    },
    /// Required fields lead from an input object back to it (section 3.10).
    RecursiveInputObjectDefinition {
        name: Name,
        #[derive_where(skip(Hash))]
        trace: Vec<Node<InputValueDefinition>>,
    },
    /// A directive is used on the way that its own definition refers to (section 3.13).
    RecursiveDirectiveDefinition {
        name: Name,
        #[derive_where(skip(Hash))]
        trace: Vec<Node<Directive>>,
    },
    /// References or fragments are nested too deeply.
    DeeplyNestedType {
        name: Name,
        #[derive_where(skip(Hash))]
        describe_type: &'static str,
    },

    // ---- uses of directives and arguments
    /// A directive is not defined (section 5.7.1).
    UndefinedDirective {
        name: Name,
    },
    /// A directive that is not repeatable is used twice at one place (section 5.7.3).
    UniqueDirective {
        name: Name,
        #[derive_where(skip(Hash))]
        original_application: Option<SourceSpan>,
    },
    /// A directive is used where it must not be (section 5.7.2).
    UnsupportedLocation {
        name: Name,
        #[derive_where(skip(Hash))]
        location: DirectiveLocation,
        #[derive_where(skip(Hash))]
        valid_locations: Vec<DirectiveLocation>,
        #[derive_where(skip(Hash))]
        definition_location: Option<SourceSpan>,
    },
    /// An argument is given twice (section 5.4.2).
    UniqueArgument {
        name: Name,
        #[derive_where(skip(Hash))]
        original_definition: Option<SourceSpan>,
        #[derive_where(skip(Hash))]
        redefined_definition: Option<SourceSpan>,
    },
    /// An argument is not defined (section 5.4.1).
    UndefinedArgument {
        name: Name,
        #[derive_where(skip(Hash))]
        coordinate: SchemaCoordinate,
        #[derive_where(skip(Hash))]
        definition_location: Option<SourceSpan>,
    },
    /// A required argument is not given (section 5.4.2.1).
    RequiredArgument {
        name: Name,
        #[derive_where(skip(Hash))]
        coordinate: SchemaCoordinate,
        #[derive_where(skip(Hash))]
        expected_type: Node<Type>,
        #[derive_where(skip(Hash))]
        definition_location: Option<SourceSpan>,
    },
    /// A variable's type does not fit the argument (section 5.8.5).
    DisallowedVariableUsage {
        variable: Name,
        #[derive_where(skip(Hash))]
        variable_type: Type,
        #[derive_where(skip(Hash))]
        variable_location: Option<SourceSpan>,
        #[derive_where(skip(Hash))]
        argument: Name,
        #[derive_where(skip(Hash))]
        argument_type: Type,
        #[derive_where(skip(Hash))]
        argument_location: Option<SourceSpan>,
    },

    // ---- values
    /// A value does not fit a type (section 5.6.1).
    UnsupportedValueType {
        #[derive_where(skip(Hash))]
        value: Node<Value>,
        #[derive_where(skip(Hash))]
        ty: Node<Type>,
        #[derive_where(skip(Hash))]
        definition_location: Option<SourceSpan>,
    },
    /// An integer does not fit 32 bits (section 3.5.1).
    IntCoercionError {
        value: String,
    },
    /// A number is no finite 64-bit float (section 3.5.2). Never made.
    FloatCoercionError {
        value: String,
    },
    /// A variable is not defined (section 5.8.3).
    UndefinedVariable {
        name: Name,
    },
    /// An enum has no such value (section 3.9).
    UndefinedEnumValue {
        value: Name,
        #[derive_where(skip(Hash))]
        definition: Name,
        #[derive_where(skip(Hash))]
        definition_location: Option<SourceSpan>,
    },
    /// An input object has no such field (section 5.6.2).
    UndefinedInputValue {
        value: Name,
        #[derive_where(skip(Hash))]
        definition: Name,
        #[derive_where(skip(Hash))]
        definition_location: Option<SourceSpan>,
    },
    /// A required field of an input object is not given (section 5.6.4).
    RequiredField {
        name: Name,
        #[derive_where(skip(Hash))]
        coordinate: TypeAttributeCoordinate,
        #[derive_where(skip(Hash))]
        expected_type: Node<Type>,
        #[derive_where(skip(Hash))]
        definition_location: Option<SourceSpan>,
    },

    // ---- documents
    /// Two variables of an operation have one name (section 5.8.1).
    UniqueVariable {
        name: Name,
        #[derive_where(skip(Hash))]
        original_definition: Option<SourceSpan>,
        #[derive_where(skip(Hash))]
        redefined_definition: Option<SourceSpan>,
    },
    /// A variable's type is no input type (section 5.8.2).
    VariableInputType {
        name: Name,
        #[derive_where(skip(Hash))]
        ty: Node<Type>,
        #[derive_where(skip(Hash))]
        describe_type: &'static str,
    },
    /// A variable is not used (section 5.8.4).
    UnusedVariable {
        name: Name,
    },
    /// A field of composite type without selections (section 5.3.3).
    MissingSubselection {
        #[derive_where(skip(Hash))]
        coordinate: TypeAttributeCoordinate,
        output_type: Name,
        #[derive_where(skip(Hash))]
        describe_type: &'static str,
    },
    /// A fragment is not defined (section 5.5.2.1).
    UndefinedFragment {
        name: Name,
    },
    /// A fragment's type is not composite (section 5.5.1.3).
    InvalidFragmentTarget {
        #[derive_where(skip(Hash))]
        name: Option<Name>,
        ty: Name,
    },
    /// A fragment can't apply to its parent's type (section 5.5.2.3).
    InvalidFragmentSpread {
        #[derive_where(skip(Hash))]
        name: Option<Name>,
        type_name: Name,
        #[derive_where(skip(Hash))]
        type_condition: Name,
        #[derive_where(skip(Hash))]
        fragment_location: Option<SourceSpan>,
        #[derive_where(skip(Hash))]
        type_location: Option<SourceSpan>,
    },
    /// A fragment is not used (section 5.5.1.4).
    UnusedFragment {
        name: Name,
    },
    /// A fragment spreads itself (section 5.5.2.2).
    RecursiveFragmentDefinition {
        #[derive_where(skip(Hash))]
        head_location: Option<SourceSpan>,
        name: Name,
        #[derive_where(skip(Hash))]
        trace: Vec<Node<FragmentSpread>>,
    },
    /// Selections are nested too deeply.
    RecursionError,
}

impl Drop for DiagnosticData {
    fn drop(self) {
        // variants that own the same things drop them in one arm
        match self {
            DiagnosticData::UndefinedDefinition { name: _name }
            | DiagnosticData::RootOperationObjectType {
                name: _name,
                describe_type: _,
            }
            | DiagnosticData::DuplicateRootOperationType {
                name: _name,
                original_operation: _,
                original_definition: _,
                redefined_operation: _,
                redefined_definition: _,
            }
            | DiagnosticData::ReservedName {
                name: _name,
                describe: _,
            }
            | DiagnosticData::OutputType {
                name: _name,
                describe_type: _,
                type_location: _,
            }
            | DiagnosticData::InputType {
                name: _name,
                describe_type: _,
                type_location: _,
            }
            | DiagnosticData::UnionMemberObjectType {
                name: _name,
                describe_type: _,
            }
            | DiagnosticData::RecursiveInterfaceDefinition { name: _name }
            | DiagnosticData::UniqueInputValue {
                name: _name,
                original_definition: _,
                redefined_definition: _,
            }
            | DiagnosticData::DeeplyNestedType {
                name: _name,
                describe_type: _,
            }
            | DiagnosticData::UndefinedDirective { name: _name }
            | DiagnosticData::UniqueDirective {
                name: _name,
                original_application: _,
            }
            | DiagnosticData::UniqueArgument {
                name: _name,
                original_definition: _,
                redefined_definition: _,
            }
            | DiagnosticData::UndefinedVariable { name: _name }
            | DiagnosticData::UniqueVariable {
                name: _name,
                original_definition: _,
                redefined_definition: _,
            }
            | DiagnosticData::UnusedVariable { name: _name }
            | DiagnosticData::UndefinedFragment { name: _name }
            | DiagnosticData::UnusedFragment { name: _name } => {}
            DiagnosticData::EmptyFieldSet {
                type_name: _name,
                type_location: _,
                extensions_locations: _places,
            }
            | DiagnosticData::EmptyValueSet {
                type_name: _name,
                type_location: _,
                extensions_locations: _places,
            }
            | DiagnosticData::EmptyMemberSet {
                type_name: _name,
                type_location: _,
                extensions_locations: _places,
            }
            | DiagnosticData::EmptyInputValueSet {
                type_name: _name,
                type_location: _,
                extensions_locations: _places,
            } => {}
            DiagnosticData::TransitiveImplementedInterfaces {
                interface: _first,
                via_interface: _second,
                transitive_interface_location: _,
                missing_interface: _third,
            }
            | DiagnosticData::MissingInterfaceField {
                name: _first,
                implements_location: _,
                interface: _second,
                field: _third,
                field_location: _,
            } => {}
            DiagnosticData::MissingInterfaceFieldArgument {
                name: _first,
                interface: _second,
                field: _third,
                argument: _fourth,
                field_location: _,
                interface_argument_location: _,
            }
            | DiagnosticData::ExtraRequiredImplementationFieldArgument {
                name: _first,
                interface: _second,
                field: _third,
                argument: _fourth,
                argument_location: _,
                interface_field_location: _,
            } => {}
            DiagnosticData::IntCoercionError { value: _text }
            | DiagnosticData::FloatCoercionError { value: _text } => {}
            DiagnosticData::UndefinedEnumValue {
                value: _first,
                definition: _second,
                definition_location: _,
            }
            | DiagnosticData::UndefinedInputValue {
                value: _first,
                definition: _second,
                definition_location: _,
            } => {}
            DiagnosticData::QueryRootOperationType
            | DiagnosticData::RecursionError
            | DiagnosticData::InvalidImplementationFieldType {
                name: _,
                interface: _,
                field: _,
                interface_type: _,
                actual_type: _,
                field_location: _,
                interface_field_location: _,
            }
            | DiagnosticData::InvalidImplementationFieldArgumentType {
                name: _,
                interface: _,
                field: _,
                argument: _,
                interface_type: _,
                actual_type: _,
                argument_location: _,
                interface_argument_location: _,
            }
            | DiagnosticData::RecursiveInputObjectDefinition { name: _, trace: _ }
            | DiagnosticData::RecursiveDirectiveDefinition { name: _, trace: _ }
            | DiagnosticData::UnsupportedLocation {
                name: _,
                location: _,
                valid_locations: _,
                definition_location: _,
            }
            | DiagnosticData::UndefinedArgument {
                name: _,
                coordinate: _,
                definition_location: _,
            }
            | DiagnosticData::RequiredArgument {
                name: _,
                coordinate: _,
                expected_type: _,
                definition_location: _,
            }
            | DiagnosticData::DisallowedVariableUsage {
                variable: _,
                variable_type: _,
                variable_location: _,
                argument: _,
                argument_type: _,
                argument_location: _,
            }
            | DiagnosticData::UnsupportedValueType {
                value: _,
                ty: _,
                definition_location: _,
            }
            | DiagnosticData::RequiredField {
                name: _,
                coordinate: _,
                expected_type: _,
                definition_location: _,
            }
            | DiagnosticData::VariableInputType {
                name: _,
                ty: _,
                describe_type: _,
            }
            | DiagnosticData::MissingSubselection {
                coordinate: _,
                output_type: _,
                describe_type: _,
            }
            | DiagnosticData::InvalidFragmentTarget { name: _, ty: _ }
            | DiagnosticData::InvalidFragmentSpread {
                name: _,
                type_name: _,
                type_condition: _,
                fragment_location: _,
                type_location: _,
            }
            | DiagnosticData::RecursiveFragmentDefinition {
                head_location: _,
                name: _,
                trace: _,
            } => {}
        }
    }
}
