//! How rules are called.

use graphql_documents::{ExecutableDocument, FieldSet};
use graphql_faults::DiagnosticList;
use graphql_names::Node;
use row_building::Schema;
use row_files::Lines;
use std::alloc::AllocError;
use tree_directives::{Argument, DirectiveLocation, InputValueDefinition};
use tree_literals::{Type, Value};
use tree_operations::OperationDefinition;

/// How rules are called: each call adds what it finds to the list that it is given. It has where memory comes from.
pub trait Rules {
    /// `validate_schema`.
    fn schema(&self, schema: &mut Schema, list: &mut DiagnosticList) -> Result<(), AllocError>;

    /// Adds the name of each type that `record_type_ref` notes as one of the five built-in scalars, a line each.
    fn push_noted(&self, schema: &Schema, lines: &mut Lines);

    /// `is_valid_implementation_field_type`.
    fn serves(&self, schema: &Schema, wanted: &Type, given: &Type) -> bool;

    /// `validate_directives` of the operation's own.
    fn directives(
        &self,
        schema: Option<&Schema>,
        operation: &OperationDefinition,
        location: DirectiveLocation,
        list: &mut DiagnosticList,
    ) -> Result<(), AllocError>;

    /// `validate_arguments`.
    fn arguments(
        &self,
        arguments: &[Node<Argument>],
        list: &mut DiagnosticList,
    ) -> Result<(), AllocError>;

    /// `validate_variable_usage` of an argument in the operation, against the argument's definition.
    fn usage(
        &self,
        definition: &Node<InputValueDefinition>,
        operation: &OperationDefinition,
        argument: &Node<Argument>,
        list: &mut DiagnosticList,
    ) -> Result<bool, AllocError>;

    /// `value_of_correct_type` of a value in the operation, against the type before it.
    fn value(
        &self,
        schema: &Schema,
        typed: (&Node<Type>, &Node<Value>),
        operation: &OperationDefinition,
        list: &mut DiagnosticList,
    ) -> Result<(), AllocError>;

    /// `validate_executable_document`, or `validate_standalone_executable` if there is no schema.
    fn document(
        &self,
        schema: Option<&Schema>,
        document: &ExecutableDocument,
        list: &mut DiagnosticList,
    ) -> Result<(), AllocError>;

    /// `validate_field_set`.
    fn field_set(
        &self,
        schema: &Schema,
        set: &FieldSet,
        list: &mut DiagnosticList,
    ) -> Result<(), AllocError>;

    /// `validate_operation` of each operation, in order, by one `FieldsInSetCanMerge`: adds whether that is clean after each, and
    /// gives how often it compared shapes.
    fn merging(
        &self,
        schema: &Schema,
        document: &ExecutableDocument,
        cleans: &mut Vec<bool>,
        list: &mut DiagnosticList,
    ) -> Result<u128, AllocError>;
}
