//! How rules are called.

use crate::library::Library;
use document_typed_operations::{ExecutableDocument, FieldSet};
use graphql_checked::DiagnosticList;
use graphql_names::Node;
use graphql_rules::{
    BuiltInScalars, is_valid_implementation_field_type, validate_arguments, validate_directives,
    validate_schema, validate_variable_usage, value_of_correct_type,
};
use graphql_validation::{
    FieldsInSetCanMerge, validate_executable_document, validate_field_set,
    validate_standalone_executable,
};
use row_files::Lines;
use row_rules::{Rules, Schema};
use std::alloc::AllocError;
use tree_directives::{Argument, DirectiveLocation, InputValueDefinition};
use tree_literals::{Type, Value};
use tree_operations::OperationDefinition;

impl Rules for Library {
    fn schema(&self, schema: &mut Schema, list: &mut DiagnosticList) -> Result<(), AllocError> {
        validate_schema(self.alloc, list, schema)
    }

    fn push_noted(&self, schema: &Schema, lines: &mut Lines) {
        let mut scalars = BuiltInScalars::new();
        for ty in schema.types.values() {
            if scalars.record_type_ref(schema, ty.name()) {
                lines.show_between("", ty.name(), "\n");
            }
        }
    }

    fn serves(&self, schema: &Schema, wanted: &Type, given: &Type) -> bool {
        is_valid_implementation_field_type(schema, wanted, given)
    }

    fn directives(
        &self,
        schema: Option<&Schema>,
        operation: &OperationDefinition,
        location: DirectiveLocation,
        list: &mut DiagnosticList,
    ) -> Result<(), AllocError> {
        let directives = operation.directives.0.as_slice();
        let variables = operation.variables.as_slice();
        validate_directives(self.alloc, list, schema, directives, location, variables)
    }

    fn arguments(
        &self,
        arguments: &[Node<Argument>],
        list: &mut DiagnosticList,
    ) -> Result<(), AllocError> {
        validate_arguments(self.alloc, list, arguments)
    }

    fn usage(
        &self,
        definition: &Node<InputValueDefinition>,
        operation: &OperationDefinition,
        argument: &Node<Argument>,
        list: &mut DiagnosticList,
    ) -> Result<bool, AllocError> {
        validate_variable_usage(list, definition, operation.variables.as_slice(), argument)
    }

    fn value(
        &self,
        schema: &Schema,
        typed: (&Node<Type>, &Node<Value>),
        operation: &OperationDefinition,
        list: &mut DiagnosticList,
    ) -> Result<(), AllocError> {
        let (ty, value) = typed;
        let variables = operation.variables.as_slice();
        value_of_correct_type(self.alloc, list, schema, ty, value, variables)
    }

    fn document(
        &self,
        schema: Option<&Schema>,
        document: &ExecutableDocument,
        list: &mut DiagnosticList,
    ) -> Result<(), AllocError> {
        match schema {
            Some(schema) => validate_executable_document(self.alloc, list, schema, document),
            None => validate_standalone_executable(self.alloc, list, document),
        }
    }

    fn field_set(
        &self,
        schema: &Schema,
        set: &FieldSet,
        list: &mut DiagnosticList,
    ) -> Result<(), AllocError> {
        validate_field_set(self.alloc, list, schema, set)
    }

    fn merging(
        &self,
        schema: &Schema,
        document: &ExecutableDocument,
        cleans: &mut Vec<bool>,
        list: &mut DiagnosticList,
    ) -> Result<u128, AllocError> {
        let mut merging = FieldsInSetCanMerge::new(self.alloc, schema, document);
        for operation in document.operations.iter() {
            merging.validate_operation(operation, list)?;
            cleans.push(merging.is_clean())?;
        }
        Ok(merging.comparisons())
    }
}
