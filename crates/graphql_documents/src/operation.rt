//! Calls of operations that need a document.
ghost use Rattle.std.specs.Prelude.{◌≡◌, true, false, IfOk};
ghost use Rattle.document_typed_operations.specs.TypedDocument.{typed_operation_tree, typed_document_tree};
ghost use Rattle.document_typed_operations.specs.Reached.{IsWalk, document_fragments};
ghost use Rattle.document_typed_operations.specs.Lending.{all_fields_is_over, all_fields_left, root_fields_is_over, root_fields_left};
ghost use Rattle.graphql_documents.specs.Introspection.{is_meta_name, are_meta_fields, SaysIntrospection};

use crate::selection_set::SelectionSetExt;
use document_typed_operations::{AllFields, ExecutableDocument, Operation, RootFields};
use graphql_names::Name;
use std::alloc::{AllocError, Global};

/// Calls of an operation that need its document.
pub trait OperationExt {
    /// Whether it is a query whose root fields are all meta-fields (section 4).
    fn is_introspection(
        &self,
        alloc: Global,
        document: &ExecutableDocument,
    ) -> Result<bool, AllocError>;

    /// Lends each field that the operation reaches in the document and that is within no other field, once.
    fn root_fields<'doc>(
        &'doc self,
        alloc: Global,
        document: &'doc ExecutableDocument,
    ) -> RootFields<'doc>;

    /// Lends each field that the operation reaches in the document, once.
    fn all_fields<'doc>(
        &'doc self,
        alloc: Global,
        document: &'doc ExecutableDocument,
    ) -> AllFields<'doc>;
}

impl OperationExt for Operation {
    fn is_introspection(
        &self,
        alloc: Global,
        document: &ExecutableDocument,
    ) -> Result<bool, AllocError>
        ensures { IfOk result (SaysIntrospection (document_fragments (typed_document_tree document.now)) (typed_operation_tree self.now)) }
    {
        let root_fields = self.selection_set.root_fields(alloc, document);
        if !self.is_query() {
            return Ok(false);
        }
        are_meta_fields(root_fields)
    }

    fn root_fields<'doc>(
        &'doc self,
        alloc: Global,
        document: &'doc ExecutableDocument,
    ) -> RootFields<'doc>
        ensures walk { IsWalk false (document_fragments (typed_document_tree document.now)) (typed_operation_tree self.now).set (root_fields_left result) }
        ensures is_over { root_fields_is_over result ≡ false }
    {
        self.selection_set.root_fields(alloc, document)
    }

    fn all_fields<'doc>(
        &'doc self,
        alloc: Global,
        document: &'doc ExecutableDocument,
    ) -> AllFields<'doc>
        ensures walk { IsWalk true (document_fragments (typed_document_tree document.now)) (typed_operation_tree self.now).set (all_fields_left result) }
        ensures is_over { all_fields_is_over result ≡ false }
    {
        self.selection_set.all_fields(alloc, document)
    }
}

/// Whether each field that is left is a meta-field.
fn are_meta_fields(fields: RootFields<'_>) -> Result<bool, AllocError>
    ensures { IfOk result (λ b. b ≡ are_meta_fields (root_fields_left fields.entry)) }
{
    for field in fields {
        if !is_meta_name(&field?.content().name) {
            return Ok(false);
        }
    }
    Ok(true)
}

/// Whether a meta-field has that name (sections 4.1 and 4.2).
fn is_meta_name(name: &Name) -> bool
    ensures { result ≡ is_meta_name name.now.text }
{
    let name = name.as_str();
    name == "__typename" || name == "__schema" || name == "__type"
}
