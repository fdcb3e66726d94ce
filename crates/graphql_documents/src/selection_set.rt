//! Calls of selection sets that need a schema or a document.
ghost use Rattle.std.specs.Prelude.{◌≡◌, true, false, None, Some, IfOk, IfErr};
ghost use Rattle.graphql_names.specs.Placed.{name_tree};
ghost use Rattle.document_typing.specs.in_schema.SchemaOf.{schema_tree};
ghost use Rattle.document_typing.specs.in_schema.LookUps.{field_named};
ghost use Rattle.document_typed_selections.specs.TypedTree.{set_type, typed_set_tree};
ghost use Rattle.document_typed_selections.specs.TypedParts.{typed_field};
ghost use Rattle.document_typed_operations.specs.TypedDocument.{typed_document_tree};
ghost use Rattle.document_typed_operations.specs.Reached.{IsWalk, document_fragments};
ghost use Rattle.document_typed_operations.specs.Lending.{all_fields_is_over, all_fields_left, root_fields_is_over, root_fields_left};
ghost use Rattle.graphql_documents.specs.NewFields.{bare_field_of, IsNewFieldError};

use crate::new_field_error::NewFieldError;
use document_typed_operations::{AllFields, ExecutableDocument, RootFields};
use document_typed_selections::{Field, SelectionSet};
use document_typing::Schema;
use graphql_names::Name;
use std::alloc::Global;

/// Calls of a selection set that need a schema or a document.
pub trait SelectionSetExt {
    /// A field of that name with its definition on the type of this set. It is not added.
    fn new_field<'schema>(
        &self,
        alloc: Global,
        schema: &'schema Schema,
        name: Name,
    ) -> Result<Field, NewFieldError<'schema>>;

    /// Lends each field that the set reaches in the document and that is within no other field, once.
    fn root_fields<'doc>(
        &'doc self,
        alloc: Global,
        document: &'doc ExecutableDocument,
    ) -> RootFields<'doc>;

    /// Lends each field that the set reaches in the document, once.
    fn all_fields<'doc>(
        &'doc self,
        alloc: Global,
        document: &'doc ExecutableDocument,
    ) -> AllFields<'doc>;
}

impl SelectionSetExt for SelectionSet {
    fn new_field<'schema>(
        &self,
        alloc: Global,
        schema: &'schema Schema,
        name: Name,
    ) -> Result<Field, NewFieldError<'schema>>
        ensures made { IfOk result (λ f. bare_field_of (name_tree name) (field_named (schema_tree schema.now) self.now.ty.text name.text) ≡ Some (typed_field None f)) }
        ensures refused { IfErr result (IsNewFieldError (schema_tree schema.now) self.now.ty.text name.text) }
    {
        match schema.type_field(&self.ty, &name) {
            Err(error) => Err(NewFieldError::Lookup(error)),
            Ok(field) => Ok(Field::new(alloc, name, field.node.clone()?)?),
        }
    }

    fn root_fields<'doc>(
        &'doc self,
        alloc: Global,
        document: &'doc ExecutableDocument,
    ) -> RootFields<'doc>
        ensures walk { IsWalk false (document_fragments (typed_document_tree document.now)) (typed_set_tree self.now) (root_fields_left result) }
        ensures is_over { root_fields_is_over result ≡ false }
    {
        RootFields::new(alloc, self, &document.fragments)
    }

    fn all_fields<'doc>(
        &'doc self,
        alloc: Global,
        document: &'doc ExecutableDocument,
    ) -> AllFields<'doc>
        ensures walk { IsWalk true (document_fragments (typed_document_tree document.now)) (typed_set_tree self.now) (all_fields_left result) }
        ensures is_over { all_fields_is_over result ≡ false }
    {
        AllFields::new(alloc, self, &document.fragments)
    }
}
