//! Documents of which every rule holds over a schema.

ghost use Rattle.std.specs.Prelude.{◌≡◌, ◌∷◌, [], Some, IfOk, string_bytes};
ghost use Rattle.schema_building.specs.SourcesView.{sources_view};
ghost use Rattle.document_typed_operations.specs.TypedDocument.{typed_document_tree};
ghost use Rattle.book_validity.specs.in_typing.DocumentView.{meant_document};
ghost use Rattle.book_validity.specs.in_typing.DefinedByPlace.{IsDefinedDocument};
ghost use Rattle.graphql_validation.specs.TellsDocument.{IsTypedUnder};
ghost use Rattle.checker_calls.specs.TextSources.{text_sources};
ghost use Rattle.checker_calls.specs.Layouts.{prefix_of};
ghost use Rattle.graphql_checked.specs.CheckedView.{schema_value, document_value};
ghost use Rattle.graphql_checked.specs.CheckerValue.{IsCheckedDocumentOf, WritesCheckedDocument};

use crate::checked_schema::CheckedSchema;
use checker_calls::{Layout, written};
use document_typed_operations::ExecutableDocument;
use std::alloc::AllocError;
use std::marker::Model;

/// A document that is accepted over a schema: it is read, every rule holds of it, and no bound on brackets or numbers is
/// passed.
pub struct CheckedDocument<'s> {
    pub(crate) schema: &'s CheckedSchema,
    pub(crate) text: String,
    pub(crate) document: ExecutableDocument,
}

// Not derived: a derived drop is proved again in each crate that drops one.
impl Drop for CheckedDocument<'_> {
    fn drop(self) {
        let CheckedDocument {
            schema: _,
            text: _,
            document: _,
        } = self;
    }
}

impl<'s> Model for CheckedDocument<'s> {
    ghost use Rattle.std.specs.Prelude.{string_bytes};
    ghost use Rattle.std.specs.Coded.{codes};
    ghost use Rattle.book_validity.specs.in_schema.contracts.schema.Schema as of_schema;
    ghost use Rattle.tree_definitions.specs.contracts.document.Document as of_written;
    ghost use Rattle.document_typed_operations.specs.contracts.document.ExecutableDocument as of_document;
    ghost use Rattle.graphql_checked.specs.CheckedView.{CheckedDocumentParts, schema_value};
    ghost use Rattle.graphql_checked.specs.Checking.{IsKeptDocument};

    ghost Value = { CheckedDocumentParts };

    ghost coded = { Prim.hlevel (codes, of_schema.the_row.coded, of_written.the_row.coded, of_document.the_row.coded) };

    ghost view = { λ d. record { schema = d.schema.now; text = string_bytes d.text; document = d.document } };

    ghost invariant = { λ d. IsKeptDocument (schema_value d.schema.now) (string_bytes d.text) d.document };
}

impl<'s> CheckedDocument<'s> {
    /// The schema over which it is accepted.
    pub fn schema(&self) -> &'s CheckedSchema
        ensures { result.now ≡ self.now.schema }
    {
        self.schema
    }

    /// The document with its meaning over the schema: it is typed, and each field has the schema's definition. Every rule of
    /// section 5 holds of it. Its one source is its text, under its number.
    pub fn document(&self) -> &ExecutableDocument
        ensures document { meant_document (typed_document_tree result.now) ≡ (document_value self.now).document }
        ensures accepted { IsCheckedDocumentOf (document_value self.now).schema (document_value self.now).text (document_value self.now).document }
        ensures sources { sources_view result.now.sources ≡ text_sources (document_value self.now).schema.number ((document_value self.now).text ∷ []) }
        ensures typed { IsTypedUnder (document_value self.now).schema.schema (document_value self.now).document }
        ensures defined { IsDefinedDocument (Some (document_value self.now).schema.schema) (typed_document_tree result.now) }
    {
        &self.document
    }

    /// The text of the document under the layout: its operations, one without a name first, and then its fragments, each in
    /// the order read.
    pub fn written(&self, layout: Layout<'_>) -> Result<String, AllocError>
        ensures { IfOk result (λ text. WritesCheckedDocument (prefix_of layout.entry) (document_value self.now) (string_bytes text)) }
    {
        let schema = self.schema;
        let document = self.document.to_ast(schema.alloc)?;
        written(schema.alloc, &document, layout)
    }
}
