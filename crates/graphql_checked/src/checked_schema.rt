//! Schemas of which every rule holds.

ghost use Rattle.std.specs.Prelude.{◌≡◌, ◌∷◌, [], Some, OnOk, IfOk, IfErr, string_bytes};
ghost use Rattle.tree_definitions.specs.DefinitionTree.{document_tree};
ghost use Rattle.tree_definitions.specs.Sources.{sources_of};
ghost use Rattle.schema_building.specs.SourcesView.{sources_view, with_sources};
ghost use Rattle.graphql_faults.specs.DetailsView.{diagnostics_of};
ghost use Rattle.book_validity.specs.in_schema.SchemaOf.{schema_tree};
ghost use Rattle.checker_calls.specs.Layouts.{prefix_of};
ghost use Rattle.book_validity.specs.in_typing.DocumentView.{meant_document};
ghost use Rattle.book_validity.specs.in_typing.DefinedByPlace.{IsDefinedDocument};
ghost use Rattle.document_typed_operations.specs.TypedDocument.{typed_document_tree};
ghost use Rattle.book_validity.specs.in_verdict_definitions.Judge.{IsDocumentCertain};
ghost use Rattle.book_validity.specs.in_verdict_definitions.Out.{layout_text};
ghost use Rattle.checker_calls.specs.TextSources.{text_sources};
ghost use Rattle.graphql_checked.specs.CheckedView.{schema_value, document_value};
ghost use Rattle.checker_schemas.specs.CheckedSchemaValue.{IsOfAcceptedTexts};
ghost use Rattle.graphql_checked.specs.CheckerValue.{IsCheckedDocumentOf};
ghost use Rattle.rule_document_definitions.specs.PlacedDocumentFaults.{IsValidDocument};
ghost use Rattle.graphql_validation.specs.TellsDocument.{IsTypedUnder};
ghost use Rattle.graphql_checked.specs.DocumentRefusals.{RefusalOfDocument, RefusalWithLasting};
ghost use Rattle.graphql_checked.specs.Checking.{IsReadDocument, IsUnreadDocument, TypesDocument, RefusalOfTyping, RefusalOfRules};
ghost use Rattle.checker_calls.specs.declared.refusal.Refusal.TheVariants.{Memory};

use crate::build_errors::document_errors;
use crate::checked_document::CheckedDocument;
use book_validity::{BuilderRefusal, ExecutableDocumentBuilder, Schema};
use checker_calls::{Layout, Refusal, Unread, only, read, written};
use document_typed_operations::ExecutableDocument;
use graphql_faults::{Details, DiagnosticList};
use graphql_names::FileId;
use graphql_validation::{
    IndexedSchema, PossibleTypes, SchemaInputs, tell_lasting_faults, validate_with_possible_types,
};
use std::alloc::{AllocError, Global};
use std::marker::Model;
use std::rc::RcStr;
use tree_definitions::Document;

/// A schema of texts that are accepted: they are read, every rule holds of them, and no bound on brackets or numbers is
/// passed.
pub struct CheckedSchema {
    pub(crate) alloc: Global,
    pub(crate) nesting: usize,
    /// The number of a document that comes after the texts; `u64::MAX`, which no text gets, if none is left for it.
    pub(crate) number: u64,
    /// The schema as it is written: as it was built, before built-in scalars to which nothing refers were dropped. It shares
    /// its nodes with the schema.
    pub(crate) written: Document,
    /// The schema over which documents are judged.
    pub(crate) schema: Schema,
    /// Its possible types, which are found once and serve each document; None if one document alone comes: it may need none.
    pub(crate) possible: Option<PossibleTypes>,
    /// What it defines of many input values, which is found once as well.
    pub(crate) inputs: SchemaInputs,
}

// Not derived: a derived drop is proved again in each crate that drops one.
impl Drop for CheckedSchema {
    fn drop(self) {
        let CheckedSchema {
            alloc: _,
            nesting: _,
            number: _,
            written: _,
            schema: _,
            possible: _,
            inputs: _,
        } = self;
    }
}

impl Model for CheckedSchema {
    ghost use Rattle.std.specs.Coded.{codes};
    ghost use Rattle.book_validity.specs.in_schema.contracts.schema.Schema as of_schema;
    ghost use Rattle.tree_definitions.specs.contracts.document.Document as of_document;
    ghost use Rattle.book_validity.specs.in_schema.SchemaOf.{schema_tree};
    ghost use Rattle.rule_definitions.specs.Judged.{judged};
    ghost use Rattle.graphql_validation.specs.in_fragments.Possible.{ArePossibleIfFound};
    ghost use Rattle.graphql_validation.specs.in_values.in_inputs.Inputs.{AreInputsOf};
    ghost use Rattle.graphql_checked.specs.CheckedView.{CheckedSchemaParts, schema_value};
    ghost use Rattle.checker_schemas.specs.CheckedSchemaValue.{IsOfAcceptedTexts};

    ghost Value = { CheckedSchemaParts };

    ghost coded = { Prim.hlevel (codes, of_schema.the_row.coded, of_document.the_row.coded) };

    ghost view = { λ s. record { nesting = s.nesting; number = s.number; schema = s.schema; written = s.written } };

    ghost invariant = { λ s. IsOfAcceptedTexts (schema_value (record { nesting = s.nesting; number = s.number; schema = s.schema; written = s.written })) × (ArePossibleIfFound (judged (schema_tree s.schema)) s.possible × AreInputsOf (schema_tree s.schema) s.inputs) };
}

impl CheckedSchema {
    /// The schema over which documents are judged: without each built-in scalar to which no field, argument or input field
    /// refers. Every rule of section 3 holds of it. Its sources are the schema texts, each under its number, in order.
    pub fn schema(&self) -> &Schema
        ensures schema { schema_tree result.now ≡ (schema_value self.now).schema }
        ensures sources { sources_view result.now.sources ≡ (schema_value self.now).sources }
        ensures accepted { IsOfAcceptedTexts (schema_value self.now) }
    {
        &self.schema
    }

    /// The document, if it is accepted over the schema: it is read, every rule holds of it, and no bound is
    /// passed. Its number is the one after those of the schema texts. The schema stays as it is.
    ///
    /// Otherwise it tells what is wrong. If the text is not read, that is the only fault. Else it tells each rule of typing
    /// that is broken, and with these the breaches of rules on documents, in what typing keeps, that remain whatever is
    /// added. If no rule of typing is broken, it tells the breaches of rules on documents; if there are none, the fields
    /// that do not merge. Of breaches of rules other than typing it tells all, or 1,000. It never answers
    /// [`Refusal::Failed`].
    pub fn check(&self, text: &str) -> Result<CheckedDocument<'_>, Refusal>
        ensures schema { IfOk result (λ d. d.schema ≡ self.now) }
        ensures text { IfOk result (λ d. d.text ≡ text.now) }
        ensures accepted { IfOk result (λ d. IsCheckedDocumentOf (schema_value self.now) text.now (document_value d).document) }
        ensures refused { IfErr result (RefusalOfDocument (schema_value self.now) text.now) }
        ensures lasting { IfErr result (RefusalWithLasting (schema_value self.now) text.now) }
        ensures complete { IfErr result (λ refusal.
            IsDocumentCertain (schema_value self.now).schema self.now.nesting self.now.number text.now → refusal ≡ Memory) }
    {
        let tree = read_document(self, text)?;
        let document = typed(self, &tree)?;
        validate(self, &document)?;
        Ok(CheckedDocument {
            schema: self,
            text: String::from_str(self.alloc, text)?,
            document,
        })
    }

    /// The text of the schema as it was built, under the layout: its definition unless it is implicit, the definitions of
    /// directives, and each type with its extensions, without what is built in.
    pub fn written(&self, layout: Layout<'_>) -> Result<String, AllocError>
        ensures { IfOk result (λ text. string_bytes text ≡ layout_text (prefix_of layout.entry) (schema_value self.now).written) }
    {
        written(self.alloc, &self.written, layout)
    }
}

/// Reads a document with its number, if one is left for it.
fn read_document(schema: &CheckedSchema, text: &str) -> Result<Document, Refusal>
    ensures read { IfOk result (λ d. IsReadDocument (schema_value schema.now) text.now (document_tree d)) }
    ensures sources { IfOk result (λ d. sources_of d ≡ text_sources schema.now.number (text.now ∷ [])) }
    ensures unread { IfErr result (IsUnreadDocument (schema_value schema.now) text.now) }
{
    if schema.number == u64::MAX {
        return Err(only(schema.alloc, None, Details::Spent));
    }
    let shared = RcStr::from_str(schema.alloc, text)?;
    match read(schema.alloc, &shared, FileId(schema.number), schema.nesting) {
        Ok(document) => Ok(document),
        Err(Unread::Fault { place, details }) => Err(only(schema.alloc, Some(place), details)),
        Err(Unread::Memory) => Err(Refusal::Memory),
    }
}

/// What is kept of the definitions over the schema, and each way in which a rule of typing is broken.
fn build(
    schema: &CheckedSchema,
    tree: &Document,
) -> Result<(ExecutableDocument, DiagnosticList), AllocError>
    ensures types { IfOk result (λ r. TypesDocument (schema_value schema.now).schema (document_tree tree.now) (meant_document (typed_document_tree r.0)) (diagnostics_of r.1)) }
    ensures sources { IfOk result (λ r. sources_view r.0.sources ≡ with_sources [] (sources_of tree.now)) }
    ensures defined { IfOk result (λ r. IsDefinedDocument (Some (schema_value schema.now).schema) (typed_document_tree r.0)) }
{
    let mut builder = ExecutableDocumentBuilder::new(schema.alloc, Some(&schema.schema));
    // The builder is new here: no earlier call of it failed.
    match builder.add_ast_document(tree) {
        Ok(()) => {}
        Err(BuilderRefusal::Memory) => return Err(AllocError),
        Err(BuilderRefusal::Failed) => unreachable!(),
    }
    match builder.build() {
        Ok((document, errors)) => Ok((document, document_errors(schema.alloc, errors)?)),
        Err(BuilderRefusal::Memory) => Err(AllocError),
        Err(BuilderRefusal::Failed) => unreachable!(),
    }
}

/// What is kept of the definitions over the schema, if no rule of typing is broken. If one is, breaches of rules on
/// documents that remain whatever is added to what is kept are told, too.
fn typed(schema: &CheckedSchema, tree: &Document) -> Result<ExecutableDocument, Refusal>
    ensures typed { IfOk result (λ d. TypesDocument (schema_value schema.now).schema (document_tree tree.now) (meant_document (typed_document_tree d)) []) }
    ensures sources { IfOk result (λ d. sources_view d.sources ≡ with_sources [] (sources_of tree.now)) }
    ensures defined { IfOk result (λ d. IsDefinedDocument (Some (schema_value schema.now).schema) (typed_document_tree d)) }
    ensures refused { IfErr result (RefusalOfTyping (schema_value schema.now).schema (document_tree tree.now)) }
{
    let (document, mut faults) = build(schema, tree)?;
    if !faults.is_empty() {
        let possible = schema.possible.as_ref();
        let over = IndexedSchema::new(&schema.schema, &schema.inputs);
        tell_lasting_faults(schema.alloc, &mut faults, &over, possible, &document)?;
        return Err(Refusal::Faults(faults));
    }
    Ok(document)
}

/// Whether every rule on documents and on merging holds of a document that is typed.
fn validate(schema: &CheckedSchema, document: &ExecutableDocument) -> Result<(), Refusal>
    ensures valid { IsTypedUnder (schema_value schema.now).schema (meant_document (typed_document_tree document.now)) → OnOk result (IsValidDocument (schema_value schema.now).schema (meant_document (typed_document_tree document.now))) }
    ensures refused { IsTypedUnder (schema_value schema.now).schema (meant_document (typed_document_tree document.now)) → IfErr result (RefusalOfRules (schema_value schema.now).schema (meant_document (typed_document_tree document.now))) }
{
    let alloc = schema.alloc;
    let mut faults = DiagnosticList::new(alloc);
    let possible = schema.possible.as_ref();
    let over = IndexedSchema::new(&schema.schema, &schema.inputs);
    validate_with_possible_types(alloc, &mut faults, &over, possible, document)?;
    if !faults.is_empty() {
        return Err(Refusal::Faults(faults));
    }
    Ok(())
}
