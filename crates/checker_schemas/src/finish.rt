//! The schema of texts: built and judged, if each is read.

ghost use Rattle.std.specs.Prelude.{◌≡◌, ◌≢◌, [], false, map, OnOk, IfOk, IfErr};
ghost use Rattle.tree_definitions.specs.DefinitionTree.{document_tree};
ghost use Rattle.graphql_rules.specs.in_faults.DetailsView.{diagnostics_of};
ghost use Rattle.checker_calls.specs.in_schema.BuilderOf.{builder_value};
ghost use Rattle.checker_calls.specs.in_schema.SchemaOf.{schema_tree};
ghost use Rattle.schema_building.specs.SourcesView.{sources_view};
ghost use Rattle.schema_building.specs.declared.refusal.BuilderRefusal.TheVariants.{Failed};
ghost use Rattle.rule_definitions.specs.Judged.{judged};
ghost use Rattle.rule_definitions.specs.Kept.{validated};
ghost use Rattle.rule_definitions.specs.Rules.{SchemaRules};
ghost use Rattle.checker_calls.specs.TextsView.{terms_of, texts_of, all_sources, IsReadingOf};
ghost use Rattle.checker_schemas.specs.CheckedSchemaValue.{IsCheckedSchemaOf};
ghost use Rattle.checker_schemas.specs.JudgedView.{judged_value};
ghost use Rattle.checker_schemas.specs.Refusals.{RefusalOfSchemas};
ghost use Rattle.checker_schemas.specs.Finishing.{IsFilled, RefusalOfNumbers, IsOfBuilder, BuildsSchema, RefusalOfFolding, RefusalOfSchemaRules, IsJudgedSchema, RefusalOfBuilder};

use crate::build_errors::schema_errors;
use checker_calls::{Refusal, Schema, SchemaBuilder, SchemaTexts, next_number, only};
use graphql_rules::{Details, DiagnosticList, validate_schema};
use schema_building::BuilderRefusal;
use schema_components::Extensions;
use std::alloc::{AllocError, Global};
use tree_definitions::Document;

/// The schema of texts that are accepted, with what checks of documents depend on.
#[derive(Drop)]
pub struct JudgedTexts {
    /// How many brackets may be open at once.
    pub nesting: usize,
    /// The number of a document that comes after the texts; `u64::MAX`, which no text gets, if none is left for it.
    pub number: u64,
    /// The schema as it is written: as it was built.
    pub written: Document,
    /// The schema over which documents are judged.
    pub schema: Schema,
}

/// The schema of the texts, if they are accepted.
///
/// Otherwise it tells what is wrong: if texts are not read, only a fault for each of them; else each folding rule that is
/// broken; if none is, the first 1,000 breaches of rules on schemas.
pub fn schema_of_texts(texts: SchemaTexts) -> Result<JudgedTexts, Refusal>
    requires { IsReadingOf (texts_of texts) texts }
    ensures schema { IfOk result (λ s. IsCheckedSchemaOf (terms_of texts) (texts_of texts) (judged_value s)) }
    ensures refused { IfErr result (RefusalOfSchemas (terms_of texts) (texts_of texts)) }
{
    // What is not read may define anything, so no rule is judged without it.
    if !texts.unread.is_empty() {
        return Err(Refusal::Faults(texts.unread));
    }
    let builder = filled(texts.alloc, texts.extensions, &texts.documents)?;
    // The builder shares their definitions, and gives them back once they are folded.
    drop(texts.documents);
    let (schema, written) = judge(texts.alloc, builder)?;
    Ok(JudgedTexts {
        nesting: texts.nesting,
        number: next_number(texts.files),
        written,
        schema,
    })
}

/// A builder that has the definitions of the documents, in order, if there is a number for each extension.
fn filled(
    alloc: Global,
    extensions: Extensions,
    documents: &[Document],
) -> Result<SchemaBuilder, Refusal>
    ensures filled { IfOk result (λ b. IsFilled extensions (map document_tree documents.now) (all_sources documents.now) (builder_value b)) }
    ensures refused { IfErr result (RefusalOfNumbers extensions (map document_tree documents.now)) }
{
    let mut builder = SchemaBuilder::with_extensions(alloc, extensions);
    for document in documents {
        match builder.add_ast(document) {
            Ok(()) => {}
            Err(refusal) => return Err(unfilled(alloc, refusal)),
        }
    }
    Ok(builder)
}

/// The refusal if a builder that has not failed adds nothing.
fn unfilled(alloc: Global, refusal: BuilderRefusal) -> Refusal
    requires { refusal ≢ Failed }
    ensures { IsOfBuilder refusal result }
{
    match refusal {
        BuilderRefusal::Spent => only(alloc, None, Details::Spent),
        BuilderRefusal::Memory => Refusal::Memory,
        BuilderRefusal::Failed => unreachable!(),
    }
}

/// The schema that the definitions fold to, with each way in which a folding rule is broken.
fn build(alloc: Global, builder: SchemaBuilder) -> Result<(Schema, DiagnosticList), AllocError>
    requires { (builder_value builder).failed ≡ false }
    ensures builds { IfOk result (λ r. BuildsSchema (builder_value builder) (schema_tree r.0) (diagnostics_of r.1)) }
    ensures sources { IfOk result (λ r. sources_view r.0.sources ≡ (builder_value builder).sources) }
{
    match builder.build() {
        Ok((schema, errors)) => Ok((schema, schema_errors(alloc, errors)?)),
        Err(BuilderRefusal::Memory) => Err(AllocError),
        // Numbers are taken when definitions are added, and this builder has not failed.
        Err(BuilderRefusal::Spent | BuilderRefusal::Failed) => unreachable!(),
    }
}

/// The schema that the definitions fold to, if no folding rule is broken.
fn built(alloc: Global, builder: SchemaBuilder) -> Result<Schema, Refusal>
    requires { (builder_value builder).failed ≡ false }
    ensures built { IfOk result (λ s. BuildsSchema (builder_value builder) (schema_tree s) []) }
    ensures sources { IfOk result (λ s. sources_view s.sources ≡ (builder_value builder).sources) }
    ensures refused { IfErr result (RefusalOfFolding (builder_value builder)) }
{
    let (schema, faults) = build(alloc, builder)?;
    // The rules on schemas are about a fold without faults: they are not judged if there are any.
    if !faults.is_empty() {
        return Err(Refusal::Faults(faults));
    }
    Ok(schema)
}

/// Leaves the schema over which documents are judged, if every rule on schemas holds.
fn validate(alloc: Global, schema: &mut Schema) -> Result<(), Refusal>
    ensures kept { OnOk result (schema_tree schema.new ≡ validated (schema_tree schema.old)) }
    ensures sources { OnOk result (schema.new.sources ≡ schema.old.sources) }
    ensures valid { OnOk result (SchemaRules (judged (schema_tree schema.old))) }
    ensures refused { IfErr result (RefusalOfSchemaRules (schema_tree schema.old)) }
{
    let mut faults = DiagnosticList::new(alloc);
    validate_schema(alloc, &mut faults, schema)?;
    if !faults.is_empty() {
        return Err(Refusal::Faults(faults));
    }
    Ok(())
}

/// The schema over which documents are judged, and what is written of it as it was built, if no rule is broken.
fn judge(alloc: Global, builder: SchemaBuilder) -> Result<(Schema, Document), Refusal>
    requires { (builder_value builder).failed ≡ false }
    ensures judged { IfOk result (λ r. IsJudgedSchema (builder_value builder) (schema_tree r.0) (document_tree r.1)) }
    ensures sources { IfOk result (λ r. sources_view r.0.sources ≡ (builder_value builder).sources) }
    ensures refused { IfErr result (RefusalOfBuilder (builder_value builder)) }
{
    let mut schema = built(alloc, builder)?;
    // Before it is validated: that drops unused built-in scalars, also one that a text extends.
    let written = schema.to_ast(alloc)?;
    validate(alloc, &mut schema)?;
    Ok((schema, written))
}
