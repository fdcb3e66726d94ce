//! Schemas of a row's texts, made by a builder with the row's settings.

use crate::given::document_of;
use graphql_names::{FileId, SourceSpan};
use graphql_schema::{BuildError, BuilderRefusal, Extensions, Schema, SchemaBuilder};
use row_files::{Answer, Case, Lines, Problem, number, says};
use std::alloc::Global;
use tree_definitions::Document;

/// A schema, and the faults of its texts.
pub struct Built {
    pub schema: Schema,
    pub faults: Vec<(Option<SourceSpan>, BuildError)>,
}

impl Drop for Built {
    fn drop(self) {
        let Built {
            schema: _,
            faults: _,
        } = self;
    }
}

/// What the row's schema texts build. If the builder refuses them, the status tells why. For `orphans` the answer has
/// the names that have an extension and no definition.
pub fn build(alloc: Global, case: Case<'_>, answer: &mut Answer) -> Result<Option<Built>, Problem> {
    let mut builder = builder_of(alloc, case)?;
    add_texts(alloc, case, &mut builder, answer)?;
    match builder.build() {
        Ok((schema, faults)) => Ok(Some(Built { schema, faults })),
        Err(refusal) => {
            push_refusal(refusal, &mut answer.status);
            Ok(None)
        }
    }
}

/// A builder with the row's settings.
fn builder_of(alloc: Global, case: Case<'_>) -> Result<SchemaBuilder, Problem> {
    let extensions = extensions_of(case)?;
    let adopts = says(case.row, "adopt", "yes")?;
    let ignores = says(case.row, "ignore", "yes")?;
    let builder = SchemaBuilder::with_extensions(alloc, extensions);
    Ok(ignoring(adopting(builder, adopts), ignores))
}

/// The numbers of extensions, from the first one that the row gives.
fn extensions_of(case: Case<'_>) -> Result<Extensions, Problem> {
    let first = number(case.row, "first", "1")?;
    if first == 0 {
        return Err(case.row.head.problem("extensions are counted from 1 on"));
    }
    Ok(Extensions::starting_at(first as u64))
}

/// The builder, which adopts orphan extensions if the row says so.
fn adopting(builder: SchemaBuilder, is_so: bool) -> SchemaBuilder {
    if is_so {
        builder.adopt_orphan_extensions()
    } else {
        builder
    }
}

/// The builder, which ignores built-in redefinitions if the row says so.
fn ignoring(builder: SchemaBuilder, is_so: bool) -> SchemaBuilder {
    if is_so {
        builder.ignore_builtin_redefinitions()
    } else {
        builder
    }
}

/// Adds the row's schema texts, numbered from 1, which must be read, and tells what the answer has of them.
fn add_texts(
    alloc: Global,
    case: Case<'_>,
    builder: &mut SchemaBuilder,
    answer: &mut Answer,
) -> Result<(), Problem> {
    let mut file = 1;
    for text in &case.given.schemas {
        let given = document_of(alloc, case, text, FileId(file))?;
        add_document(&given.document, builder, &mut answer.status);
        file = file.wrapping_add(1);
    }
    if case.call == "orphans" {
        push_orphans(builder, &mut answer.text);
    }
    Ok(())
}

/// Adds a document of schema text. If the builder refuses it, the status tells why.
fn add_document(document: &Document, builder: &mut SchemaBuilder, status: &mut Lines) {
    if let Err(refusal) = builder.add_ast(document) {
        push_refusal(refusal, status);
    }
}

/// Tells why a builder refuses, if it is the first refusal.
fn push_refusal(refusal: BuilderRefusal, status: &mut Lines) {
    if status.as_str().is_empty() {
        status.put(match refusal {
            BuilderRefusal::Memory => "4 out of memory",
            BuilderRefusal::Spent => "3 spent",
            BuilderRefusal::Failed => "4 failed",
        });
    }
}

/// Adds the names that have an extension and no definition, a line each.
fn push_orphans(builder: &SchemaBuilder, lines: &mut Lines) {
    for name in builder.iter_orphan_extension_types() {
        lines.show_between("", name, "\n");
    }
}
