//! Answers of the checker call by call.

use graphql_checked::{CheckedDocument, CheckedSchema, Checker, Limits, Refusal};
use graphql_names::Files;
use row_texts::{Asked, Texts, Told, layouts};
use schema_components::Extensions;
use std::alloc::Global;

/// The schema of the texts, by a checker with the numbers that the row asks for.
pub(crate) fn schema_of(
    alloc: Global,
    schemas: &[&str],
    asked: Asked,
) -> Result<CheckedSchema, Refusal> {
    let limits = Limits {
        nesting: asked.nesting,
    };
    let mut checker = if asked.text < 2 && asked.extension < 2 {
        Checker::new(alloc, limits)
    } else {
        let files = Files::starting_at(asked.text.max(1));
        let extensions = Extensions::starting_at(asked.extension.max(1));
        Checker::with_numbers(alloc, limits, files, extensions)
    };
    for text in schemas {
        checker.add_schema(text)?;
    }
    checker.finish()
}

/// Adds the answers to the further documents, while what the first gives is kept, and then what that tells.
pub(crate) fn push_around(schema: &CheckedSchema, texts: Texts<'_>, told: &mut Told) {
    match schema.check(texts.document) {
        Ok(checked) => {
            for document in texts.following {
                push_check(schema, document, told);
            }
            push_accepted(&checked, told);
        }
        Err(refusal) => told.refuse(&refusal),
    }
}

/// Adds the answer of a schema's `check`, after which there is another.
fn push_check(schema: &CheckedSchema, document: &str, told: &mut Told) {
    match schema.check(document) {
        Ok(checked) => push_accepted(&checked, told),
        Err(refusal) => told.refuse(&refusal),
    }
    told.end();
}

/// Adds what an accepted document tells: what it lends, and what it and its schema are written as.
fn push_accepted(checked: &CheckedDocument<'_>, told: &mut Told) {
    told.accept(checked.document());
    for (name, layout) in layouts() {
        if told.wants(name) {
            let schema = checked.schema().written(layout);
            told.write(name, layout, schema, checked.written(layout));
        }
    }
}
