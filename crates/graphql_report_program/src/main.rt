//! Checks documents over a schema, and tells each fault at its line and column.
//!
//! `graphql-report [--format text|short|json|github|sarif] [--color auto|always|never] [--warn] [--deny warnings] [--nesting N]
//! [--max-faults N] --schema FILE [--schema FILE].. [--quiet] [DOCUMENT..]` checks the schema once, and then each document by
//! itself; `-` is standard input. With `--batch` documents come from standard input, a JSON object a line, and other schemas between
//! them. With `--warn` what is deprecated, and what the specification does not allow, is told of what is accepted.
//!
//! Begin with `check`: `schema_of`, `report_of_schema`, `open_schema`, `check_document`, `warnings_of` and `answer` are the calls of the
//! library. What it takes, prints and counts is in `report_cli`.
#![tactic(auto)]

mod batch;

use crate::batch::{answer_schema, check_batch};
use graphql_checked::{CheckedDocument, CheckedSchema, Checker, DiagnosticList, Limits, Refusal};
use graphql_report::{Entry, Report, Severity, StrictSchema};
use report_cli::{
    LintLevel, Settings, Stop, Tally, Telling, lines_of, read_document, read_schema, read_settings,
    read_words, sources_of, tell_end, tell_progress,
};
use std::alloc::{AllocError, Global};
use std::mem::forget;
use std::process::ExitCode;

/// A schema over which documents are checked, and what warnings need of it, if they are asked for.
pub(crate) struct OpenSchema<'a> {
    checked: &'a CheckedSchema,
    strict: Option<StrictSchema<'a>>,
}

impl Drop for OpenSchema<'_> {
    fn drop(self) {
        let OpenSchema {
            checked: _,
            strict: _,
        } = self;
    }
}

/// The schema, with what warnings need of it, if they are asked for.
fn open_schema<'a>(
    alloc: Global,
    settings: &Settings,
    schema: &'a CheckedSchema,
) -> Result<OpenSchema<'a>, AllocError> {
    let strict = match settings.lints {
        LintLevel::Allow => None,
        LintLevel::Warn | LintLevel::Deny => Some(StrictSchema::new(alloc, schema.schema())?),
    };
    Ok(OpenSchema {
        checked: schema,
        strict,
    })
}

/// The schema of the texts, if they are read and every rule on schemas holds.
fn schema_of(alloc: Global, texts: &[String], nesting: usize) -> Result<CheckedSchema, Refusal> {
    let mut checker = Checker::new(alloc, Limits { nesting });
    for text in texts {
        checker.add_schema(text)?;
    }
    checker.finish()
}

/// The faults of the refusal.
fn faults_of(refusal: &Refusal) -> Result<&DiagnosticList, Stop> {
    match refusal {
        Refusal::Faults(faults) => Ok(faults),
        Refusal::Memory | Refusal::Failed => Err(Stop::Memory),
    }
}

/// The path of the schema's first text, under which what has no place is told.
fn schema_path<'a>(telling: &Telling<'a>) -> &'a str {
    match telling.schemas.first() {
        Some(source) => source.path,
        None => "schema",
    }
}

/// Why the schema is refused.
fn report_of_schema(
    alloc: Global,
    telling: &Telling<'_>,
    refusal: &Refusal,
) -> Result<Report, Stop> {
    let faults = faults_of(refusal)?;
    let path = schema_path(telling);
    let report = Report::new(alloc, faults, telling.schemas, None, path)?;
    Ok(report)
}

/// Tells why the schema is refused.
fn tell_schema(
    rt: &HostRuntime,
    telling: &Telling<'_>,
    refusal: &Refusal,
    tally: &mut Tally,
) -> Result<(), Stop> {
    let report = report_of_schema(rt.alloc(), telling, refusal)?;
    tally.add_schema();
    telling.tell(rt, None, Severity::Error, report.entries(), tally)
}

/// The warnings about a document that is accepted, if they are asked for.
fn warnings_of(
    alloc: Global,
    telling: &Telling<'_>,
    schema: &OpenSchema<'_>,
    checked: &CheckedDocument<'_>,
    path: &str,
    text: &str,
) -> Result<Option<Report>, AllocError> {
    let Some(strict) = &schema.strict else {
        return Ok(None);
    };
    let document = checked.document();
    let report = Report::of_warnings(alloc, strict, document, telling.schemas, path, text)?;
    Ok(Some(report))
}

/// The warnings about the schema, if they are asked for.
fn schema_warnings(
    alloc: Global,
    telling: &Telling<'_>,
    schema: &OpenSchema<'_>,
) -> Result<Option<Report>, AllocError> {
    let Some(strict) = &schema.strict else {
        return Ok(None);
    };
    let path = schema_path(telling);
    let report = Report::of_schema_warnings(alloc, strict, telling.schemas, path)?;
    Ok(Some(report))
}

/// The entries of the report, if there is one.
fn entries_of(report: &Option<Report>) -> &[Entry] {
    match report {
        None => &[],
        Some(report) => report.entries(),
    }
}

/// Checks the document in a file, and tells its faults or warnings.
fn check_document(
    rt: &HostRuntime,
    telling: &Telling<'_>,
    schema: &OpenSchema<'_>,
    path: &str,
    tally: &mut Tally,
) -> Result<(), Stop> {
    let Some(text) = read_document(rt, telling.settings, path, tally)? else {
        return Ok(());
    };
    match schema.checked.check(&text) {
        Ok(checked) => {
            tally.add_accepted();
            let report = warnings_of(rt.alloc(), telling, schema, &checked, path, &text)?;
            let warnings = entries_of(&report);
            telling.tell(rt, Some(path), Severity::Warning, warnings, tally)
        }
        Err(refusal) => {
            let faults = faults_of(&refusal)?;
            let report = Report::of_document(
                rt.alloc(),
                faults,
                telling.schemas,
                schema.checked.schema(),
                path,
                &text,
            )?;
            tally.add_refused();
            telling.tell(rt, Some(path), Severity::Error, report.entries(), tally)
        }
    }
}

/// Tells that the schema is accepted, and the warnings about it. A batch begins with a line of JSON for them, if they are asked for.
fn tell_accepted(
    rt: &HostRuntime,
    telling: &Telling<'_>,
    schema: &OpenSchema<'_>,
    tally: &mut Tally,
) -> Result<(), Stop> {
    if telling.settings.batch {
        return match &schema.strict {
            None => Ok(()),
            Some(_) => answer_schema(rt, telling, schema, "null", tally),
        };
    }
    let report = schema_warnings(rt.alloc(), telling, schema)?;
    telling.tell(rt, None, Severity::Warning, entries_of(&report), tally)
}

/// Tells that the schema is accepted, and checks the documents that are asked for, each by itself.
fn check_documents(
    rt: &HostRuntime,
    telling: &Telling<'_>,
    schema: &CheckedSchema,
    tally: &mut Tally,
) -> Result<(), Stop> {
    let schema = &open_schema(rt.alloc(), telling.settings, schema)?;
    tell_accepted(rt, telling, schema, tally)?;
    for (done, path) in telling.settings.documents.iter().enumerate() {
        tell_progress(rt, telling.settings, done);
        check_document(rt, telling, schema, path, tally)?;
    }
    if telling.settings.batch {
        check_batch(rt, telling, schema, tally)?;
    }
    Ok(())
}

/// Checks the schema, and then what is asked for.
fn check(rt: &HostRuntime, settings: &Settings, tally: &mut Tally) -> Result<(), Stop> {
    let texts = read_schema(rt, settings)?;
    let lines = lines_of(rt.alloc(), &texts)?;
    let sources = sources_of(rt.alloc(), &settings.schemas, &lines)?;
    let telling = Telling {
        settings,
        schemas: &sources,
    };
    match schema_of(rt.alloc(), &texts, settings.nesting) {
        Ok(schema) => {
            let checked = check_documents(rt, &telling, &schema, tally);
            // The process ends then, so its memory is not given back part by part.
            forget(schema);
            checked
        }
        Err(refusal) => tell_schema(rt, &telling, &refusal, tally),
    }
}

/// Checks what the words ask for, tells last how much was found, and gives the status.
fn status(rt: &HostRuntime, words: &[String]) -> u8 {
    let settings = match read_settings(rt, words) {
        Ok(settings) => settings,
        Err(status) => return status,
    };
    let mut tally = Tally::new(
        settings.lints,
        settings.documents.is_empty() && !settings.batch,
    );
    let done = check(rt, &settings, &mut tally);
    tell_end(rt, &settings, tally, done)
}

fn main(rt: HostRuntime) -> ExitCode {
    let status = match read_words(&rt) {
        Ok(words) => status(&rt, &words),
        Err(status) => status,
    };
    ExitCode::from(status)
}
