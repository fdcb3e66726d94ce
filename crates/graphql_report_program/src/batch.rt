//! Documents as lines of JSON, and other schemas between them.

use crate::{
    OpenSchema, entries_of, faults_of, open_schema, report_of_schema, schema_of, schema_warnings,
    warnings_of,
};
use graphql_checked::{Layout, Refusal};
use graphql_report::Report;
use report_cli::{
    Asked, Request, SchemaRequest, Settings, Stop, Tally, Telling, Why, answer_accepted,
    answer_refused, answer_schema_accepted, answer_schema_refused, answer_wrong, lines_of,
    read_request, schema_paths, sources_of,
};
use std::io::{BufRead, BufReader, Lines, Stdin};

/// The lines of standard input.
type InputLines = Lines<BufReader<Stdin>>;

/// Answers each line of standard input but blank ones by a line on standard output, in order: over this schema, or over the last that
/// a line before it opened.
pub(crate) fn check_batch(
    rt: &HostRuntime,
    telling: &Telling<'_>,
    schema: &OpenSchema<'_>,
    tally: &mut Tally,
) -> Result<(), Stop> {
    let Ok(reader) = BufReader::new(rt.alloc(), rt.stdin()) else {
        return Err(Stop::Memory);
    };
    let mut lines = reader.lines(rt.alloc());
    let mut number = 0usize;
    let next = answer_lines(rt, telling, Some(schema), &mut lines, &mut number, tally)?;
    answer_others(rt, telling.settings, next, &mut lines, &mut number, tally)
}

/// Opens this schema, if there is one, and each that is asked for later, and answers the lines after it.
fn answer_others(
    rt: &HostRuntime,
    settings: &Settings,
    first: Option<SchemaRequest>,
    lines: &mut InputLines,
    number: &mut usize,
    tally: &mut Tally,
) -> Result<(), Stop> {
    let mut next = first;
    // each round reads a line, or is the last
    for _ in 0..u64::MAX {
        let Some(request) = next else {
            return Ok(());
        };
        next = answer_over(rt, settings, &request, lines, number, tally)?;
    }
    Ok(())
}

/// Opens the schema, answers the line that asks for it, and the lines after it, up to one that asks for another: that one, if there is
/// one.
fn answer_over(
    rt: &HostRuntime,
    settings: &Settings,
    request: &SchemaRequest,
    lines: &mut InputLines,
    number: &mut usize,
    tally: &mut Tally,
) -> Result<Option<SchemaRequest>, Stop> {
    let paths = schema_paths(rt.alloc(), request.texts.len())?;
    let text_lines = lines_of(rt.alloc(), &request.texts)?;
    let sources = sources_of(rt.alloc(), &paths, &text_lines)?;
    let telling = Telling {
        settings,
        schemas: &sources,
    };
    // The prover wants few owned values in a function, and none in that with the loop.
    answer_opened(rt, &telling, request, lines, number, tally)
}

/// Opens the schema of this request, whose texts are those of `telling`, and answers as [`answer_over`] does.
fn answer_opened(
    rt: &HostRuntime,
    telling: &Telling<'_>,
    request: &SchemaRequest,
    lines: &mut InputLines,
    number: &mut usize,
    tally: &mut Tally,
) -> Result<Option<SchemaRequest>, Stop> {
    match schema_of(rt.alloc(), &request.texts, telling.settings.nesting) {
        Ok(schema) => {
            let schema = open_schema(rt.alloc(), telling.settings, &schema)?;
            answer_schema(rt, telling, &schema, &request.id, tally)?;
            answer_lines(rt, telling, Some(&schema), lines, number, tally)
        }
        Err(refusal) => {
            answer_refusal(rt, telling, &request.id, &refusal, tally)?;
            answer_lines(rt, telling, None, lines, number, tally)
        }
    }
}

/// Answers that the schema is accepted, with the warnings about it.
pub(crate) fn answer_schema(
    rt: &HostRuntime,
    telling: &Telling<'_>,
    schema: &OpenSchema<'_>,
    id: &str,
    tally: &mut Tally,
) -> Result<(), Stop> {
    let report = schema_warnings(rt.alloc(), telling, schema)?;
    answer_schema_accepted(rt, telling.settings, id, entries_of(&report), tally)
}

/// Answers that the schema is refused, and why.
fn answer_refusal(
    rt: &HostRuntime,
    telling: &Telling<'_>,
    id: &str,
    refusal: &Refusal,
    tally: &mut Tally,
) -> Result<(), Stop> {
    let report = report_of_schema(rt.alloc(), telling, refusal)?;
    answer_schema_refused(rt, telling.settings, id, report.entries(), tally)
}

/// Answers the lines, up to one that asks for a schema: that one, if there is one. No schema is open where there is none.
fn answer_lines(
    rt: &HostRuntime,
    telling: &Telling<'_>,
    schema: Option<&OpenSchema<'_>>,
    lines: &mut InputLines,
    number: &mut usize,
    tally: &mut Tally,
) -> Result<Option<SchemaRequest>, Stop> {
    for line in lines {
        *number = number.saturating_add(1);
        match read_request(rt, line)? {
            Asked::Schema(request) => return Ok(Some(request)),
            asked => answer_line(rt, telling, schema, &asked, *number, tally)?,
        }
    }
    Ok(None)
}

/// Answers the line of this number, which asks for this, unless it is blank, or asks for a schema.
fn answer_line(
    rt: &HostRuntime,
    telling: &Telling<'_>,
    schema: Option<&OpenSchema<'_>>,
    asked: &Asked,
    number: usize,
    tally: &mut Tally,
) -> Result<(), Stop> {
    match asked {
        Asked::Document(request) => match schema {
            Some(schema) => answer(rt, telling, schema, request, tally),
            None => answer_wrong(rt, number, Some(&request.id), Why::NoSchema, tally),
        },
        Asked::Wrong { id, why } => answer_wrong(rt, number, id.as_deref(), *why, tally),
        Asked::Blank | Asked::Schema(_) => Ok(()),
    }
}

/// Answers a line that asks for a document, over the schema that is open.
fn answer(
    rt: &HostRuntime,
    telling: &Telling<'_>,
    schema: &OpenSchema<'_>,
    request: &Request,
    tally: &mut Tally,
) -> Result<(), Stop> {
    let text = request.document.as_str();
    match schema.checked.check(text) {
        Ok(checked) => {
            let written = checked.written(Layout::OneLine)?;
            let report = warnings_of(rt.alloc(), telling, schema, &checked, "document", text)?;
            let warnings = entries_of(&report);
            answer_accepted(rt, telling.settings, &request.id, &written, warnings, tally)
        }
        Err(refusal) => {
            let faults = faults_of(&refusal)?;
            let report = Report::of_document(
                rt.alloc(),
                faults,
                telling.schemas,
                schema.checked.schema(),
                "document",
                text,
            )?;
            answer_refused(rt, telling.settings, &request.id, report.entries(), tally)
        }
    }
}
