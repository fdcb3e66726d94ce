//! How a refusal is told: as the program does, or as lines of JSON.

ghost use Rattle.std.specs.Prelude.{◌≢◌, length, is_some, IfOk};
ghost use Rattle.graphql_faults.specs.DetailsView.{diagnostics_of};
ghost use Rattle.checker_calls.specs.declared.refusal.Refusal.TheVariants.{Failed};
ghost use Rattle.graphql_checked_c.specs.Json.{AreLines, AreEntries, IsJson};
ghost use Rattle.graphql_checked_c.specs.CallResults.{IsTold, TellsRefusal};

use crate::answer::{Answer, MEMORY, REFUSED, bare};
use crate::held::{HeldText, sources_of};
use checker_calls::refused;
use graphql_checked::{DiagnosticList, Refusal, Schema};
use graphql_report::{Entry, Report, Source};
use std::alloc::{AllocError, Global};

/// The answer for a refusal: of the document at that path, if a schema is given that it is over; else of the texts of a
/// schema, and then `path` is the name for faults without a place.
pub(crate) fn refusal_answer(
    alloc: Global,
    refusal: Refusal,
    json: bool,
    texts: &[HeldText],
    over: Option<&Schema>,
    path: &str,
    document: &str,
) -> Answer
    requires { refusal ≢ Failed }
    ensures { TellsRefusal json (is_some over.entry) texts.now path.now document.now refusal result.status result.bytes.items }
{
    match refusal {
        Refusal::Faults(list) => match told(alloc, &list, json, texts, over, path, document) {
            Ok(bytes) => Answer {
                status: REFUSED,
                bytes,
            },
            Err(AllocError) => bare(alloc, MEMORY),
        },
        Refusal::Memory => bare(alloc, MEMORY),
        Refusal::Failed => unreachable!(),
    }
}

/// The report of the faults.
fn told(
    alloc: Global,
    faults: &DiagnosticList,
    json: bool,
    texts: &[HeldText],
    over: Option<&Schema>,
    path: &str,
    document: &str,
) -> Result<Vec<u8>, AllocError>
    ensures { IfOk result (λ bytes. IsTold json (is_some over.entry) texts.now path.now document.now (diagnostics_of faults.now) bytes.items) }
{
    if json {
        json_of(alloc, faults, texts, over, path, document)
    } else {
        refused(alloc, faults)
    }
}

/// The report of the faults as lines of JSON. Names that may be meant are taken from the schema that the document is over.
#[tactic(auto, using(crate::proofs::JsonLines::json_told))]
fn json_of(
    alloc: Global,
    faults: &DiagnosticList,
    texts: &[HeldText],
    over: Option<&Schema>,
    path: &str,
    document: &str,
) -> Result<Vec<u8>, AllocError>
    ensures { IfOk result (λ bytes. IsJson (is_some over.entry) texts.now path.now document.now (diagnostics_of faults.now) bytes.items) }
{
    let sources = sources_of(alloc, texts)?;
    let report = report_of(alloc, faults, &sources, over, path, document)?;
    json_lines(alloc, report.entries())
}

/// The report of the faults: of a document over the schema that is given, or else of the schema's texts.
fn report_of(
    alloc: Global,
    faults: &DiagnosticList,
    sources: &[Source<'_>],
    over: Option<&Schema>,
    path: &str,
    document: &str,
) -> Result<Report, AllocError>
    ensures { IfOk result (AreEntries (is_some over.entry) sources.now path.now document.now (diagnostics_of faults.now)) }
{
    match over {
        None => Report::new(alloc, faults, sources, None, path),
        Some(over) => Report::of_document(alloc, faults, sources, over, path, document),
    }
}

/// The entries as lines of JSON.
#[tactic(auto, using(crate::proofs::JsonLines::lines_more, crate::proofs::JsonLines::lines_all))]
fn json_lines(alloc: Global, entries: &[Entry]) -> Result<Vec<u8>, AllocError>
    ensures { IfOk result (λ bytes. AreLines (length entries.now) bytes.items) }
{
    let mut lines = String::new(alloc);
    for entry in entries {
        let line = entry.json(alloc)?;
        lines.push_str(&line)?;
    }
    Ok(lines.into_bytes())
}
