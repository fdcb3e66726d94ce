//! Warnings about schemas and documents that are accepted.

ghost use Rattle.std.specs.Prelude.{◌≡◌, ◌++◌, map, string_bytes, IfOk};
ghost use Rattle.graphql_schema.specs.SchemaOf.{schema_tree};
ghost use Rattle.graphql_faults.specs.DetailsView.{details_at, diagnostics_of};
ghost use Rattle.document_typed_operations.specs.DocumentView.{document_meant};
ghost use Rattle.rule_warnings.specs.Views.{use_tree};
ghost use Rattle.strict_documents.specs.DepartureViews.{departure_tree};
ghost use Rattle.report_forms.specs.Order.{IsOrder};
ghost use Rattle.graphql_report.specs.Alike.{each_once};
ghost use Rattle.graphql_report.specs.Reports.{AreRanked};
ghost use Rattle.graphql_report.specs.Warnings.{name_of, text_of, about_use, about_departure, about_fault, Warns, AreInOrder, TellsTexts, AreDefaultFaults, IsWarningReport, IsSchemaWarningReport};
ghost use Rattle.graphql_report.specs.WarningViews.{about_of, told_at, told_of, told_in, IsFoundInDocument, IsFoundInSchema};

use crate::alike::is_told_by;
use crate::fields::{fields_of, fields_of_departure, fields_of_use};
use crate::report::{Report, with_document};
use crate::told_places::places_of;
use document_typed_operations::ExecutableDocument;
use graphql_faults::{Details, DiagnosticList};
use graphql_names::{FileId, SourceSpan};
use report_forms::{Entry, Field, Lines, Rank, Related, Severity, Source, order_of, related};
use rule_warnings::{DeprecatedUse, deprecated_uses};
use std::alloc::{AllocError, Global};
use strict_documents::{
    Departure, StrictSchema, document_departures, source_characters, tell_characters,
};
use strict_schemas::{default_faults, schema_departures};

/// What a warning is about.
#[derive(Clone, Copy)]
pub(crate) enum Warning<'a> {
    /// A use of what is deprecated.
    OfUse(&'a DeprecatedUse),
    /// What the specification does not allow, and the checker lets pass.
    OfDeparture(&'a Departure),
    /// A fault of a rule that the checker does not ask of a schema.
    OfFault(&'a Details),
}

/// What there is to warn of in a document or a schema.
pub(crate) struct Found {
    pub(crate) uses: Vec<DeprecatedUse>,
    pub(crate) departures: Vec<Departure>,
    /// The characters of the text, or the texts, that no text may have.
    pub(crate) characters: Vec<Departure>,
    pub(crate) faults: DiagnosticList,
}

impl Drop for Found {
    fn drop(self) {
        let Found {
            uses: _,
            departures: _,
            characters: _,
            faults: _,
        } = self;
    }
}

impl Report {
    /// The warnings about an accepted document at that path, over a schema of these texts, after which its own text comes, in the
    /// order of texts and places: uses of what is deprecated, and what the specification does not allow, of each at most 1,000.
    #[tactic(auto, using(crate::proofs::Warning::warning_report))]
    pub fn of_warnings(
        alloc: Global,
        schema: &StrictSchema<'_>,
        document: &ExecutableDocument,
        schemas: &[Source<'_>],
        path: &str,
        text: &str,
    ) -> Result<Report, AllocError>
        ensures { IfOk result (IsWarningReport schemas.now path.now text.now (schema_tree schema.now) (document_meant document.now)) }
    {
        let lines = Lines::new(alloc, text)?;
        let own = Source {
            path,
            lines: &lines,
        };
        let sources = with_document(alloc, schemas, own)?;
        let file = FileId(sources.len() as u64);
        let found = found_in_document(alloc, schema, document, file, text)?;
        let report = report_of(alloc, &sources, path, &found)?;
        Ok(report)
    }

    /// The warnings about an accepted schema of these texts, in the order of texts and places: what the specification does not allow,
    /// and faults of rules that the checker does not ask, of each at most 1,000. `path` is the name for what has no place.
    #[tactic(auto, using(crate::proofs::Warning::schema_report))]
    pub fn of_schema_warnings(
        alloc: Global,
        schema: &StrictSchema<'_>,
        sources: &[Source<'_>],
        path: &str,
    ) -> Result<Report, AllocError>
        ensures { IfOk result (IsSchemaWarningReport sources.now path.now (schema_tree schema.now)) }
    {
        let found = found_in_schema(alloc, schema, sources)?;
        let report = report_of(alloc, sources, path, &found)?;
        Ok(report)
    }
}

/// What there is to warn of in a document, whose text is that of this file.
fn found_in_document(
    alloc: Global,
    schema: &StrictSchema<'_>,
    document: &ExecutableDocument,
    file: FileId,
    text: &str,
) -> Result<Found, AllocError>
    ensures { IfOk result (IsFoundInDocument (schema_tree schema.now) (document_meant document.now) file.0 text.now) }
{
    let uses = deprecated_uses(alloc, &schema.indexed(), document)?;
    let departures = document_departures(alloc, schema, document)?;
    let characters = source_characters(alloc, file, text)?;
    Ok(Found {
        uses,
        departures,
        characters,
        faults: DiagnosticList::new(alloc),
    })
}

/// What there is to warn of in a schema of these texts.
fn found_in_schema(
    alloc: Global,
    schema: &StrictSchema<'_>,
    sources: &[Source<'_>],
) -> Result<Found, AllocError>
    ensures { IfOk result (IsFoundInSchema (schema_tree schema.now) sources.now) }
{
    let departures = schema_departures(alloc, schema.schema())?;
    let characters = characters_of(alloc, sources)?;
    let faults = faults_of(alloc, schema)?;
    Ok(Found {
        uses: Vec::new(alloc),
        departures,
        characters,
        faults,
    })
}

/// The characters of these texts that no text may have, in order, at most 1,000 of them.
fn characters_of(alloc: Global, sources: &[Source<'_>]) -> Result<Vec<Departure>, AllocError>
    ensures { IfOk result (TellsTexts sources.now) }
{
    let mut characters = Vec::new(alloc);
    for (index, source) in sources.iter().enumerate() {
        let file = FileId(index as u64 + 1);
        tell_characters(file, source.lines.text(), &mut characters)?;
    }
    Ok(characters)
}

/// The faults of rules that the checker does not ask of a schema.
fn faults_of(alloc: Global, schema: &StrictSchema<'_>) -> Result<DiagnosticList, AllocError>
    ensures { IfOk result (λ faults. AreDefaultFaults (schema_tree schema.now) (diagnostics_of faults)) }
{
    let mut faults = Vec::new(alloc);
    default_faults(&schema.indexed(), &mut faults)?;
    let mut list = DiagnosticList::new(alloc);
    list.append_faults(faults)?;
    Ok(list)
}

/// The report of what is found: `path` is the name of the text for what has no place.
fn report_of(
    alloc: Global,
    sources: &[Source<'_>],
    path: &str,
    found: &Found,
) -> Result<Report, AllocError>
    ensures { IfOk result (AreInOrder sources.now path.now (told_in found.now)) }
{
    let told = told_in(alloc, found)?;
    let ranks = order_of(alloc, &told)?;
    let entries = entries_of(alloc, sources, path, &told, &ranks)?;
    Ok(Report { entries })
}

/// All that is found, with its places.
fn told_in<'a>(
    alloc: Global,
    found: &'a Found,
) -> Result<Vec<(Option<SourceSpan>, Warning<'a>)>, AllocError>
    ensures { IfOk result (λ told. told_of told ≡ told_in found.now) }
{
    let told = with_uses(Vec::new(alloc), &found.uses)?;
    let told = with_departures(told, &found.departures)?;
    let told = with_departures(told, &found.characters)?;
    with_faults(told, found.faults.iter().as_slice())
}

/// What is told so far, and then these uses.
// It owns the list, so that its lifetime is that of the uses.
fn with_uses<'a>(
    mut told: Vec<(Option<SourceSpan>, Warning<'a>)>,
    uses: &'a [DeprecatedUse],
) -> Result<Vec<(Option<SourceSpan>, Warning<'a>)>, AllocError>
    ensures { IfOk result (λ new. told_of new ≡ told_of told.entry ++ map about_use (map use_tree uses.now)) }
{
    for one in uses {
        told.push((one.location, Warning::OfUse(one)))?;
    }
    Ok(told)
}

/// What is told so far, and then these departures, each once.
fn with_departures<'a>(
    mut told: Vec<(Option<SourceSpan>, Warning<'a>)>,
    departures: &'a [Departure],
) -> Result<Vec<(Option<SourceSpan>, Warning<'a>)>, AllocError>
    ensures { IfOk result (λ new. told_of new ≡ told_of told.entry ++ map about_departure (each_once (map departure_tree departures.now))) }
{
    for (index, one) in departures.iter().enumerate() {
        if !is_told_by(one, &departures[..index]) {
            told.push((one.location, Warning::OfDeparture(one)))?;
        }
    }
    Ok(told)
}

/// What is told so far, and then these faults.
fn with_faults<'a>(
    mut told: Vec<(Option<SourceSpan>, Warning<'a>)>,
    faults: &'a [(Option<SourceSpan>, Details)],
) -> Result<Vec<(Option<SourceSpan>, Warning<'a>)>, AllocError>
    ensures { IfOk result (λ new. told_of new ≡ told_of told.entry ++ map about_fault (map details_at faults.now)) }
{
    for one in faults {
        told.push((one.0, Warning::OfFault(&one.1)))?;
    }
    Ok(told)
}

/// The entries of what is told, in the order of these ranks.
#[tactic(auto, using(crate::proofs::Warning::rank_among, crate::proofs::Warning::warned_more))]
fn entries_of(
    alloc: Global,
    sources: &[Source<'_>],
    path: &str,
    told: &[(Option<SourceSpan>, Warning<'_>)],
    ranks: &[Rank],
) -> Result<Vec<Entry>, AllocError>
    requires { IsOrder (map (λ t. t.0) told.now) ranks.now }
    ensures { IfOk result (λ entries. AreRanked (Warns sources.now path.now) (map told_at told.now) ranks.now entries.items) }
{
    let mut entries = Vec::new(alloc);
    for rank in ranks {
        let entry = warning_of(alloc, sources, path, &told[rank.told])?;
        entries.push(entry)?;
    }
    Ok(entries)
}

/// The entry of a warning. `path` is the name of the text if it has no place.
fn warning_of(
    alloc: Global,
    sources: &[Source<'_>],
    path: &str,
    told: &(Option<SourceSpan>, Warning<'_>),
) -> Result<Entry, AllocError>
    ensures { IfOk result (Warns sources.now path.now (told_at told.now)) }
{
    let (place, warning) = *told;
    let mut entry = Entry::at(alloc, sources, path, place)?;
    entry.severity = Severity::Warning;
    entry.rule = warning.name();
    entry.message = warning.message(alloc)?;
    entry.related = related_of(alloc, sources, place, warning)?;
    entry.fields = warning.fields(alloc)?;
    Ok(entry)
}

/// The places that belong to a warning, apart from its own: those that the data of a fault have.
fn related_of(
    alloc: Global,
    sources: &[Source<'_>],
    own: Option<SourceSpan>,
    warning: Warning<'_>,
) -> Result<Vec<Related>, AllocError> {
    match warning {
        Warning::OfUse(_) | Warning::OfDeparture(_) => Ok(Vec::new(alloc)),
        Warning::OfFault(details) => {
            let noted = places_of(alloc, details)?;
            related(alloc, sources, own, &noted)
        }
    }
}

impl Warning<'_> {
    /// Its name.
    fn name(self) -> &'static str
        ensures { result.now ≡ name_of (about_of self.entry) }
    {
        match self {
            Warning::OfUse(one) => one.kind.warning_name(),
            Warning::OfDeparture(one) => one.kind.warning_name(),
            Warning::OfFault(details) => details.name(),
        }
    }

    /// Its text.
    fn message(self, alloc: Global) -> Result<String, AllocError>
        ensures { IfOk result (λ text. string_bytes text ≡ text_of (about_of self.entry)) }
    {
        match self {
            Warning::OfUse(one) => one.to_string(alloc),
            Warning::OfDeparture(one) => one.to_string(alloc),
            Warning::OfFault(details) => details.to_string(alloc),
        }
    }

    /// The names and texts that it has.
    fn fields(self, alloc: Global) -> Result<Vec<Field>, AllocError> {
        match self {
            Warning::OfUse(one) => fields_of_use(alloc, one),
            Warning::OfDeparture(one) => fields_of_departure(alloc, one),
            Warning::OfFault(details) => fields_of(alloc, details),
        }
    }
}
