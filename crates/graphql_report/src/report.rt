//! Reports.

ghost use Rattle.std.specs.Prelude.{◌≡◌, ◌++◌, ◌∷◌, [], IfOk};
ghost use Rattle.graphql_faults.specs.DetailsView.{diagnostics_of};
ghost use Rattle.graphql_report.specs.Reports.{IsReport, IsDocumentReport};

use crate::entries::entry_of;
use crate::hints::Hints;
use graphql_faults::DiagnosticList;
use graphql_schema::Schema;
use report_forms::{Entry, Lines, Source, order_of};
use std::alloc::{AllocError, Global};
use std::marker::Model;

/// What is told of faults or warnings, in the order of texts and places, those without a place first.
///
/// A contract sees it as its entries.
pub struct Report {
    pub(crate) entries: Vec<Entry>,
}

impl Drop for Report {
    fn drop(self) {
        let Report { entries: _ } = self;
    }
}

impl Model for Report {
    ghost use Rattle.std.specs.Prelude.{List, ⊤};
    ghost use Rattle.report_forms.specs.declared.entry.Entry.{Entry};

    ghost Value = { List Entry };

    ghost view = { λ r. r.entries.items };

    ghost invariant = { λ r. ⊤ };
}

impl Report {
    /// The report of the faults. Text `n` is the `n`-th source; `path` is the name for faults without a place. Names that
    /// may be meant are taken from the schema, if there is one.
    #[tactic(auto, using(crate::proofs::Reporting::rank_within, crate::proofs::Reporting::entries_more, crate::proofs::Reporting::all_reported))]
    pub fn new(
        alloc: Global,
        faults: &DiagnosticList,
        sources: &[Source<'_>],
        schema: Option<&Schema>,
        path: &str,
    ) -> Result<Report, AllocError>
        ensures { IfOk result (λ report. IsReport sources.now path.now (diagnostics_of faults.now) report) }
    {
        let told = faults.iter().as_slice();
        let ranks = order_of(alloc, told)?;
        let mut hints = Hints::new(alloc, sources, schema.is_some())?;
        let mut entries = Vec::new(alloc);
        for rank in &ranks {
            let fault = &told[rank.told];
            let entry = entry_of(alloc, &mut hints, sources, schema, path, fault)?;
            entries.push(entry)?;
        }
        Ok(Report { entries })
    }

    /// The report of the faults of a document at that path, over a schema of these texts: its own text comes after them.
    #[tactic(auto, using(crate::proofs::InOperations::document_report))]
    pub fn of_document(
        alloc: Global,
        faults: &DiagnosticList,
        schemas: &[Source<'_>],
        schema: &Schema,
        path: &str,
        text: &str,
    ) -> Result<Report, AllocError>
        ensures { IfOk result (IsDocumentReport schemas.now path.now text.now (diagnostics_of faults.now)) }
    {
        let lines = Lines::new(alloc, text)?;
        let document = Source {
            path,
            lines: &lines,
        };
        let sources = with_document(alloc, schemas, document)?;
        let report = Report::new(alloc, faults, &sources, Some(schema), path)?;
        Ok(report)
    }

    /// What is told, an entry for each fault or warning.
    pub fn entries(&self) -> &[Entry]
        ensures { result.now ≡ self.now }
    {
        &self.entries
    }
}

/// The texts of a schema, and after them that of a document.
pub(crate) fn with_document<'a>(
    alloc: Global,
    schemas: &[Source<'a>],
    document: Source<'a>,
) -> Result<Vec<Source<'a>>, AllocError>
    ensures { IfOk result (λ sources. sources.items ≡ schemas.now ++ document.entry ∷ []) }
{
    let mut sources = Vec::from_slice(alloc, schemas)?;
    sources.push(document)?;
    Ok(sources)
}
