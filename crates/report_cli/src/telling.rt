//! Telling faults and warnings in the form that is asked for.

use crate::answers::{document_record, schema_record};
use crate::files::{Stop, put};
use crate::folding::{Printed, folded};
use crate::sarif::{SARIF_HEAD, sarif_result, sarif_results};
use crate::settings::{Format, Settings};
use crate::tally::Tally;
use report_forms::{Entry, Lines, Severity, Source};
use std::alloc::{AllocError, Global};
use std::io::IsTerminal;

/// How many faults of the rules a check tells at most, and how many warnings.
const MOST_TOLD: usize = 1_000;
/// Of more documents than this the progress is told, each time when so many are done.
const MANY: usize = 200;

/// What is asked for, and the texts of the schema.
#[derive(Clone, Copy)]
pub struct Telling<'a> {
    pub settings: &'a Settings,
    pub schemas: &'a [Source<'a>],
}

impl Telling<'_> {
    /// Counts the faults that are told of a document, or of the schema if there is no path, or the warnings, and prints as many
    /// as are asked for. Lines of JSON and results of SARIF are for programs, which fold them as they like: there each has its line.
    /// After lines of JSON the document or the schema has one, also if it is accepted; a log of SARIF begins with the schema.
    pub fn tell(
        &self,
        rt: &HostRuntime,
        document: Option<&str>,
        severity: Severity,
        entries: &[Entry],
        tally: &mut Tally,
    ) -> Result<(), Stop> {
        tell_cut(rt, self.settings, severity, entries.len());
        let most = self.settings.max_faults;
        let first = &entries[..entries.len().min(most)];
        if matches!(self.settings.format, Format::Sarif) {
            if document.is_none() {
                put(rt, SARIF_HEAD)?;
            }
            let is_begun = tally.faults > 0 || tally.warnings > 0;
            let before = if is_begun { ",\n" } else { "\n" };
            tally.add_told(severity, entries.len());
            return put(rt, &sarif_results(rt.alloc(), before, first)?);
        }
        if matches!(self.settings.format, Format::Json) {
            tally.add_told(severity, entries.len());
            for entry in first {
                print_formed(rt, Format::Json, entry)?;
            }
            let record = self.record(rt.alloc(), document, severity, entries.len())?;
            return put(rt, &record);
        }
        let printed = folded(rt.alloc(), entries)?;
        tally.add_told(severity, entries_in(&printed));
        let (told, rest) = printed.split_at(printed.len().min(most));
        self.print_folded(rt, entries, told)?;
        print_more(rt, entries_in(rest), None)
    }

    /// The record of a document, or of the schema if there is no path, of which so many faults or warnings are told.
    fn record(
        &self,
        alloc: Global,
        document: Option<&str>,
        severity: Severity,
        told: usize,
    ) -> Result<String, AllocError> {
        let (faults, warnings) = match severity {
            Severity::Error => (told, 0),
            Severity::Warning => (0, told),
        };
        let warnings = self.settings.lints.counted(warnings);
        match document {
            None => schema_record(alloc, &self.settings.schemas, faults, warnings),
            Some(path) => document_record(alloc, path, faults, warnings),
        }
    }

    /// Prints each entry in its form, and how many it stands for.
    fn print_folded(
        &self,
        rt: &HostRuntime,
        entries: &[Entry],
        printed: &[Printed],
    ) -> Result<(), Stop> {
        for one in printed {
            if let Some(entry) = entries.get(one.index) {
                print_formed(rt, self.settings.format, entry)?;
                print_more(rt, one.more, Some(entry.rule))?;
            }
        }
        Ok(())
    }
}

/// Says on standard error how many of many documents are done, if that is a terminal. The next line takes the place of this one, and
/// is longer.
pub fn tell_progress(rt: &HostRuntime, settings: &Settings, done: usize) {
    let all = settings.documents.len();
    if all > MANY && done > 0 && done % MANY == 0 && !settings.quiet && rt.stderr().is_terminal() {
        let _ = eprint!(rt; "{done} of {all}\r");
    }
}

/// Says on standard error that there may be more faults, if there are as many as a check tells of the rules, or more warnings. Stages
/// that tell more tell all.
pub(crate) fn tell_cut(rt: &HostRuntime, settings: &Settings, severity: Severity, told: usize) {
    if told == MOST_TOLD && !settings.quiet {
        let what = match severity {
            Severity::Error => "faults of the rules",
            Severity::Warning => "warnings",
        };
        let _ = eprintln!(rt; "note: a check tells at most 1,000 {what}: there may be more");
    }
}

/// Says how many entries are left out, if any are: of the rule and the message that were told last, or of all if there is no
/// rule.
fn print_more(rt: &HostRuntime, more: usize, rule: Option<&str>) -> Result<(), Stop> {
    if more == 0 {
        return Ok(());
    }
    let line = match rule {
        Some(rule) => format!(in rt.alloc(); "and {more} more with this message of {rule}\n"),
        None => format!(in rt.alloc(); "and {more} more beyond --max-faults\n"),
    };
    put(rt, &line?)
}

/// How many entries these are, with those that each stands for.
fn entries_in(printed: &[Printed]) -> usize {
    let mut entries = 0usize;
    for one in printed {
        entries = entries.saturating_add(1).saturating_add(one.more);
    }
    entries
}

/// Prints an entry in the form.
fn print_formed(rt: &HostRuntime, format: Format, entry: &Entry) -> Result<(), Stop> {
    let alloc = rt.alloc();
    let formed = match format {
        Format::Text => entry.text(alloc),
        Format::Coloured => entry.coloured(alloc),
        Format::Short => entry.short(alloc),
        Format::Json => entry.json(alloc),
        Format::Github => entry.github(alloc),
        Format::Sarif => sarif_result(alloc, entry),
    };
    put(rt, &formed?)
}

/// The lines of each text.
pub fn lines_of(alloc: Global, texts: &[String]) -> Result<Vec<Lines<'_>>, AllocError> {
    let mut lines = Vec::new(alloc);
    for text in texts {
        lines.push(Lines::new(alloc, text)?)?;
    }
    Ok(lines)
}

/// The texts under their paths.
pub fn sources_of<'a>(
    alloc: Global,
    paths: &'a [String],
    lines: &'a [Lines<'a>],
) -> Result<Vec<Source<'a>>, AllocError> {
    let mut sources = Vec::new(alloc);
    for index in 0..paths.len().min(lines.len()) {
        sources.push(Source {
            path: &paths[index],
            lines: &lines[index],
        })?;
    }
    Ok(sources)
}
