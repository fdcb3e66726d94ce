//! The lines of a batch, and the answers to them.

use crate::answers::{
    accepted_line, refused_line, schema_accepted_line, schema_refused_line, warnings_members,
    wrong_line,
};
use crate::asked::{Asked, Why, request_of};
use crate::files::{Stop, put, reason_of, unread};
use crate::settings::{LintLevel, Settings};
use crate::tally::Tally;
use crate::telling::tell_cut;
use report_forms::{Entry, Severity};
use std::alloc::{AllocError, Global};
use std::io;

/// What a line of standard input asks for.
pub fn read_request(rt: &HostRuntime, line: io::Result<String>) -> Result<Asked, Stop> {
    match line {
        Ok(line) => Ok(request_of(rt.alloc(), &line)?),
        Err(error) if error.kind() == io::ErrorKind::InvalidData => Ok(Asked::Wrong {
            id: None,
            why: Why::NotUtf8,
        }),
        Err(error) => {
            let reason = reason_of(rt.alloc(), error)?;
            unread(rt, "-", &reason)?;
            Err(Stop::Unread)
        }
    }
}

/// Answers the line of this number, which asks for nothing that can be done.
pub fn answer_wrong(
    rt: &HostRuntime,
    number: usize,
    id: Option<&str>,
    why: Why,
    tally: &mut Tally,
) -> Result<(), Stop> {
    tally.add_unread();
    let line = wrong_line(rt.alloc(), id, number, why)?;
    put(rt, &line)
}

/// Answers that a document is accepted, how it is written, and with as many of its warnings as are asked for.
pub fn answer_accepted(
    rt: &HostRuntime,
    settings: &Settings,
    id: &str,
    written: &str,
    warnings: &[Entry],
    tally: &mut Tally,
) -> Result<(), Stop> {
    tally.add_accepted();
    let members = members_of(rt, settings, warnings, tally)?;
    let line = accepted_line(rt.alloc(), id, written, &members)?;
    put(rt, &line)
}

/// Counts the warnings. The members for as many as are asked for, if warnings are told.
fn members_of(
    rt: &HostRuntime,
    settings: &Settings,
    warnings: &[Entry],
    tally: &mut Tally,
) -> Result<String, AllocError> {
    tally.add_told(Severity::Warning, warnings.len());
    tell_cut(rt, settings, Severity::Warning, warnings.len());
    if matches!(settings.lints, LintLevel::Allow) {
        return Ok(String::new(rt.alloc()));
    }
    let (told, left_out) = warnings.split_at(warnings.len().min(settings.max_faults));
    let told = objects(rt.alloc(), told)?;
    warnings_members(rt.alloc(), &told, left_out.len())
}

/// Answers that a document is refused, with as many of its faults as are asked for.
pub fn answer_refused(
    rt: &HostRuntime,
    settings: &Settings,
    id: &str,
    entries: &[Entry],
    tally: &mut Tally,
) -> Result<(), Stop> {
    tally.add_refused();
    let (faults, left_out) = faults_of(rt, settings, entries, tally)?;
    let line = refused_line(rt.alloc(), id, &faults, left_out)?;
    put(rt, &line)
}

/// Answers that a schema is accepted, with as many of its warnings as are asked for.
pub fn answer_schema_accepted(
    rt: &HostRuntime,
    settings: &Settings,
    id: &str,
    warnings: &[Entry],
    tally: &mut Tally,
) -> Result<(), Stop> {
    let members = members_of(rt, settings, warnings, tally)?;
    let line = schema_accepted_line(rt.alloc(), id, &members)?;
    put(rt, &line)
}

/// Answers that a schema is refused, with as many of its faults as are asked for.
pub fn answer_schema_refused(
    rt: &HostRuntime,
    settings: &Settings,
    id: &str,
    entries: &[Entry],
    tally: &mut Tally,
) -> Result<(), Stop> {
    tally.add_refused_schema();
    let (faults, left_out) = faults_of(rt, settings, entries, tally)?;
    let line = schema_refused_line(rt.alloc(), id, &faults, left_out)?;
    put(rt, &line)
}

/// Counts the faults. As many as are asked for, as JSON, and how many more there are.
fn faults_of(
    rt: &HostRuntime,
    settings: &Settings,
    entries: &[Entry],
    tally: &mut Tally,
) -> Result<(String, usize), AllocError> {
    tally.add_told(Severity::Error, entries.len());
    tell_cut(rt, settings, Severity::Error, entries.len());
    let (told, left_out) = entries.split_at(entries.len().min(settings.max_faults));
    let faults = objects(rt.alloc(), told)?;
    Ok((faults, left_out.len()))
}

/// The entries as JSON, with a comma between each two.
fn objects(alloc: Global, entries: &[Entry]) -> Result<String, AllocError> {
    let mut objects = String::new(alloc);
    let mut separator = "";
    for entry in entries {
        let object = entry.object(alloc)?;
        write!(objects, "{separator}{object}")?;
        separator = ",";
    }
    Ok(objects)
}
