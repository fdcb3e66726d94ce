//! Rows of the forms of a fault, or of a warning.

use report_forms::{Entry, Excerpt, Place, Position, Related, Severity};
use row_files::{Case, Problem, Tally, Way, compare, number, says, text_of};
use std::alloc::{AllocError, Global};

/// Judges the fault that the row has, in the form that the call names.
pub(crate) fn by_form(alloc: Global, case: Case<'_>, tally: &mut Tally) -> Result<(), Problem> {
    let entry = entry_of(alloc, case)?;
    let formed = formed(alloc, case.call, &entry)?;
    tally.answer.text.put(&formed);
    tally.answer.status.put("0");
    compare(case, Way::whole(case.call, &[], 500), tally)
}

/// The fault that the row has, or the warning.
fn entry_of(alloc: Global, case: Case<'_>) -> Result<Entry, Problem> {
    let path = input(case, 0)?;
    let mut entry = Entry::at(alloc, &[], path, None)?;
    if says(case.row, "severity", "warning")? {
        entry.severity = Severity::Warning;
    }
    entry.rule = "Rule";
    entry.message = String::from_str(alloc, input(case, 1)?)?;
    add_place(alloc, case, &mut entry)?;
    add_others(alloc, case, &mut entry)?;
    Ok(entry)
}

/// Adds the place that the row has, with its line, if it names a line.
fn add_place(alloc: Global, case: Case<'_>, entry: &mut Entry) -> Result<(), Problem> {
    entry.place = place_of(case)?;
    if entry.place.is_none() {
        return Ok(());
    }
    let before = input(case, 2)?;
    let marked = input(case, 3)?;
    let after = input(case, 4)?;
    entry.excerpt = Some(Excerpt {
        before: String::from_str(alloc, before)?,
        marked: String::from_str(alloc, marked)?,
        after: String::from_str(alloc, after)?,
    });
    Ok(())
}

/// Adds the other place and the hint that the row has.
fn add_others(alloc: Global, case: Case<'_>, entry: &mut Entry) -> Result<(), Problem> {
    if case.given.inputs.len() > 5 {
        let path = String::from_str(alloc, &entry.path)?;
        let words = String::from_str(alloc, input(case, 5)?)?;
        let start = None;
        entry.related.push(Related { path, start, words })?;
    }
    if case.given.inputs.len() > 6 {
        entry.hint = Some(String::from_str(alloc, input(case, 6)?)?);
    }
    Ok(())
}

/// The place that the row has, if it names a line.
fn place_of(case: Case<'_>) -> Result<Option<Place>, Problem> {
    let row = case.row;
    let line = number(row, "at", "0")?;
    if line == 0 {
        return Ok(None);
    }
    let column = number(row, "column", "1")?;
    let length = number(row, "length", "1")?;
    let start = Position { line, column };
    let end = Position {
        line,
        column: column.saturating_add(length),
    };
    Ok(Some(Place {
        start,
        end,
        offset: number(row, "offset", "0")?,
        length,
    }))
}

/// The input of this number, or the empty text.
fn input(case: Case<'_>, index: usize) -> Result<&str, Problem> {
    match case.given.inputs.get(index) {
        None => Ok(""),
        Some(bytes) => text_of(case, bytes),
    }
}

/// The entry in the form of this name.
fn formed(alloc: Global, form: &str, entry: &Entry) -> Result<String, AllocError> {
    match form {
        "text" => entry.text(alloc),
        "json" => entry.json(alloc),
        "github" => entry.github(alloc),
        _ => entry.short(alloc),
    }
}
