//! A program of rows: it judges the rows of the files that its words name, tells each answer that is not as its row wants
//! it, and then how many those are; on standard error it counts files, rows and answers.

use crate::calls::{Calls, call_of};
use crate::case::{Case, Tally, tell_place};
use crate::given::Given;
use crate::problem::Problem;
use crate::row_file::{Field, Row, body, fields_of};
use std::alloc::Global;
use std::fs;
use std::process::ExitCode;

/// Judges the files that the words name by these calls, and prints what there is to tell. The status is 0 if there are
/// rows and each is as it must be, 1 if not, and 2 if they are not judged.
pub fn judge_files<C: Calls>(rt: &HostRuntime, calls: &C) -> ExitCode {
    let mut tally = Tally::new(rt.alloc());
    judge_words(rt, calls, &mut tally);
    tell_differences(&mut tally);
    print_counts(rt, &tally);
    let told = tally.told.as_str();
    if print!(rt; "{told}").is_err() {
        return ExitCode::from(2);
    }
    ExitCode::from(status_of(&tally))
}

/// The status of what was judged.
fn status_of(tally: &Tally) -> u8 {
    if tally.is_stopped || tally.told.is_refused() {
        2
    } else if tally.rows == 0 || tally.differences > 0 {
        1
    } else {
        0
    }
}

/// Judges the files that the words name.
fn judge_words<C: Calls>(rt: &HostRuntime, calls: &C, tally: &mut Tally) {
    match std::env::args(rt) {
        Ok(words) => {
            for file in words.skip(1) {
                judge_file(rt, calls, &file, tally);
            }
        }
        Err(_) => tally.is_stopped = true,
    }
}

/// Reads the file and judges its rows. If it is not as it must be, that is told.
fn judge_file<C: Calls>(rt: &HostRuntime, calls: &C, file: &str, tally: &mut Tally) {
    let judged = match fs::read_to_string(rt, file) {
        Ok(text) => judge_text(rt.alloc(), calls, file, &text, tally),
        Err(_) => Err(Problem::Device),
    };
    match judged {
        Ok(()) => tally.files = tally.files.saturating_add(1),
        Err(problem) => {
            tally.is_stopped = true;
            tell_place(file, problem.line(), problem.what(), &mut tally.told);
        }
    }
}

/// Judges the rows of a file's text.
fn judge_text<C: Calls>(
    alloc: Global,
    calls: &C,
    file: &str,
    text: &str,
    tally: &mut Tally,
) -> Result<(), Problem> {
    let fields = fields_of(alloc, text)?;
    judge_fields(alloc, calls, file, &fields, tally)
}

/// Judges the rows that the fields make, which begin with a head.
fn judge_fields<C: Calls>(
    alloc: Global,
    calls: &C,
    file: &str,
    fields: &[Field<'_>],
    tally: &mut Tally,
) -> Result<(), Problem> {
    let mut common = body(fields, 0);
    if let Some(field) = common.first() {
        return Err(field.problem("a field stands before the first row"));
    }
    for (index, head) in fields.iter().enumerate() {
        let own = body(fields, index.saturating_add(1));
        if head.name == "common" {
            common = own;
        } else if head.name == "row" {
            let head = *head;
            judge_row(alloc, calls, file, Row { head, common, own }, tally)?;
        }
    }
    Ok(())
}

/// Judges the row.
fn judge_row<C: Calls>(
    alloc: Global,
    calls: &C,
    file: &str,
    row: Row<'_>,
    tally: &mut Tally,
) -> Result<(), Problem> {
    let call = call_of(calls, row)?;
    let status = row.needed("status")?.value;
    let mut given = Given::new(alloc);
    given.add(alloc, row)?;
    let case = Case {
        file,
        row,
        call,
        given: &given,
        status,
        out: given.out.as_slice(),
    };
    judge_case(alloc, calls, case, tally)
}

/// Judges what the row wants, which must be at least one answer.
fn judge_case<C: Calls>(
    alloc: Global,
    calls: &C,
    case: Case<'_>,
    tally: &mut Tally,
) -> Result<(), Problem> {
    let answers = tally.answers;
    tally.is_row_told = false;
    calls.judge(alloc, case, tally)?;
    if tally.answers == answers {
        return Err(case.row.head.problem("the row asks for no answer"));
    }
    tally.rows = tally.rows.saturating_add(1);
    Ok(())
}

/// Tells how many answers are not as their rows want them, if all rows were judged.
fn tell_differences(tally: &mut Tally) {
    if !tally.is_stopped {
        tally
            .told
            .show_between("", &tally.differences, " differences\n");
    }
}

/// Prints on standard error how much was judged, so that a row that is added changes nothing on standard output.
fn print_counts(rt: &HostRuntime, tally: &Tally) {
    let files = tally.files;
    let rows = tally.rows;
    let answers = tally.answers;
    let _ = eprintln!(rt; "{files} files, {rows} rows, {answers} answers");
}
