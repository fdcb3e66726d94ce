//! Rows that are judged by `run`, over readers and a writer that pass on few bytes a call, and that end.

use crate::asked::{Asked, asked_of};
use crate::checks::Checks;
use crate::devices::{failed_reader, push_end, readers};
use crate::judged::Judged;
use row_files::{
    Answer, Case, Lines, Plan, Problem, Tally, Way, compare_cut, device, reader, says,
};
use std::alloc::AllocError;

/// Judges the row by `run`, with each of its plans.
pub(crate) fn by_run<C: Checks>(
    judged: &Judged<'_, C>,
    way: Way<'_>,
    tally: &mut Tally,
) -> Result<(), Problem> {
    let is_each = says(judged.case.row, "read", "each")?;
    for plan in &judged.case.given.plans {
        let way = Way {
            call: "run",
            plan: *plan,
            ..way
        };
        by_plan(judged, way, tally)?;
        if is_each && plan.write == judged.case.out.len() {
            readers_end(judged, way, tally)?;
        }
    }
    Ok(())
}

/// The reader of each text ends after each number of bytes, and at its end: nothing is written.
fn readers_end<C: Checks>(
    judged: &Judged<'_, C>,
    way: Way<'_>,
    tally: &mut Tally,
) -> Result<(), Problem> {
    let schemas = judged.case.given.schemas.as_slice();
    for text in 1..=schemas.len().saturating_add(1) {
        let bytes = match schemas.get(text.saturating_sub(1)) {
            Some(schema) => schema.len(),
            None => way.document.len(),
        };
        for read in 0..=bytes {
            let plan = Plan {
                text,
                read,
                write: 0,
                ..way.plan
            };
            reader_ends(judged, Way { plan, ..way }, tally)?;
        }
    }
    Ok(())
}

/// The reader of the plan's text ends.
fn reader_ends<C: Checks>(
    judged: &Judged<'_, C>,
    way: Way<'_>,
    tally: &mut Tally,
) -> Result<(), Problem> {
    let text = way.plan.text;
    let mut status = Lines::new(judged.alloc);
    status.show_between("3 file ", &text, " cannot be read");
    let case = Case {
        status: status.as_str(),
        out: &[],
        ..judged.case
    };
    let wanted = Judged { case, ..*judged };
    by_plan(&wanted, way, tally)
}

/// Judges the answer with the plan.
fn by_plan<C: Checks>(
    judged: &Judged<'_, C>,
    way: Way<'_>,
    tally: &mut Tally,
) -> Result<(), Problem> {
    let asked = asked_of(judged.case, way)?;
    run_by(judged, way, asked, &mut tally.answer)?;
    compare_cut(judged.alloc, judged.case, way, tally)
}

/// Runs with the way's plan, and adds the output and the status of that.
fn run_by<C: Checks>(
    judged: &Judged<'_, C>,
    way: Way<'_>,
    asked: Asked,
    told: &mut Answer,
) -> Result<(), AllocError> {
    let plan = way.plan;
    let texts = judged.case.given.schemas.as_slice();
    let mut document = reader(way.document, plan, texts.len().saturating_add(1));
    let mut schemas = readers(judged.alloc, texts, plan)?;
    let mut writer = device(&mut told.written, plan, plan.write);
    let answer = judged
        .checks
        .run(&mut schemas, &mut document, asked, &mut writer);
    let failed = (failed_reader(&schemas, document.failed()), writer.failed());
    push_end(answer, failed, &mut told.status);
    Ok(())
}
