//! Rows of schema texts and documents.

use crate::asked::{asked_of, names_of, push_texts};
use crate::by_back::by_back;
use crate::by_run::by_run;
use crate::checks::{Checks, Texts};
use crate::judged::Judged;
use crate::told::Told;
use crate::words::push_verdict;
use row_files::{Calls, Case, Problem, Tally, Way, compare, text_of};
use std::alloc::Global;

/// The calls of a checker.
#[derive(Clone, Copy)]
pub struct Checking<'a, C> {
    pub checks: &'a C,
}

impl<C: Checks> Calls for Checking<'_, C> {
    fn names_of(&self, call: &str) -> Option<&'static [&'static str]> {
        names_of(call)
    }

    fn judge(&self, alloc: Global, case: Case<'_>, tally: &mut Tally) -> Result<(), Problem> {
        let judged = Judged {
            alloc,
            checks: self.checks,
            case,
        };
        by_texts(&judged, tally)
    }
}

/// Judges the row under each of its limits.
fn by_texts<C: Checks>(judged: &Judged<'_, C>, tally: &mut Tally) -> Result<(), Problem> {
    for nesting in &judged.case.given.limits {
        if judged.case.call == "series" {
            by_series(judged, *nesting, tally)?;
        } else {
            by_documents(judged, *nesting, tally)?;
        }
    }
    Ok(())
}

/// Judges the answers of one schema to the row's documents.
fn by_series<C: Checks>(
    judged: &Judged<'_, C>,
    nesting: usize,
    tally: &mut Tally,
) -> Result<(), Problem> {
    let mut schemas = Vec::new(judged.alloc);
    push_texts(judged.case, &judged.case.given.schemas, &mut schemas)?;
    let mut documents = Vec::new(judged.alloc);
    push_texts(judged.case, &judged.case.given.documents, &mut documents)?;
    by_listed(judged, nesting, &schemas, &documents, tally)
}

/// Judges the answers of the schema of these texts to these documents.
fn by_listed<C: Checks>(
    judged: &Judged<'_, C>,
    nesting: usize,
    schemas: &[&str],
    documents: &[&str],
    tally: &mut Tally,
) -> Result<(), Problem> {
    let Some(document) = documents.first() else {
        return Err(judged.case.row.head.problem("a series has documents"));
    };
    let way = Way::whole(judged.case.call, &[], nesting);
    let texts = Texts {
        schemas,
        document,
        following: documents,
        asked: asked_of(judged.case, way)?,
    };
    by_judge(judged, way, texts, tally)
}

/// Judges the row: each of its documents over its schema texts.
fn by_documents<C: Checks>(
    judged: &Judged<'_, C>,
    nesting: usize,
    tally: &mut Tally,
) -> Result<(), Problem> {
    for document in &judged.case.given.documents {
        let way = Way::whole(judged.case.call, document, nesting);
        by_call(judged, way, tally)?;
    }
    Ok(())
}

/// Judges the answer of each call that the row is for.
fn by_call<C: Checks>(
    judged: &Judged<'_, C>,
    way: Way<'_>,
    tally: &mut Tally,
) -> Result<(), Problem> {
    match judged.case.call {
        "run" => by_run(judged, way, tally),
        "all" => by_all(judged, way, tally),
        "back" => {
            judge_call(judged, call_before_back(judged.case.out), way, tally)?;
            judge_back(judged, way, tally)
        }
        _ => judge_call(judged, judged.case.call, way, tally),
    }
}

/// Judges the answer of each call, and the road back.
fn by_all<C: Checks>(
    judged: &Judged<'_, C>,
    way: Way<'_>,
    tally: &mut Tally,
) -> Result<(), Problem> {
    by_run(judged, way, tally)?;
    judge_call(judged, "calls", way, tally)?;
    judge_call(judged, "check_texts", way, tally)?;
    judge_back(judged, way, tally)
}

/// Judges the texts by a call that takes them all at once.
fn judge_call<C: Checks>(
    judged: &Judged<'_, C>,
    call: &str,
    way: Way<'_>,
    tally: &mut Tally,
) -> Result<(), Problem> {
    let way = Way { call, ..way };
    let document = text_of(judged.case, way.document)?;
    let asked = asked_of(judged.case, way)?;
    let mut schemas = Vec::new(judged.alloc);
    push_texts(judged.case, &judged.case.given.schemas, &mut schemas)?;
    let texts = Texts {
        schemas: schemas.as_slice(),
        document,
        following: &[],
        asked,
    };
    by_whole(judged, way, texts, tally)
}

/// Judges the answer of `check_texts`, the one call by call, or the road back. `check_texts` writes no texts: if they
/// are accepted, the row's first line is wanted.
fn by_whole<C: Checks>(
    judged: &Judged<'_, C>,
    way: Way<'_>,
    texts: Texts<'_>,
    tally: &mut Tally,
) -> Result<(), Problem> {
    match way.call {
        "calls" | "lent" => by_judge(judged, way, texts, tally),
        "back" => by_back(judged, way, texts, tally),
        _ => {
            push_verdict(&judged.checks.check_texts(texts), &mut tally.answer);
            let out = first_line(judged.case.out);
            compare(Case { out, ..judged.case }, way, tally)
        }
    }
}

/// Judges the answer call by call.
fn by_judge<C: Checks>(
    judged: &Judged<'_, C>,
    way: Way<'_>,
    texts: Texts<'_>,
    tally: &mut Tally,
) -> Result<(), Problem> {
    let mut told = Told::new(judged.alloc, texts.asked);
    judged.checks.judge(texts, &mut told);
    told.compare(judged.case, way, tally)
}

/// Judges the road back, if the row wants the pair accepted.
fn judge_back<C: Checks>(
    judged: &Judged<'_, C>,
    way: Way<'_>,
    tally: &mut Tally,
) -> Result<(), Problem> {
    if judged.case.status == "0" {
        judge_call(judged, "back", way, tally)
    } else {
        Ok(())
    }
}

/// The call that answers before the road back: one that writes texts, if the row wants more than the line `accepted`.
fn call_before_back(out: &[u8]) -> &'static str {
    if first_line(out).len() < out.len() {
        "calls"
    } else {
        "check_texts"
    }
}

/// The first line of an output that begins with `accepted`; any other output whole.
fn first_line(out: &[u8]) -> &[u8] {
    let accepted = b"accepted\n".as_slice();
    if out.starts_with(accepted) {
        accepted
    } else {
        out
    }
}
