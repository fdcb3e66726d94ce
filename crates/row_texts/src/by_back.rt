//! The road back: the written form of an accepted pair is accepted, and is written again with the same bytes.

use crate::asked::Asked;
use crate::checks::{Checks, Texts};
use crate::judged::Judged;
use crate::pair::Pair;
use crate::told::Told;
use row_files::{Case, Lines, Problem, Tally, Way, compare};
use std::alloc::Global;

/// Judges what the pair is written as under each layout. The pair must be accepted.
pub(crate) fn by_back<C: Checks>(
    judged: &Judged<'_, C>,
    way: Way<'_>,
    texts: Texts<'_>,
    tally: &mut Tally,
) -> Result<(), Problem> {
    let mut told = Told::new(judged.alloc, texts.asked);
    judged.checks.judge(texts, &mut told);
    if told.is_written() {
        from_each(judged, way, texts.asked, &told.pairs, tally)
    } else {
        told.compare(judged.case, way, tally)
    }
}

/// Judges each of the written pairs.
fn from_each<C: Checks>(
    judged: &Judged<'_, C>,
    way: Way<'_>,
    asked: Asked,
    pairs: &[Pair],
    tally: &mut Tally,
) -> Result<(), Problem> {
    for from in pairs {
        let schemas = [from.schema.as_str()];
        let texts = Texts {
            schemas: schemas.as_slice(),
            document: from.document.as_str(),
            following: &[],
            asked,
        };
        let way = Way {
            call: from.name,
            document: from.document.as_bytes(),
            ..way
        };
        back_from(judged, way, texts, pairs, tally)?;
    }
    Ok(())
}

/// Judges a written pair: it is accepted, and is written again as all of them.
fn back_from<C: Checks>(
    judged: &Judged<'_, C>,
    way: Way<'_>,
    texts: Texts<'_>,
    pairs: &[Pair],
    tally: &mut Tally,
) -> Result<(), Problem> {
    let mut told = Told::new(judged.alloc, texts.asked);
    judged.checks.judge(texts, &mut told);
    if told.is_written() {
        compare_each(judged, way, pairs, &told.pairs, tally)
    } else {
        told.compare(judged.case, way, tally)
    }
}

/// Compares each of the pairs that were written again with the first of its layout.
fn compare_each<C: Checks>(
    judged: &Judged<'_, C>,
    way: Way<'_>,
    firsts: &[Pair],
    again: &[Pair],
    tally: &mut Tally,
) -> Result<(), Problem> {
    for (first, pair) in firsts.iter().zip(again) {
        compare_pair(judged, way, first, pair, tally)?;
    }
    Ok(())
}

/// Compares a pair with the first of its layout: the answer that is wanted.
fn compare_pair<C: Checks>(
    judged: &Judged<'_, C>,
    way: Way<'_>,
    first: &Pair,
    pair: &Pair,
    tally: &mut Tally,
) -> Result<(), Problem> {
    let mut out = Lines::new(judged.alloc);
    out.show_between(&first.schema, &"\n", &first.document);
    let out = out.as_str().as_bytes();
    let wanted = Case { out, ..judged.case };
    compare_written(judged.alloc, wanted, way, pair, tally)
}

/// Compares a pair that was written again with what is wanted.
fn compare_written(
    alloc: Global,
    case: Case<'_>,
    way: Way<'_>,
    pair: &Pair,
    tally: &mut Tally,
) -> Result<(), Problem> {
    let mut call = Lines::new(alloc);
    call.show_between(way.call, &" to ", pair.name);
    let call = call.as_str();
    let answer = &mut tally.answer;
    answer.status.put("0");
    answer
        .text
        .show_between(&pair.schema, &"\n", &pair.document);
    compare(case, Way { call, ..way }, tally)
}
