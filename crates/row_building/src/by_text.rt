//! Rows of positions, and of what is shown.

use report_forms::{Lines, shown};
use row_files::{Answer, Case, Problem, Tally, Way, compare, text_of};
use std::alloc::{AllocError, Global};

/// Judges the positions in each input, or what is shown of it.
pub(crate) fn by_text(alloc: Global, case: Case<'_>, tally: &mut Tally) -> Result<(), Problem> {
    for input in &case.given.inputs {
        let text = text_of(case, input)?;
        if case.call == "shown" {
            push_shown(alloc, text, &mut tally.answer)?;
        } else {
            push_positions(alloc, text, &mut tally.answer)?;
        }
        tally.answer.status.put("0");
        compare(case, Way::whole(case.call, input, 500), tally)?;
    }
    Ok(())
}

/// Adds what is shown of the text.
fn push_shown(alloc: Global, text: &str, answer: &mut Answer) -> Result<(), AllocError> {
    let shown = shown(alloc, text)?;
    answer.text.put(&shown);
    Ok(())
}

/// Adds the position of each place of the text, with a space between each two; if another place is the first with the
/// position, also that place.
fn push_positions(alloc: Global, text: &str, answer: &mut Answer) -> Result<(), AllocError> {
    let lines = Lines::new(alloc, text)?;
    let mut separator = "";
    for offset in 0..=text.len() {
        let position = lines.position(offset);
        answer.text.show_between(separator, &position.line, ":");
        answer.text.show(&position.column);
        if let Some(back) = lines.offset(position)
            && back != offset
        {
            answer.text.show_between("=", &back, "");
        }
        separator = " ";
    }
    answer.text.put("\n");
    Ok(())
}
