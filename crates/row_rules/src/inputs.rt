//! What calls answer to each input of a row.

use crate::copies::push_never;
use crate::input::Input;
use crate::judged::Judged;
use crate::judged_documents::push_document;
use crate::judged_sets::push_field_set;
use crate::kept_sets::push_kept_set;
use crate::new_fields::push_new_field;
use crate::rules::Rules;
use crate::uses::push_use;
use crate::words::push_words;
use row_building::Schema;
use row_files::{Answer, Problem, Tally, Way, compare, judge, text_of};

/// Judges each input of the row, a part of a document or a type, over the schema.
pub(crate) fn by_parts<R: Rules>(
    judged: &Judged<'_, R>,
    schema: &Schema,
    tally: &mut Tally,
) -> Result<(), Problem> {
    for input in &judged.case.given.inputs {
        push_part(judged, schema, input, &mut tally.answer)?;
        judge(judged.case, input, tally)?;
    }
    Ok(())
}

/// Adds what is kept of the set of fields that the input is, or of the field that it makes, or what the call answers
/// to it.
fn push_part<R: Rules>(
    judged: &Judged<'_, R>,
    schema: &Schema,
    input: &[u8],
    answer: &mut Answer,
) -> Result<(), Problem> {
    match judged.case.call {
        "field_set" => push_kept_set(judged.alloc, judged.case, schema, input, answer),
        "new_field" => push_new_field(judged.alloc, judged.case, schema, input, answer),
        _ => push_use(judged, schema, input, answer),
    }
}

/// Judges each input of the row over the schema, if there is one, with each limit of nesting.
pub(crate) fn by_inputs<R: Rules>(
    judged: &Judged<'_, R>,
    schema: Option<&Schema>,
    tally: &mut Tally,
) -> Result<(), Problem> {
    let case = judged.case;
    for bytes in &case.given.inputs {
        for nesting in &case.given.limits {
            let input = Input {
                text: text_of(case, bytes)?,
                nesting: *nesting,
            };
            push_input(judged, schema, input, &mut tally.answer)?;
            compare(case, Way::whole(case.call, bytes, *nesting), tally)?;
        }
    }
    Ok(())
}

/// Adds what the call answers to the input.
fn push_input<R: Rules>(
    judged: &Judged<'_, R>,
    schema: Option<&Schema>,
    input: Input<'_>,
    answer: &mut Answer,
) -> Result<(), Problem> {
    match schema {
        Some(schema) if judged.case.call == "judged_field_set" => {
            push_field_set(judged, schema, input, answer)
        }
        None if judged.case.call == "never" => Ok(push_never(judged.alloc, input.text, answer)?),
        None if judged.case.call == "words" => Ok(push_words(judged.alloc, input.text, answer)?),
        _ => push_document(judged, schema, input, answer),
    }
}
