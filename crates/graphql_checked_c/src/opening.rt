//! Schema texts, and the schema of them.

ghost use Rattle.std.specs.Prelude.{◌≡◌, IfOk, IfErr, map};
ghost use Rattle.verdict_definitions.specs.Judge.{AreSchemasCertain};
ghost use Rattle.graphql_checked.specs.CheckedView.{schema_value};
ghost use Rattle.graphql_checked.specs.in_checker_schemas.CheckedSchemaValue.{IsCheckedSchemaOf};
ghost use Rattle.graphql_checked.specs.in_checker_schemas.Refusals.{RefusalOfSchemas};
ghost use Rattle.checker_calls.specs.declared.refusal.Refusal.TheVariants as refusal;
ghost use Rattle.graphql_checked.specs.Verdicts.{first_terms};
ghost use Rattle.graphql_checked_c.specs.HeldTexts.{text_of};
ghost use Rattle.graphql_checked_c.specs.CallResults.{IsKeptOfTexts, AnswersTexts};

use crate::answer::{Answer, ENDS, MEMORY, NOT_UTF8, bare};
use crate::handle::Kept;
use crate::held::{HeldText, held_texts};
use crate::reports::refusal_answer;
use ffi_memory::TextsFault;
use graphql_checked::{CheckedSchema, Checker, Limits, Refusal};
use std::alloc::Global;

/// The schema of the texts, with them, or why there is none. A refusal is told as lines of JSON, or as the program tells it.
#[tactic(auto, using(crate::proofs::Answers::texts_memory, crate::proofs::Answers::texts_uncut, crate::proofs::Answers::texts_not_utf8, crate::proofs::Answers::texts_refused, crate::proofs::Answers::texts_not_failed))]
pub(crate) fn kept_of_texts(
    alloc: Global,
    names: &'static [u8],
    name_ends: &[usize],
    texts: &'static [u8],
    ends: &[usize],
    nesting: usize,
    json: bool,
) -> Result<Kept, Answer>
    ensures kept { IfOk result (IsKeptOfTexts nesting names.now name_ends.now texts.now ends.now) }
    ensures answer { IfErr result (λ a. AnswersTexts json nesting names.now name_ends.now texts.now ends.now a.status a.bytes.items) }
{
    let texts = match held_texts(alloc, names, name_ends, texts, ends) {
        Ok(texts) => texts,
        Err(TextsFault::Memory) => return Err(bare(alloc, MEMORY)),
        Err(TextsFault::Ends) => return Err(bare(alloc, ENDS)),
        Err(TextsFault::NotUtf8) => return Err(bare(alloc, NOT_UTF8)),
    };
    match schema_of(alloc, &texts, Limits { nesting }) {
        Ok(schema) => Ok(Kept { schema, texts }),
        Err(refusal) => Err(refusal_answer(alloc, refusal, json, &texts, None, "schema", "")),
    }
}

/// The schema of the texts, if they are accepted.
fn schema_of(alloc: Global, texts: &[HeldText], limits: Limits) -> Result<CheckedSchema, Refusal>
    ensures schema { IfOk result (λ s. IsCheckedSchemaOf (first_terms limits.nesting) (map text_of texts.now) (schema_value s)) }
    ensures refused { IfErr result (RefusalOfSchemas (first_terms limits.nesting) (map text_of texts.now)) }
    ensures complete { IfErr result (λ r. AreSchemasCertain (first_terms limits.nesting) (map text_of texts.now) → r ≡ refusal.Memory) }
{
    let mut checker = Checker::new(alloc, limits);
    for text in texts {
        checker.add_schema(text.lines.text())?;
    }
    checker.finish()
}
