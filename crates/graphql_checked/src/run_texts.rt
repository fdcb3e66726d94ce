//! Reads texts, judges them, and writes the answer.

ghost use Rattle.std.specs.Prelude.{◌≡◌, false, OnOk, IfOk, IfErr, map};
ghost use Rattle.std.specs.Rc.{rc_str_bytes};
ghost use Rattle.graphql_names.specs.Device.{device_failed};
ghost use Rattle.checker_calls.specs.Devices.{HaveNotFailed};
ghost use Rattle.checker_calls.specs.Layouts.{prefix_of};
ghost use Rattle.checker_calls.specs.Parts.{parts_bytes, AreSound};
ghost use Rattle.book_validity.specs.in_verdict_definitions.Judge.{IsCertain};
ghost use Rattle.graphql_checked.specs.CheckedView.{schema_value, document_value};
ghost use Rattle.checker_schemas.specs.CheckedSchemaValue.{IsCheckedSchemaOf};
ghost use Rattle.graphql_checked.specs.Run.{TellCertain, AreAllRead, IsAnswerToCertain, IsAnswerTo, AcceptsOrFails, IsWrittenAnswer};
ghost use Rattle.graphql_checked.specs.Called.{IsAnswered, Arises};
ghost use Rattle.graphql_checked.specs.Verdicts.{first_terms};

use crate::checked_document::CheckedDocument;
use crate::checked_schema::CheckedSchema;
use crate::checker::Limits;
use crate::verdict::schema_of_shared;
use checker_calls::{
    Layout, Outcome, Parts, RunFault, accepted, numbered, put, read_text, read_texts,
    refusal_answer,
};
use graphql_names::Device;
use std::alloc::{AllocError, Global};
use std::io::{Read, Write};
use std::mem::forget;
use std::rc::RcStr;

/// Reads the schema texts and then the document to their ends, judges them, makes the whole answer, and then writes it.
///
/// If the schema is refused, the document is read but not judged. After every fault but [`RunFault::Writer`] nothing is
/// written. If anything is written, each reader was read to its end.
///
/// It is for a process that ends then: an accepted schema and document are not given back. [`CheckedSchema`] gives all back.
pub fn run<R: Read, D: Read, W: Write>(
    alloc: Global,
    schemas: &mut [Device<R>],
    document: &mut Device<D>,
    limits: Limits,
    layout: Layout<'_>,
    out: &mut Device<W>,
) -> Result<Outcome, RunFault>
    requires schemas_run { HaveNotFailed schemas.old }
    requires document_runs { device_failed document.old ≡ false }
    requires out_runs { device_failed out.old ≡ false }
    ensures answers { IfOk result (IsAnswered R.remaining D.remaining W.contents layout.entry limits schemas.old document.old out.old out.new) }
    ensures fault { IfErr result (Arises R.remaining D.remaining W.contents layout.entry limits schemas.old schemas.new document.old document.new out.old out.new) }
    ensures complete { TellCertain R.remaining D.remaining (first_terms limits.nesting) schemas.old document.old → IsAnswerToCertain result }
    ensures read { OnOk result (AreAllRead R.remaining D.remaining schemas.new document.new) }
    ensures schemas_running { OnOk result (HaveNotFailed schemas.new) }
    ensures document_running { OnOk result (device_failed document.new ≡ false) }
    ensures out_running { OnOk result (device_failed out.new ≡ false) }
{
    let texts = read_texts(alloc, schemas)?;
    let text = match read_text(alloc, document) {
        Ok(text) => text,
        Err(fault) => return Err(numbered(fault, schemas.len() + 1)),
    };
    let (outcome, bytes) = judge(alloc, texts, &text, limits, layout)?;
    put(out, &bytes)?;
    // A tenth of the time of a large schema would go into giving its memory back, part by part.
    forget(bytes);
    forget(text);
    Ok(outcome)
}

/// The outcome for the texts, and the bytes that go with it.
fn judge(
    alloc: Global,
    schemas: Vec<RcStr>,
    document: &str,
    limits: Limits,
    layout: Layout<'_>,
) -> Result<(Outcome, Parts), RunFault>
    ensures answer { IsAnswerTo (prefix_of layout.entry) (first_terms limits.nesting) (map rc_str_bytes schemas.items) document.now result }
    ensures complete { IsCertain (first_terms limits.nesting) (map rc_str_bytes schemas.items) document.now → AcceptsOrFails result }
{
    match schema_of_shared(alloc, &schemas, limits) {
        Ok(schema) => {
            let answer = judge_document(alloc, &schema, document, layout);
            forget(schema);
            answer
        }
        Err(refusal) => refusal_answer(alloc, refusal),
    }
}

/// The outcome for the document over the schema, and the bytes that go with it.
fn judge_document(
    alloc: Global,
    schema: &CheckedSchema,
    document: &str,
    layout: Layout<'_>,
) -> Result<(Outcome, Parts), RunFault>
    ensures answer { (terms : _) (schemas : _) → IsCheckedSchemaOf terms schemas (schema_value schema.now) → IsAnswerTo (prefix_of layout.entry) terms schemas document.now result }
    ensures complete { (terms : _) (schemas : _) → IsCheckedSchemaOf terms schemas (schema_value schema.now) → IsCertain terms schemas document.now → AcceptsOrFails result }
{
    match schema.check(document) {
        Ok(checked) => {
            let bytes = accepted_answer(alloc, &checked, layout)?;
            forget(checked);
            Ok((Outcome::Accepted, bytes))
        }
        Err(refusal) => refusal_answer(alloc, refusal),
    }
}

/// The bytes that go with an accepted document.
fn accepted_answer(
    alloc: Global,
    document: &CheckedDocument<'_>,
    layout: Layout<'_>,
) -> Result<Parts, AllocError>
    ensures { IfOk result (λ parts. AreSound parts × IsWrittenAnswer (prefix_of layout.entry) (document_value document.now).schema (document_value document.now).text (parts_bytes parts)) }
{
    let written_document = document.written(layout)?;
    let schema = document.schema;
    accepted(alloc, &schema.written, &written_document, layout)
}
