//! What the calls of the checker answer: the laws are about these calls.

ghost use Rattle.std.specs.Prelude.{◌≡◌, false, map};
ghost use Rattle.graphql_names.specs.Device.{device_failed};
ghost use Rattle.checker_calls.specs.Devices.{HaveNotFailed};
ghost use Rattle.checker_calls.specs.Layouts.{prefix_of};
ghost use Rattle.graphql_checked.specs.CheckedView.{schema_value};
ghost use Rattle.graphql_checked.specs.Verdicts.{first_terms};
ghost use Rattle.verdict_laws.specs.Answers.{AnswersTexts, AnswersFinish, AnswersCheck, RunValue, AnswersRun};
ghost use Rattle.verdict_laws.specs.Seen.{seen_schema, seen_document, IsSeenRun};

use graphql_checked::{
    CheckError, CheckedDocument, CheckedSchema, Checker, Layout, Limits, Outcome, Refusal,
    RunFault, Verdict,
};
use graphql_names::Device;
use std::alloc::Global;
use std::io::{Read, Write};

/// [`graphql_checked::check_texts`], which the laws are about: texts and extensions are counted from 1.
pub fn check_texts(
    alloc: Global,
    schemas: &[&str],
    document: &str,
    limits: Limits,
) -> Result<Verdict, CheckError>
    ensures { AnswersTexts (first_terms limits.nesting) (map (λ t. t.now) schemas.now) document.now result }
{
    graphql_checked::check_texts(alloc, schemas, document, limits)
}

/// [`Checker::finish`], which the laws are about.
pub fn finish(checker: Checker) -> Result<CheckedSchema, Refusal>
    ensures { AnswersFinish checker (seen_schema result) }
{
    checker.finish()
}

/// [`CheckedSchema::check`], which the laws are about.
pub fn check<'s>(schema: &'s CheckedSchema, text: &str) -> Result<CheckedDocument<'s>, Refusal>
    ensures { AnswersCheck (schema_value schema.now) text.now (seen_document result) }
{
    schema.check(text)
}

/// [`graphql_checked::run`], which the laws are about, over devices that tell their bytes.
pub fn run<R: Read, D: Read, W: Write>(
    alloc: Global,
    schemas: &mut [Device<R>],
    document: &mut Device<D>,
    limits: Limits,
    layout: Layout<'_>,
    out: &mut Device<W>,
) -> Result<Outcome, RunFault>
    requires schemas_run { HaveNotFailed schemas.old }
    requires document_runs { device_failed document.old ≡ false }
    requires out_runs { device_failed out.old ≡ false }
    ensures { (run : RunValue) → IsSeenRun R.remaining D.remaining W.contents schemas.old document.old out.old out.new run
        → AnswersRun (first_terms limits.nesting) (prefix_of layout.entry) run result }
{
    graphql_checked::run(alloc, schemas, document, limits, layout, out)
}
