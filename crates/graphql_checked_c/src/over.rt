//! Documents over a schema that is held, and the texts of both.

ghost use Rattle.std.specs.Prelude.{◌≡◌, ◌≢◌, [], None, IfSome, true, ◌⊎◌};
ghost use Rattle.checker_calls.specs.declared.refusal.Refusal.TheVariants.{Failed};
ghost use Rattle.checker_calls.specs.Layouts.{prefix_of};
ghost use Rattle.graphql_checked.specs.CheckedView.{document_value};
ghost use Rattle.graphql_checked.specs.CheckerValue.{WritesCheckedDocument};
ghost use Rattle.graphql_checked_c.specs.CallResults.{IsYesOver, IsDocumentText, IsSchemaText, IsNoPrefix, layout_of, TellsText, TellsRefusal, AnswersOver};

use crate::answer::{ACCEPTED, Answer, MEMORY, NOT_UTF8, bare};
use crate::handle::Kept;
use crate::reports::refusal_answer;
use graphql_checked::{CheckedDocument, CheckedSchema, Layout, Refusal};
use std::alloc::{AllocError, Global};

/// The answer for a document at that path, given as bytes.
#[tactic(auto, using(crate::proofs::Answers::over_not_utf8))]
pub(crate) fn checked(
    alloc: Global,
    held: &Kept,
    json: bool,
    path: &[u8],
    document: &[u8],
) -> Answer
    ensures { AnswersOver json (λ bytes. IsYesOver held.now.schema document.now × (bytes ≡ [])) held.now path.now document.now result.status result.bytes.items }
{
    let Ok(path) = str::from_utf8(path) else {
        return bare(alloc, NOT_UTF8);
    };
    let Ok(text) = str::from_utf8(document) else {
        return bare(alloc, NOT_UTF8);
    };
    checked_text(alloc, held, json, path, text)
}

/// The answer for a document at that path.
#[tactic(auto, using(crate::proofs::Answers::over_yes, crate::proofs::Answers::over_refused, crate::proofs::Answers::over_not_failed))]
fn checked_text(alloc: Global, held: &Kept, json: bool, path: &str, text: &str) -> Answer
    ensures { AnswersOver json (λ bytes. IsYesOver held.now.schema text.now × (bytes ≡ [])) held.now path.now text.now result.status result.bytes.items }
{
    match held.schema.check(text) {
        Ok(_) => bare(alloc, ACCEPTED),
        Err(refusal) => document_refused(alloc, refusal, held, json, path, text),
    }
}

/// The answer for a refusal of a document.
fn document_refused(
    alloc: Global,
    refusal: Refusal,
    held: &Kept,
    json: bool,
    path: &str,
    text: &str,
) -> Answer
    requires { refusal ≢ Failed }
    ensures { TellsRefusal json true held.now.texts.items path.now text.now refusal result.status result.bytes.items }
{
    refusal_answer(
        alloc,
        refusal,
        json,
        &held.texts,
        Some(held.schema.schema()),
        path,
        text,
    )
}

/// The text of a document at that path, given as bytes, under the layout, if it is accepted.
#[tactic(auto, using(crate::proofs::Answers::over_not_utf8))]
pub(crate) fn document_text(
    alloc: Global,
    held: &Kept,
    json: bool,
    path: &[u8],
    document: &[u8],
    layout: Layout<'_>,
) -> Answer
    ensures { AnswersOver json (IsDocumentText (prefix_of layout.entry) held.now.schema document.now) held.now path.now document.now result.status result.bytes.items }
{
    let Ok(path) = str::from_utf8(path) else {
        return bare(alloc, NOT_UTF8);
    };
    let Ok(text) = str::from_utf8(document) else {
        return bare(alloc, NOT_UTF8);
    };
    text_of_document(alloc, held, json, path, text, layout)
}

/// The text of a document at that path under the layout, if it is accepted.
#[tactic(auto, using(crate::proofs::Answers::over_written, crate::proofs::Answers::over_refused, crate::proofs::Answers::over_not_failed))]
fn text_of_document(
    alloc: Global,
    held: &Kept,
    json: bool,
    path: &str,
    text: &str,
    layout: Layout<'_>,
) -> Answer
    ensures { AnswersOver json (IsDocumentText (prefix_of layout.entry) held.now.schema text.now) held.now path.now text.now result.status result.bytes.items }
{
    match held.schema.check(text) {
        Ok(checked) => written_document(alloc, &checked, layout),
        Err(refusal) => document_refused(alloc, refusal, held, json, path, text),
    }
}

/// The text of the schema under the layout.
pub(crate) fn schema_text(alloc: Global, schema: &CheckedSchema, layout: Layout<'_>) -> Answer
    ensures { ((result.status ≡ 0) × IsSchemaText (prefix_of layout.entry) schema.now result.bytes.items) ⊎ ((result.status ≡ 4) × (result.bytes.items ≡ [])) }
{
    text_answer(alloc, schema.written(layout))
}

/// The text of a document that is accepted, under the layout.
fn written_document(alloc: Global, document: &CheckedDocument<'_>, layout: Layout<'_>) -> Answer
    ensures { ((result.status ≡ 0) × WritesCheckedDocument (prefix_of layout.entry) (document_value document.now) result.bytes.items) ⊎ ((result.status ≡ 4) × (result.bytes.items ≡ [])) }
{
    text_answer(alloc, document.written(layout))
}

/// The answer for a text that is written.
fn text_answer(alloc: Global, text: Result<String, AllocError>) -> Answer
    ensures { TellsText text result.status result.bytes.items }
{
    match text {
        Ok(text) => Answer {
            status: ACCEPTED,
            bytes: text.into_bytes(),
        },
        Err(AllocError) => bare(alloc, MEMORY),
    }
}

/// The layout that is asked for; none if its lines are to begin with anything but spaces and tabs.
pub(crate) fn layout(lines: bool, prefix: &[u8]) -> Option<Layout<'_>>
    ensures layout { IfSome result (λ l. prefix_of l ≡ layout_of lines prefix.now) }
    ensures prefix { result ≡ None → IsNoPrefix lines prefix.now }
{
    if !lines {
        return Some(Layout::OneLine);
    }
    let Ok(prefix) = str::from_utf8(prefix) else {
        return None;
    };
    if !Layout::is_prefix(prefix) {
        return None;
    }
    Some(Layout::Indented(prefix))
}
