//! A schema that C holds: opened of several texts, asked, and closed.

ghost use Rattle.std.specs.Prelude.{◌≡◌, ◌≢◌, None, IfSome};
ghost use Rattle.checker_calls.specs.Layouts.{prefix_of};
ghost use Rattle.ffi_memory.specs.Room.{IsPut};
ghost use Rattle.graphql_checked_c.specs.HeldTexts.{OneHasNotUtf8, AreNotNamed};
ghost use Rattle.graphql_checked_c.specs.CallResults.{HoldsSchemaOf, IsToldOfTexts, AreCertainTexts, IsYesOver, IsToldOver, IsCertainOver, OneIsNotUtf8, IsSchemaText, IsDocumentText, IsNoPrefix, layout_of, KeepsOrNot, IsYesAlone, TellsSchemaText, IsOfKept, AnswersKept, IsStatus, IsDoneOrMemory, IsDoneOrMemoryOrPrefix, HasStack, IsToldIn, IsUntold};

use crate::answer::{ACCEPTED, Answer, MEMORY, PREFIX, STACK};
use crate::handle::{Handle, Kept, keep, take};
use crate::opening::kept_of_texts;
use crate::over::{checked, document_text, layout, schema_text};
use ffi_memory::{put, suffices};
use graphql_checked::Layout;
use std::alloc::Global;

/// Opens a handle on the schema of these texts, each of which ends where `ends` says, and has the name that ends where
/// `name_ends` says. The bytes of both are to stay until the handle is closed.
///
/// The status is 0 if it is open; 1 if the texts are refused: then `needed` gets the length of the report (lines of JSON, or
/// as the program tells it), which is put at the front of `room` if it fits there, else `room` is unchanged; 3 if a text or
/// name is not UTF-8; 4 if memory ran out; 5 if the stack is too small; 7 if the ends are not those of so many texts and
/// names.
#[unsafe(no_mangle)]
#[tactic(auto, using(crate::proofs::Told::texts_told, crate::proofs::Told::texts_untold))]
pub extern "C" fn graphql_proved_schema_open(
    alloc: Global,
    names: &'static [u8],
    name_ends: &[usize],
    texts: &'static [u8],
    ends: &[usize],
    nesting: usize,
    stack: usize,
    json: bool,
    handle: &mut Handle,
    room: &mut [u8],
    needed: &mut usize,
) -> u32
    requires { handle.old.value ≡ None }
    ensures opened { result ≡ 0 → HoldsSchemaOf nesting names.now name_ends.now texts.now ends.now handle.new.value }
    ensures closed { result ≢ 0 → handle.new.value ≡ None }
    ensures refused { result ≡ 1 → IsToldIn room.old room.new needed.new (IsToldOfTexts json nesting names.now name_ends.now texts.now ends.now) }
    ensures encoding { result ≡ 3 → OneHasNotUtf8 names.now name_ends.now texts.now ends.now }
    ensures stack { result ≡ 5 → HasStack stack nesting → ⊥ }
    ensures order { result ≡ 7 → AreNotNamed names.now name_ends.now texts.now ends.now }
    ensures status { IsStatus result }
    ensures complete { HasStack stack nesting → AreCertainTexts nesting names.now name_ends.now texts.now ends.now → IsDoneOrMemory result }
    ensures untold { result ≢ 1 → IsUntold room.old room.new needed.new }
{
    *needed = 0;
    if !suffices(stack, nesting) {
        return STACK;
    }
    match kept_of_texts(alloc, names, name_ends, texts, ends, nesting, json) {
        Ok(held) => kept(alloc, handle, held),
        Err(answer) => told(room, needed, answer),
    }
}

/// Puts what is to be kept into the handle, which is empty.
fn kept(alloc: Global, handle: &mut Handle, held: Kept) -> u32
    requires { handle.old.value ≡ None }
    ensures { KeepsOrNot held handle.new.value result }
{
    match Box::new(alloc, held) {
        Ok(kept) => {
            keep(handle, kept);
            ACCEPTED
        }
        Err(_) => MEMORY,
    }
}

/// Puts the bytes of an answer into the room, if they fit there, and tells its status.
fn told(room: &mut [u8], needed: &mut usize, answer: Answer) -> u32
    ensures bytes { IsPut answer.bytes.items room.old room.new needed.new }
    ensures status { result ≡ answer.status }
{
    *needed = put(room, &answer.bytes);
    answer.status
}

/// Checks a document at that path over the schema of the handle, which stays as it is.
///
/// The status is 0 if the document is accepted; 1 if it is refused, and then the report is told as
/// `graphql_proved_schema_open` does; 3 if it or its path is not UTF-8; 4 if memory ran out.
#[unsafe(no_mangle)]
pub extern "C" fn graphql_proved_schema_check(
    alloc: Global,
    handle: &mut Handle,
    json: bool,
    path: &[u8],
    document: &[u8],
    room: &mut [u8],
    needed: &mut usize,
) -> u32
    requires { handle.old.value ≢ None }
    ensures kept { handle.new.value ≡ handle.old.value }
    ensures accepted { result ≡ 0 → IfSome handle.old.value (λ k. IsYesOver k.schema document.now) }
    ensures refused { result ≡ 1 → IfSome handle.old.value (λ k. IsToldIn room.old room.new needed.new (IsToldOver json k path.now document.now)) }
    ensures encoding { result ≡ 3 → OneIsNotUtf8 path.now document.now }
    ensures status { IsStatus result }
    ensures complete { IfSome handle.old.value (λ k. IsCertainOver k.schema path.now document.now → IsDoneOrMemory result) }
    ensures untold { result ≢ 1 → IsUntold room.old room.new needed.new }
{
    let answer = checked_over(alloc, handle, json, path, document);
    told(room, needed, answer)
}

/// The answer for a document over what is held, which stays as it is.
fn checked_over(
    alloc: Global,
    handle: &mut Handle,
    json: bool,
    path: &[u8],
    document: &[u8],
) -> Answer
    requires { handle.old.value ≢ None }
    ensures kept { handle.new.value ≡ handle.old.value }
    ensures answer { AnswersKept json (IsYesAlone document.now) handle.old.value path.now document.now result.status result.bytes.items }
{
    let held = take(alloc, handle);
    let answer = checked(alloc, &held, json, path, document);
    keep(handle, held);
    answer
}

/// Writes the text of the schema of the handle: on one line, or in lines that begin with the prefix once for each level.
///
/// The status is 0 if the text is told as `graphql_proved_schema_open` tells a report; 4 if memory ran out; 8 if the prefix
/// is not of spaces and tabs.
#[unsafe(no_mangle)]
pub extern "C" fn graphql_proved_schema_text(
    alloc: Global,
    handle: &mut Handle,
    lines: bool,
    prefix: &[u8],
    room: &mut [u8],
    needed: &mut usize,
) -> u32
    requires { handle.old.value ≢ None }
    ensures kept { handle.new.value ≡ handle.old.value }
    ensures written { result ≡ 0 → IfSome handle.old.value (λ k. IsToldIn room.old room.new needed.new (IsSchemaText (layout_of lines prefix.now) k.schema)) }
    ensures prefix { result ≡ 8 → IsNoPrefix lines prefix.now }
    ensures status { IsDoneOrMemoryOrPrefix result }
    ensures untold { result ≢ 0 → IsUntold room.old room.new needed.new }
{
    *needed = 0;
    let Some(layout) = layout(lines, prefix) else {
        return PREFIX;
    };
    let answer = schema_over(alloc, handle, layout);
    told(room, needed, answer)
}

/// The answer with the text of the schema that is held, which stays as it is.
fn schema_over(alloc: Global, handle: &mut Handle, layout: Layout<'_>) -> Answer
    requires { handle.old.value ≢ None }
    ensures kept { handle.new.value ≡ handle.old.value }
    ensures answer { IsOfKept handle.old.value (λ k. TellsSchemaText (prefix_of layout.entry) k.schema result.status result.bytes.items) }
{
    let held = take(alloc, handle);
    let answer = schema_text(alloc, &held.schema, layout);
    keep(handle, held);
    answer
}

/// Checks a document over the schema of the handle, and writes its text as `graphql_proved_schema_text` does the schema's.
///
/// The status is 0 if the text is told; 1, 3 and 4 as for `graphql_proved_schema_check`; 8 if the prefix is not of spaces
/// and tabs.
#[unsafe(no_mangle)]
#[tactic(auto, using(crate::proofs::Told::held_no_prefix))]
pub extern "C" fn graphql_proved_document_text(
    alloc: Global,
    handle: &mut Handle,
    json: bool,
    path: &[u8],
    document: &[u8],
    lines: bool,
    prefix: &[u8],
    room: &mut [u8],
    needed: &mut usize,
) -> u32
    requires { handle.old.value ≢ None }
    ensures kept { handle.new.value ≡ handle.old.value }
    ensures written { result ≡ 0 → IfSome handle.old.value (λ k. IsToldIn room.old room.new needed.new (IsDocumentText (layout_of lines prefix.now) k.schema document.now)) }
    ensures refused { result ≡ 1 → IfSome handle.old.value (λ k. IsToldIn room.old room.new needed.new (IsToldOver json k path.now document.now)) }
    ensures encoding { result ≡ 3 → OneIsNotUtf8 path.now document.now }
    ensures prefix { result ≡ 8 → IsNoPrefix lines prefix.now }
    ensures status { IsStatus result }
    ensures complete { IfSome handle.old.value (λ k. IsCertainOver k.schema path.now document.now → IsDoneOrMemoryOrPrefix result) }
    ensures untold { result ≢ 0 → result ≢ 1 → IsUntold room.old room.new needed.new }
{
    *needed = 0;
    let Some(layout) = layout(lines, prefix) else {
        return PREFIX;
    };
    let answer = document_over(alloc, handle, json, path, document, layout);
    told(room, needed, answer)
}

/// The answer with the text of a document over what is held, which stays as it is.
fn document_over(
    alloc: Global,
    handle: &mut Handle,
    json: bool,
    path: &[u8],
    document: &[u8],
    layout: Layout<'_>,
) -> Answer
    requires { handle.old.value ≢ None }
    ensures kept { handle.new.value ≡ handle.old.value }
    ensures answer { AnswersKept json (λ k. IsDocumentText (prefix_of layout.entry) k.schema document.now) handle.old.value path.now document.now result.status result.bytes.items }
{
    let held = take(alloc, handle);
    let answer = document_text(alloc, &held, json, path, document, layout);
    keep(handle, held);
    answer
}

/// Closes the handle: its schema is dropped, and it is empty.
#[unsafe(no_mangle)]
pub extern "C" fn graphql_proved_schema_close(alloc: Global, handle: &mut Handle)
    requires { handle.old.value ≢ None }
    ensures { handle.new.value ≡ None }
{
    let _held = take(alloc, handle);
}
