//! The bytes of an answer.

ghost use Rattle.std.specs.Prelude.{◌≡◌, ◌++◌, codes, Some, OnOk, IfOk, string_bytes};
ghost use Rattle.std.specs.List.{flat_map};
ghost use Rattle.tree_definitions.specs.DefinitionTree.{document_tree};
ghost use Rattle.tree_definitions.specs.DocumentLayout.{document_text};
ghost use Rattle.verdict_definitions.specs.in_faults.DetailsView.{details_at, diagnostics_of};
ghost use Rattle.verdict_definitions.specs.Answer.{fault_line, place_text};
ghost use Rattle.verdict_definitions.specs.Out.{as_lines};
ghost use Rattle.checker_calls.specs.Layouts.{prefix_of};
ghost use Rattle.checker_calls.specs.Parts.{parts_bytes, AreSound, AddsBytes};

use crate::layout::{Layout, push_written};
use crate::parts::Parts;
use graphql_names::{FileId, SourceSpan};
use std::alloc::{AllocError, Global};
use std::fmt;
use std::fmt::Write;
use tree_definitions::Document;
use verdict_definitions::{Details, DiagnosticList};

/// `accepted`, and the texts of the schema and of the document under the layout, each ending with a line feed: a text under a
/// prefix has one, a text on one line gets one.
pub fn accepted(
    alloc: Global,
    schema: &Document,
    written_document: &str,
    layout: Layout<'_>,
) -> Result<Parts, AllocError>
    ensures { IfOk result (λ parts. AreSound parts × (parts_bytes parts
        ≡ codes "accepted\n" ++ as_lines (prefix_of layout.entry) (document_text (prefix_of layout.entry) 0 (document_tree schema.now)) ++ as_lines (prefix_of layout.entry) written_document.now)) }
{
    let mut text = String::from_str(alloc, "accepted\n")?;
    push_written(&mut text, schema, layout)?;
    push_as_lines(&mut text, "", layout)?;
    push_as_lines(&mut text, written_document, layout)?;
    Ok(Parts::of(alloc, text.into_bytes()))
}

/// Adds a written text, and a line feed if it is all on one line.
fn push_as_lines(text: &mut String, written: &str, layout: Layout<'_>) -> Result<(), AllocError>
    ensures { OnOk result (string_bytes text.new ≡ string_bytes text.old ++ as_lines (prefix_of layout.entry) written.now) }
{
    text.push_str(written)?;
    match layout {
        Layout::OneLine => text.push_str("\n"),
        Layout::Indented(_) => Ok(()),
    }
}

/// `refused`, and a line for each fault.
pub fn refused(alloc: Global, list: &DiagnosticList) -> Result<Vec<u8>, AllocError>
    ensures { IfOk result (λ bytes. bytes.items ≡ codes "refused\n" ++ flat_map fault_line (diagnostics_of list.now)) }
{
    let mut text = String::from_str(alloc, "refused\n")?;
    for (place, details) in list.iter().as_slice() {
        text.push_str(&line(alloc, *place, details)?)?;
    }
    Ok(text.into_bytes())
}

/// `refused`, and a line for each fault, in parts.
pub(crate) fn refused_parts(alloc: Global, list: &DiagnosticList) -> Result<Parts, AllocError>
    ensures { IfOk result (λ parts. AreSound parts × (parts_bytes parts ≡ codes "refused\n" ++ flat_map fault_line (diagnostics_of list.now))) }
{
    let mut parts = Parts::of(alloc, Vec::new(alloc));
    parts.add(b"refused\n")?;
    for (place, details) in list.iter().as_slice() {
        add_line(alloc, &mut parts, *place, details)?;
    }
    Ok(parts)
}

/// Adds the line of a fault.
fn add_line(
    alloc: Global,
    parts: &mut Parts,
    place: Option<SourceSpan>,
    details: &Details,
) -> Result<(), AllocError>
    ensures { OnOk result (AddsBytes parts.old (fault_line (details_at (place, details.now))) parts.new) }
{
    let place = place_line(alloc, place)?;
    match write!(parts, "{place}: {details}\n") {
        Ok(()) => Ok(()),
        Err(fmt::Error) => Err(AllocError),
    }
}

/// The line of a fault: its place, and what it tells.
fn line(alloc: Global, place: Option<SourceSpan>, details: &Details) -> Result<String, AllocError>
    ensures { IfOk result (λ text. string_bytes text ≡ fault_line (details_at (place, details.now))) }
{
    let place = place_line(alloc, place)?;
    format!(in alloc; "{place}: {details}\n")
}

/// The number of the text and the offset in it, or `-` where there is none.
fn place_line(alloc: Global, place: Option<SourceSpan>) -> Result<String, AllocError>
    ensures { IfOk result (λ text. string_bytes text ≡ place_text place) }
{
    match place {
        None => String::from_str(alloc, "-"),
        Some(span) => span_line(alloc, span),
    }
}

/// The number of the text and the offset in it, or `-` in what is built in.
fn span_line(alloc: Global, span: SourceSpan) -> Result<String, AllocError>
    ensures { IfOk result (λ text. string_bytes text ≡ place_text (Some span)) }
{
    if span.file_id == FileId::BUILT_IN {
        return String::from_str(alloc, "-");
    }
    let number = span.file_id.0;
    let offset = span.offset;
    format!(in alloc; "{number}:{offset}")
}
