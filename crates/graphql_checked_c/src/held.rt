//! The texts of a schema that C holds, under their names.

ghost use Rattle.std.specs.Prelude.{◌≡◌, map, IfOk, IfErr, length};
ghost use Rattle.graphql_checked_c.specs.HeldTexts.{path_of, text_of, AreHeld, IsHeldFault};

use ffi_memory::{TextsFault, texts_at};
use report_forms::{Lines, Source};
use std::alloc::{AllocError, Global};

/// A text of a schema, with its lines. C keeps the bytes of both until the handle is closed.
#[derive(Drop)]
pub struct HeldText {
    /// The name that C has for it.
    pub(crate) path: &'static str,
    /// The text.
    pub(crate) lines: Lines<'static>,
}

/// The texts under their names, each of which ends where its ends say.
pub(crate) fn held_texts(
    alloc: Global,
    names: &'static [u8],
    name_ends: &[usize],
    texts: &'static [u8],
    ends: &[usize],
) -> Result<Vec<HeldText>, TextsFault>
    ensures texts { IfOk result (λ held. AreHeld names.now name_ends.now texts.now ends.now held.items) }
    ensures fault { IfErr result (IsHeldFault names.now name_ends.now texts.now ends.now) }
{
    if name_ends.len() != ends.len() {
        return Err(TextsFault::Ends);
    }
    let names = texts_at(alloc, names, name_ends)?;
    let texts = texts_at(alloc, texts, ends)?;
    let held = with_lines(alloc, &names, &texts)?;
    Ok(held)
}

/// Each text with its lines, under its name.
fn with_lines(
    alloc: Global,
    names: &[&'static str],
    texts: &[&'static str],
) -> Result<Vec<HeldText>, AllocError>
    requires { length names.now ≡ length texts.now }
    ensures paths { IfOk result (λ held. map path_of held.items ≡ map (λ t. t.now) names.now) }
    ensures texts { IfOk result (λ held. map text_of held.items ≡ map (λ t. t.now) texts.now) }
{
    let mut held = Vec::new(alloc);
    for (index, text) in texts.iter().enumerate() {
        let lines = Lines::new(alloc, text)?;
        held.push(HeldText {
            path: names[index],
            lines,
        })?;
    }
    Ok(held)
}

/// The texts as sources of a report.
pub(crate) fn sources_of<'a>(
    alloc: Global,
    texts: &'a [HeldText],
) -> Result<Vec<Source<'a>>, AllocError>
    ensures paths { IfOk result (λ sources. map (λ s. s.path.now) sources.items ≡ map path_of texts.now) }
    ensures texts { IfOk result (λ sources. map (λ s. s.lines.now) sources.items ≡ map text_of texts.now) }
{
    let mut sources = Vec::new(alloc);
    for text in texts {
        sources.push(Source {
            path: text.path,
            lines: &text.lines,
        })?;
    }
    Ok(sources)
}
