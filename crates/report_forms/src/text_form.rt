//! A fault with its line.

ghost use Rattle.std.specs.Prelude.{◌≡◌, ◌++◌, ◌∷◌, [], codes, OnOk, IfOk, string_bytes};
ghost use Rattle.report_forms.specs.Shown.{shown_text, HasOnlyLineFeeds};
ghost use Rattle.report_forms.specs.Forms.{width_of, marks, excerpt_text, IsHeaded};

use crate::entry::{Entry, Excerpt, Related};
use crate::push_line::{push_line, push_times};
use crate::short_form::located;
use crate::showing::shown;
use std::alloc::{AllocError, Global};
use unicode_width::UnicodeWidthStr;

impl Entry {
    /// The fault in lines: the short form, the line of the text with the place marked under it, the other places that belong
    /// to it, and a hint if there is one.
    pub fn text(&self, alloc: Global) -> Result<String, AllocError>
        ensures heading { IfOk result (λ text. IsHeaded self.now (string_bytes text)) }
        ensures clean { IfOk result (λ text. HasOnlyLineFeeds (string_bytes text)) }
    {
        let heading = self.short(alloc)?;
        let mut below = String::new(alloc);
        self.push_below(alloc, &mut below)?;
        format!(in alloc; "{heading}{below}")
    }

    /// Adds the lines that are below the short form.
    pub(crate) fn push_below(&self, alloc: Global, out: &mut String) -> Result<(), AllocError>
        requires { HasOnlyLineFeeds (string_bytes out.old) }
        ensures { OnOk result (HasOnlyLineFeeds (string_bytes out.new)) }
    {
        if let Some(place) = self.place
            && let Some(excerpt) = &self.excerpt
        {
            push_excerpt(alloc, out, place.start.line, excerpt)?;
        }
        for related in &self.related {
            push_related(alloc, out, related)?;
        }
        match &self.hint {
            None => Ok(()),
            Some(hint) => push_noted(alloc, out, "help", hint),
        }
    }
}

/// Adds the line with its number, and under it a mark for each column of the place, at least one.
fn push_excerpt(
    alloc: Global,
    out: &mut String,
    number: usize,
    excerpt: &Excerpt,
) -> Result<(), AllocError>
    ensures value { OnOk result (string_bytes out.new ≡ string_bytes out.old ++ excerpt_text number excerpt.now) }
    ensures clean { OnOk result (HasOnlyLineFeeds (string_bytes out.old) → HasOnlyLineFeeds (string_bytes out.new)) }
{
    let number = number.to_string(alloc)?;
    let Excerpt {
        before,
        marked,
        after,
    } = excerpt;
    let line = format!(in alloc; "{number} | {before}{marked}{after}")?;
    push_line(alloc, out, &line)?;
    let marks = marks(alloc, number.len(), excerpt)?;
    push_line(alloc, out, &marks)
}

/// The marks under the place, after a margin of this width.
fn marks(alloc: Global, margin: usize, excerpt: &Excerpt) -> Result<String, AllocError>
    ensures { IfOk result (λ text. string_bytes text ≡ marks margin excerpt.now) }
{
    let before = width(alloc, &excerpt.before)?;
    let marked = width(alloc, &excerpt.marked)?.max(1);
    let mut marks = String::new(alloc);
    push_times(&mut marks, ' ', margin)?;
    marks.push_str(" | ")?;
    push_times(&mut marks, ' ', before)?;
    push_times(&mut marks, '^', marked)?;
    Ok(marks)
}

/// How many columns the text takes as it is shown.
fn width(alloc: Global, text: &str) -> Result<usize, AllocError>
    ensures { IfOk result (λ width. width ≡ width_of text.now) }
{
    let shown = shown(alloc, text)?;
    Ok(shown.as_str().width())
}

/// Adds a line for a place that belongs to the fault.
fn push_related(alloc: Global, out: &mut String, related: &Related) -> Result<(), AllocError>
    ensures { OnOk result (HasOnlyLineFeeds (string_bytes out.old) → HasOnlyLineFeeds (string_bytes out.new)) }
{
    let place = located(alloc, &related.path, related.start)?;
    push_noted(alloc, out, &place, &related.words)
}

/// Adds a line that belongs to the fault.
fn push_noted(alloc: Global, out: &mut String, head: &str, words: &str) -> Result<(), AllocError>
    ensures value { OnOk result (string_bytes out.new ≡ string_bytes out.old ++ shown_text (codes "  = " ++ head.now ++ codes ": " ++ words.now) ++ 10 ∷ []) }
    ensures clean { OnOk result (HasOnlyLineFeeds (string_bytes out.old) → HasOnlyLineFeeds (string_bytes out.new)) }
{
    let line = format!(in alloc; "  = {head}: {words}")?;
    push_line(alloc, out, &line)
}
