//! The line of a fault.

use crate::entry::Excerpt;
use crate::lines::before_terminator;
use crate::source::{Source, source_at};
use graphql_names::SourceSpan;
use std::alloc::{AllocError, Global};

/// How many characters of a line are taken before a place, in it and after it.
const MOST: usize = 80;

/// The line in which the place begins, as far as it is near the place, with `…` where it goes on. None if the place is in
/// none of these texts.
pub fn excerpt_at(
    alloc: Global,
    sources: &[Source<'_>],
    place: Option<SourceSpan>,
) -> Result<Option<Excerpt>, AllocError> {
    let Some(span) = place else {
        return Ok(None);
    };
    let Some(source) = source_at(sources, span) else {
        return Ok(None);
    };
    let text = source.lines.text();
    // the whole text counts as before the place, if it can't be cut there
    let (head, rest) = text.split_at_checked(span.offset).unwrap_or((text, ""));
    let (inside, following) = rest.split_at_checked(span.length).unwrap_or((rest, ""));
    let marked = first_of_line(inside);
    let after = if marked.len() == inside.len() {
        first_of_line(following)
    } else {
        ""
    };
    let before = last_of_line(head);
    let start = head.len().saturating_sub(before.len());
    let end = head
        .len()
        .saturating_add(marked.len())
        .saturating_add(after.len());
    let cut_before = cut_mark(text.get(..start).unwrap_or("").chars().next_back());
    let cut_after = cut_mark(text.get(end..).unwrap_or("").chars().next());
    Ok(Some(Excerpt {
        before: format!(in alloc; "{cut_before}{before}")?,
        marked: String::from_str(alloc, marked)?,
        after: format!(in alloc; "{after}{cut_after}")?,
    }))
}

/// `…` where the line goes on with this character.
fn cut_mark(beside: Option<char>) -> &'static str {
    match beside {
        None | Some('\n' | '\r') => "",
        Some(_) => "…",
    }
}

/// The characters at the beginning, up to the end of a line and not too many.
fn first_of_line(text: &str) -> &str {
    // cut first, so that no more is read
    let near = match text.char_indices().nth(MOST) {
        None => text,
        Some((end, _)) => text.get(..end).unwrap_or(""),
    };
    before_terminator(near)
}

/// The characters at the end, from the beginning of a line on and not too many.
fn last_of_line(text: &str) -> &str {
    let mut bytes = 0usize;
    for character in text.chars().rev().take(MOST) {
        if character == '\n' || character == '\r' {
            break;
        }
        bytes = bytes.saturating_add(character.len_utf8());
    }
    text.get(text.len().saturating_sub(bytes)..).unwrap_or("")
}
