//! The brackets that are open at a place.

use crate::taken::is_taken;
use crate::text_names::first_token;
use graphql_names::{FileId, SourceSpan};
use report_forms::{Source, source_at};
use std::alloc::{AllocError, Global};

/// How a line begins that begins a definition.
const DEFINITIONS: &[&str] = &[
    "{",
    "query ",
    "query(",
    "mutation ",
    "subscription ",
    "fragment ",
    "schema ",
    "scalar ",
    "type ",
    "interface ",
    "union ",
    "enum ",
    "input ",
    "directive ",
    "extend ",
];

/// The brackets of a text.
#[derive(Clone, Copy)]
pub(crate) struct Brackets {
    /// Where the innermost bracket is that is open at the end, if one is.
    pub(crate) open: Option<usize>,
    /// Where the last `}` ends that left none open.
    pub(crate) ended: usize,
    /// How many were open at most.
    pub(crate) most: usize,
    /// Where the first bracket is, after that `}`, which is closed by a bracket that begins its line at another indent.
    pub(crate) odd: Option<usize>,
}

/// The brackets of the text.
pub(crate) fn brackets_of(alloc: Global, text: &str) -> Result<Brackets, AllocError> {
    // each with the indent of its line
    let mut open: Vec<(usize, usize)> = Vec::new(alloc);
    let mut found = Brackets {
        open: None,
        ended: 0,
        most: 0,
        odd: None,
    };
    let (mut indent, mut rest) = (0usize, text);
    for _ in 0..text.len() {
        let Some((token, following)) = first_token(rest) else {
            break;
        };
        let end = text.len().saturating_sub(following.len());
        let own = own_indent(rest.get(..token.offset).unwrap_or(""));
        indent = own.unwrap_or(indent);
        match token.text {
            "{" | "(" | "[" => {
                open.push((end.saturating_sub(1), indent))?;
                found.most = found.most.max(open.len());
            }
            "}" | ")" | "]" => {
                let (place, opened) = open.pop().unwrap_or((end, indent));
                if own.is_some() && opened != indent {
                    found.odd = found.odd.or(Some(place));
                }
                if token.text == ")" {
                    // what follows on the line belongs to the line of the bracket
                    indent = opened;
                }
                if open.is_empty() && token.text == "}" {
                    found.ended = end;
                    found.odd = None;
                }
            }
            _ => {}
        }
        rest = following;
    }
    found.open = match open.last() {
        Some((place, _)) => Some(*place),
        None => None,
    };
    Ok(found)
}

/// How far a token is indented that begins its line, from what is before it.
fn own_indent(before: &str) -> Option<usize> {
    match before.rsplit_once('\n') {
        Some((_, spaces)) => Some(spaces.len()),
        None => None,
    }
}

/// Where the innermost bracket is that is to be closed before the place: what is open where a line of its own begins a definition
/// with the place in it, or at the place, if the text ends there, a bracket comes that does not close it, or the grammar takes what
/// comes once it is closed. With it is the bracket that is closed at another indent, if there is one.
pub(crate) fn unclosed(
    alloc: Global,
    sources: &[Source<'_>],
    place: SourceSpan,
) -> Result<(Option<usize>, Option<usize>), AllocError> {
    let Some(source) = source_at(sources, place) else {
        return Ok((None, None));
    };
    let text = source.lines.text();
    let (head, rest) = text.split_at_checked(place.offset).unwrap_or((text, ""));
    let (earlier, line) = match head.rsplit_once('\n') {
        Some((earlier, before)) => (earlier, text.get(head.len().saturating_sub(before.len())..)),
        None => ("", None),
    };
    for word in DEFINITIONS {
        if line.unwrap_or("").starts_with(*word) {
            let Brackets { open, odd, .. } = brackets_of(alloc, earlier)?;
            if open.is_some() {
                return Ok((open, odd));
            }
        }
    }
    let found = brackets_of(alloc, head)?;
    if is_due(alloc, head, rest, place.file_id, found)? {
        Ok((found.open, found.odd))
    } else {
        Ok((None, None))
    }
}

/// Whether the innermost bracket that is open at the end of the head is to be closed before the rest.
fn is_due(
    alloc: Global,
    head: &str,
    rest: &str,
    file: FileId,
    found: Brackets,
) -> Result<bool, AllocError> {
    let Some(open) = found.open else {
        return Ok(false);
    };
    let close = match head.as_bytes().get(open) {
        Some(b'(') => ")",
        Some(b'[') => "]",
        _ => "}",
    };
    let Some((token, _)) = first_token(rest) else {
        return Ok(rest.is_empty());
    };
    let begun = head.get(found.ended..).unwrap_or("");
    match token.text {
        "}" | ")" | "]" => Ok(token.text != close),
        _ if close == "}" || !is_taken(alloc, begun, close, file, found.most)? => Ok(false),
        token => {
            let closed = format!(in alloc; "{begun}\n{close}")?;
            is_taken(alloc, &closed, token, file, found.most)
        }
    }
}
