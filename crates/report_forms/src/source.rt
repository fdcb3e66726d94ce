//! Texts under the names that the caller has for them, and where places are in them.

ghost use Rattle.std.specs.Prelude.{◌≡◌, IfSome, IfNone, option_map};
ghost use Rattle.report_forms.specs.Places.{source_at, path_of, path_at, IsPlaceAt};

use crate::entry::Place;
use crate::lines::Lines;
use graphql_names::{FileId, SourceSpan};

/// The name of what is in no text.
const BUILT_IN: &str = "<built in>";

/// A text, as the caller names it.
#[derive(Clone, Copy)]
pub struct Source<'a> {
    /// Its path, or another name.
    pub path: &'a str,
    pub lines: &'a Lines<'a>,
}

/// The text that the place is in: text `n` is the `n`-th of these. None if the place is in a built-in definition.
pub fn source_at<'a>(sources: &[Source<'a>], span: SourceSpan) -> Option<Source<'a>>
    ensures { result ≡ source_at sources.now span }
{
    if span.file_id == FileId::BUILT_IN {
        return None;
    }
    let index = span.file_id.0 as usize - 1;
    sources.get(index).copied()
}

/// The name of the text that the place is in; `name` if there is no place.
pub fn path_at<'a>(sources: &[Source<'a>], name: &'a str, place: Option<SourceSpan>) -> &'a str
    ensures { result.now ≡ path_at sources.now name.now place }
{
    match place {
        None => name,
        Some(span) => path_of(sources, span),
    }
}

/// The name of the text that the place is in.
pub(crate) fn path_of<'a>(sources: &[Source<'a>], span: SourceSpan) -> &'a str
    ensures { result.now ≡ path_of (source_at sources.now span) }
{
    match source_at(sources, span) {
        None => BUILT_IN,
        Some(source) => source.path,
    }
}

/// The place in its text, in lines and columns. None if it is in none of these texts.
pub fn place_at(sources: &[Source<'_>], place: Option<SourceSpan>) -> Option<Place>
    ensures { IsPlaceAt sources.now place result }
{
    let Some(span) = place else {
        return None;
    };
    let Some(Source { lines, .. }) = source_at(sources, span) else {
        return None;
    };
    Some(Place {
        start: lines.position(span.offset),
        end: lines.position(span.offset + span.length),
        offset: span.offset,
        length: span.length,
    })
}
