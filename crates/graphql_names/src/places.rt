//! Places put together.
ghost use Rattle.graphql_names.specs.Places.{Recomposes, RecomposesBoth};

use crate::span::SourceSpan;

impl SourceSpan {
    /// The place from the beginning of `start` to the end of `end`. If one is missing it is the other. If they are in
    /// different files it is `end`. If `end` ends before `start` begins it is `start`.
    pub fn recompose(start: Option<SourceSpan>, end: Option<SourceSpan>) -> Option<SourceSpan>
        ensures { Recomposes start end result }
    {
        match (start, end) {
            (None, end) => end,
            (Some(start), None) => Some(start),
            (Some(start), Some(end)) => Some(reach(start, end)),
        }
    }
}

/// The place from the beginning of `start` to the end of `end`.
fn reach(start: SourceSpan, end: SourceSpan) -> SourceSpan
    ensures { RecomposesBoth start end result }
{
    if start.file_id != end.file_id {
        return end;
    }
    let ends = end.offset + end.length;
    if ends < start.offset {
        return start;
    }
    SourceSpan {
        file_id: start.file_id,
        offset: start.offset,
        length: ends - start.offset,
    }
}
