//! A fault in one line.

ghost use Rattle.std.specs.Prelude.{◌≡◌, ◌++◌, ◌∷◌, [], IfOk, string_bytes};
ghost use Rattle.report_forms.specs.Shown.{shown_text, HasOnlyLineFeeds};
ghost use Rattle.report_forms.specs.Forms.{position_text, heading};

use crate::entry::Entry;
use crate::position::Position;
use crate::push_line::shown_line;
use std::alloc::{AllocError, Global};

impl Entry {
    /// The fault in one line, `PATH:LINE:COLUMN: SEVERITY[RULE]: MESSAGE`, without line and column if it has no place.
    pub fn short(&self, alloc: Global) -> Result<String, AllocError>
        ensures value { IfOk result (λ text. string_bytes text ≡ shown_text (heading self.now) ++ 10 ∷ []) }
        ensures clean { IfOk result (λ text. HasOnlyLineFeeds (string_bytes text)) }
    {
        let heading = self.heading(alloc)?;
        shown_line(alloc, &heading)
    }

    /// The line, from its parts.
    pub(crate) fn heading(&self, alloc: Global) -> Result<String, AllocError>
        ensures { IfOk result (λ text. string_bytes text ≡ heading self.now) }
    {
        let start = match self.place {
            None => None,
            Some(place) => Some(place.start),
        };
        let place = located(alloc, &self.path, start)?;
        let severity = self.severity.word();
        format!(in alloc; "{place}: {severity}[{}]: {}", self.rule, self.message)
    }
}

/// A path, and after it a line and a column, each after a colon.
pub(crate) fn located(
    alloc: Global,
    path: &str,
    start: Option<Position>,
) -> Result<String, AllocError>
    ensures { IfOk result (λ text. string_bytes text ≡ path.now ++ position_text start) }
{
    match start {
        None => String::from_str(alloc, path),
        Some(start) => format!(in alloc; "{path}:{}:{}", start.line, start.column),
    }
}
