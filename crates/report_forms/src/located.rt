//! An entry at its place.

ghost use Rattle.std.specs.Prelude.{◌≡◌, [], IfOk, string_bytes};
ghost use Rattle.report_forms.specs.Places.{IsLocated};
ghost use Rattle.report_forms.specs.declared.severity.Severity.TheVariants.{Error};

use crate::entry::Entry;
use crate::excerpt::excerpt_at;
use crate::severity::Severity;
use crate::source::{Source, path_at, place_at};
use graphql_names::SourceSpan;
use std::alloc::{AllocError, Global};

impl Entry {
    /// The entry of a fault at that place, with nothing else told yet. `name` is the name of the text if it has no place.
    pub fn at(
        alloc: Global,
        sources: &[Source<'_>],
        name: &str,
        place: Option<SourceSpan>,
    ) -> Result<Entry, AllocError>
        ensures place { IfOk result (IsLocated sources.now name.now place) }
        ensures severity { IfOk result (λ entry. entry.severity ≡ Error) }
        ensures rule { IfOk result (λ entry. entry.rule.now ≡ []) }
        ensures message { IfOk result (λ entry. string_bytes entry.message ≡ []) }
    {
        let path = path_at(sources, name, place);
        let path = String::from_str(alloc, path)?;
        let excerpt = excerpt_at(alloc, sources, place)?;
        Ok(Entry {
            path,
            place: place_at(sources, place),
            severity: Severity::Error,
            rule: "",
            message: String::new(alloc),
            excerpt,
            related: Vec::new(alloc),
            hint: None,
            fields: Vec::new(alloc),
        })
    }
}
