//! Places that belong to a fault.

ghost use Rattle.std.specs.Prelude.{◌≡◌, IfOk};
ghost use Rattle.report_forms.specs.Noted.{is_other, others, AreRelated, IsRelated};

use crate::entry::Related;
use crate::source::{Source, path_of, place_at};
use graphql_names::SourceSpan;
use std::alloc::{AllocError, Global};

/// A place that belongs to a fault, if there is one, and what is there.
#[derive(Clone, Copy)]
pub struct Noted {
    pub place: Option<SourceSpan>,
    pub words: &'static str,
}

/// The places that belong to a fault in lines and columns, apart from its own and from those that are
/// missing.
#[tactic(auto, using(crate::proofs::RelatedPlaces::one_more, crate::proofs::RelatedPlaces::none_more))]
pub fn related(
    alloc: Global,
    sources: &[Source<'_>],
    own: Option<SourceSpan>,
    noted: &[Noted],
) -> Result<Vec<Related>, AllocError>
    ensures { IfOk result (λ related. AreRelated sources.now (others own noted.now) related.items) }
{
    let mut all = Vec::new(alloc);
    for one in noted {
        if !is_other(own, one.place) {
            continue;
        }
        let related = related_at(alloc, sources, *one)?;
        all.push(related)?;
    }
    Ok(all)
}

/// Whether there is a place, which is not the fault's own.
fn is_other(own: Option<SourceSpan>, place: Option<SourceSpan>) -> bool
    ensures { result ≡ is_other own place }
{
    match (own, place) {
        (_, None) => false,
        (None, Some(_)) => true,
        (Some(own), Some(span)) => span != own,
    }
}

/// The place in lines and columns.
fn related_at(alloc: Global, sources: &[Source<'_>], noted: Noted) -> Result<Related, AllocError>
    ensures { IfOk result (λ related. IsRelated sources.now noted related) }
{
    let path = match noted.place {
        None => "",
        Some(span) => path_of(sources, span),
    };
    let path = String::from_str(alloc, path)?;
    let words = String::from_str(alloc, noted.words)?;
    let start = match place_at(sources, noted.place) {
        None => None,
        Some(place) => Some(place.start),
    };
    Ok(Related { path, start, words })
}
