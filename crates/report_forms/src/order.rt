//! The order in which faults are told.

ghost use Rattle.std.specs.Prelude.{◌≡◌, map, IfOk};
ghost use Rattle.report_forms.specs.Order.{rank_of, IsOrder};

use graphql_names::SourceSpan;
use std::alloc::{AllocError, Global};

/// The rank of a fault among others: without a place first, then by text and by offset, and then as told.
#[derive(Clone, Copy, PartialEq, Eq, PartialOrd, Ord)]
pub struct Rank {
    /// The number of its text and its offset, if it has a place.
    pub place: Option<(u64, usize)>,
    /// Its index among the faults.
    pub told: usize,
}

/// The ranks of what is told at places, in order.
pub fn order_of<T>(alloc: Global, told: &[(Option<SourceSpan>, T)]) -> Result<Vec<Rank>, AllocError>
    ensures { IfOk result (λ ranks. IsOrder (map (λ t. t.0) told.now) ranks.items) }
{
    let mut ranks = Vec::new(alloc);
    for (index, one) in told.iter().enumerate() {
        ranks.push(rank_of(one.0, index))?;
    }
    ranks.sort()?;
    Ok(ranks)
}

/// The rank of what is told at this index, at that place.
fn rank_of(place: Option<SourceSpan>, told: usize) -> Rank
    ensures { result ≡ rank_of place told }
{
    match place {
        None => Rank { place: None, told },
        Some(span) => Rank {
            place: Some((span.file_id.0, span.offset)),
            told,
        },
    }
}
