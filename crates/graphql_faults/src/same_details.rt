//! When two details of a document are the same.

use crate::breach::is_same_breach;
use crate::buckets::place_bucket;
use crate::data::is_same_data;
use crate::details::Details;
use crate::told::Told;
use graphql_names::SourceSpan;

/// What is told of a document, with its place. Details of texts and of schemas count as the same if they are at one
/// place.
impl Told for (Option<SourceSpan>, Details) {
    ghost use Rattle.std.specs.Prelude.{List, Option};
    ghost use Rattle.graphql_names.specs.Placed.{Place};
    ghost use Rattle.graphql_faults.specs.PlaceBucket.{place_bucket};
    ghost use Rattle.graphql_faults.specs.DetailsTree.{DetailsTree};
    ghost use Rattle.graphql_faults.specs.ToldOfDocument.{told_at};

    ghost Plain = { Place × Option (DetailsTree Place (List Place)) };

    ghost plain = { told_at };

    ghost bucket_of = { λ told. place_bucket told.0 };

    fn is_same(&self, other: &(Option<SourceSpan>, Details)) -> bool {
        // places first: these mostly differ
        if self.0 != other.0 {
            return false;
        }
        match (&self.1, &other.1) {
            (Details::Data(one), Details::Data(other)) => is_same_data(one, other),
            (Details::DocumentBuild(one), Details::DocumentBuild(other)) => is_same_breach(
                one, other,
            ),
            (Details::RecursionLimitError, Details::RecursionLimitError) => true,
            (
                Details::Syntax(_) | Details::Nesting | Details::Spent | Details::SchemaBuild(_),
                Details::Syntax(_) | Details::Nesting | Details::Spent | Details::SchemaBuild(_),
            ) => true,
            _ => false,
        }
    }

    fn bucket(&self) -> usize {
        place_bucket(self.0)
    }
}
