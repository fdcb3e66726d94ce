//! When two breaches of rules on documents are the same.
ghost use Rattle.std.specs.Prelude.{◌≡◌, ◌↔◌, IsTrue};
ghost use Rattle.fault_document_errors.specs.DocumentBreachView.{document_breach_of};

use crate::buckets::place_bucket;
use crate::told::Told;
use fault_document_errors::BuildError;
use graphql_names::SourceSpan;

/// Whether two are the same, the places in their data included.
pub fn is_same_breach(one: &BuildError, other: &BuildError) -> bool
    ensures { IsTrue result ↔ (document_breach_of one.now ≡ document_breach_of other.now) }
{
    *one == *other
}

/// A breach with its place.
impl Told for (Option<SourceSpan>, BuildError) {
    ghost use Rattle.graphql_names.specs.Placed.{Place};
    ghost use Rattle.rule_document_definitions.specs.DocumentFaults.{Broken};
    ghost use Rattle.graphql_faults.specs.PlaceBucket.{place_bucket};
    ghost use Rattle.graphql_faults.specs.PlacedBreach.{placed_breach};

    ghost Plain = { Broken Place };

    ghost plain = { placed_breach };

    ghost bucket_of = { λ breach. place_bucket breach.place };

    fn is_same(&self, other: &(Option<SourceSpan>, BuildError)) -> bool {
        // places first: these mostly differ
        self.0 == other.0 && is_same_breach(&self.1, &other.1)
    }

    fn bucket(&self) -> usize {
        place_bucket(self.0)
    }
}
