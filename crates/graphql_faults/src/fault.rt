//! When two faults are the same.
ghost use Rattle.std.specs.Prelude.{◌≡◌, ◌↔◌, IsTrue};
ghost use Rattle.fault_data.specs.FaultView.{fault_of};

use crate::buckets::place_bucket;
use crate::data::is_same_data;
use crate::told::Told;
use fault_data::Fault;

/// Whether two are the same, at the same place.
pub fn is_same_fault(one: &Fault, other: &Fault) -> bool
    ensures { IsTrue result ↔ (fault_of one.now ≡ fault_of other.now) }
{
    // places first: these mostly differ
    one.location == other.location && is_same_data(&one.data, &other.data)
}

/// A fault with its place.
impl Told for Fault {
    ghost use Rattle.std.specs.Prelude.{List};
    ghost use Rattle.graphql_names.specs.Placed.{Place};
    ghost use Rattle.rule_definitions.specs.Faults.{FaultAt};
    ghost use Rattle.graphql_faults.specs.PlaceBucket.{place_bucket};

    ghost Plain = { FaultAt Place (List Place) };

    ghost plain = { fault_of };

    ghost bucket_of = { λ fault. place_bucket fault.place };

    fn is_same(&self, other: &Fault) -> bool {
        is_same_fault(self, other)
    }

    fn bucket(&self) -> usize {
        place_bucket(self.location)
    }
}
