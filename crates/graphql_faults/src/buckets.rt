//! Where the faults of a list are, by where their places begin.
ghost use Rattle.std.specs.Prelude.{◌≡◌, ◌≢◌, ◌<◌, ◌∷◌, ◌++◌, [], ℕ, List, length, map, slice_get, vec_len, Some, Contains, IfNone, IfOk, IfSome, OnOk};
ghost use Rattle.graphql_faults.specs.InBuckets.{AreRight};
ghost use Rattle.graphql_faults.specs.PlaceBucket.{place_bucket};

use crate::told::Told;
use graphql_names::SourceSpan;
use std::alloc::{AllocError, Global};

/// How many buckets there are.
const BUCKETS: usize = 256;

/// The bucket of what is at a place: by the offset at which that begins, and the first without a place.
pub(crate) fn place_bucket(place: Option<SourceSpan>) -> usize
    ensures within { result < 256 }
    ensures bucket { result ≡ place_bucket place }
{
    match place {
        None => 0,
        Some(span) => span.offset % BUCKETS,
    }
}

/// The buckets of the faults of a list.
#[derive(Drop)]
pub(crate) struct Buckets {
    /// For each bucket one more than the index of its last fault, or 0.
    ends: Vec<usize>,
    /// For each fault one more than the index of the one before it in its bucket, or 0.
    earlier: Vec<usize>,
}

impl Buckets {
    /// Those of an empty list.
    fn new(alloc: Global) -> Result<Buckets, AllocError>
        ensures { IfOk result (AreRight []) }
    {
        let mut ends = Vec::new(alloc);
        ends.resize(BUCKETS, 0)?;
        Ok(Buckets {
            ends,
            earlier: Vec::new(alloc),
        })
    }

    /// Adds a fault that follows in the list, by its bucket.
    pub(crate) fn push(&mut self, bucket: usize) -> Result<(), AllocError>
        requires { bucket < length self.old.ends.items }
        ensures { OnOk result ((bs : List ℕ) → AreRight bs self.old → AreRight (bs ++ bucket ∷ []) self.new) }
    {
        self.earlier.push(self.ends[bucket])?;
        self.ends[bucket] = self.earlier.len();
        Ok(())
    }

    /// Those of a list.
    pub(crate) fn of<T: Told>(told: &Vec<T>) -> Result<Buckets, AllocError>
        ensures { IfOk result (AreRight (map (λ one. T.bucket_of (T.plain one)) told.now.items)) }
    {
        let mut buckets = Buckets::new(*told.allocator())?;
        for index in 0..told.len() {
            buckets.push(told[index].bucket())?;
        }
        Ok(buckets)
    }

    /// The index of an equal one in the list: those of its bucket are looked at, the last one first.
    pub(crate) fn find<T: Told>(&self, told: &Vec<T>, one: &T) -> Option<usize>
        requires { AreRight (map (λ one. T.bucket_of (T.plain one)) told.now.items) self.now }
        ensures found { IfSome result (λ index. slice_get (map T.plain told.now.items) index ≡ Some (T.plain one.now)) }
        ensures within { IfSome result (λ index. index < vec_len told.now) }
        ensures not_found { IfNone result (Contains (map T.plain told.now.items) (T.plain one.now) → ⊥) }
    {
        let mut end = self.ends[one.bucket()];
        while end > 0 {
            let index = end - 1;
            if told[index].is_same(one) {
                return Some(index);
            }
            end = self.earlier[index];
        }
        None
    }
}
