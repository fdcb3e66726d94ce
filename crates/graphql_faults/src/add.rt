//! Adding faults to a list, each once.
ghost use Rattle.std.specs.Prelude.{◌≡◌, ◌<◌, ◌∷◌, [], map, slice_get, vec_len, Some, Contains, IfNone, IfOk, IfSome, OnOk};
ghost use Rattle.rule_definitions.specs.Room.{most_told};
ghost use Rattle.graphql_faults.specs.Added.{AddsNew, TellsAll};
ghost use Rattle.graphql_faults.specs.InBuckets.{AreRight};

use crate::buckets::Buckets;
use crate::told::Told;
use fault_data::MOST_TOLD;
use std::alloc::AllocError;

/// Adds each that is not there at the end, in turn, until [`MOST_TOLD`] are told. After a refusal the list begins as
/// before, and some may have been added.
pub fn add_new<T: Told + Drop>(told: &mut Vec<T>, more: Vec<T>) -> Result<(), AllocError>
    ensures added { AddsNew (map T.plain told.old.items) (map T.plain more.items) (map T.plain told.new.items) }
    ensures all { OnOk result (TellsAll (map T.plain more.items) (map T.plain told.new.items)) }
{
    if more.is_empty() {
        return Ok(());
    }
    let mut buckets = Buckets::of(told)?;
    // Where the next is looked for first: faults that come again mostly come in the same order.
    let mut next = 0;
    for one in more {
        if told.len() >= MOST_TOLD {
            return Ok(());
        }
        next = add_one(told, &mut buckets, one, next)?;
    }
    Ok(())
}

/// Adds it at the end, if it is not there. Returns the index where the next is looked for first: after the equal one, if there
/// was one.
fn add_one<T: Told + Drop>(
    told: &mut Vec<T>,
    buckets: &mut Buckets,
    one: T,
    next: usize,
) -> Result<usize, AllocError>
    requires room { vec_len told.old < most_told }
    requires right { AreRight (map (λ one. T.bucket_of (T.plain one)) told.old.items) buckets.old }
    ensures added { AddsNew (map T.plain told.old.items) (T.plain one ∷ []) (map T.plain told.new.items) }
    ensures there { OnOk result (Contains (map T.plain told.new.items) (T.plain one)) }
    ensures right { OnOk result (AreRight (map (λ one. T.bucket_of (T.plain one)) told.new.items) buckets.new) }
{
    match find(told, buckets, &one, next) {
        Some(index) => Ok(index + 1),
        None => {
            buckets.push(one.bucket())?;
            told.push(one)?;
            Ok(next)
        }
    }
}

/// The index of an equal one, that at `next` if it is equal.
fn find<T: Told>(told: &Vec<T>, buckets: &Buckets, one: &T, next: usize) -> Option<usize>
    requires { AreRight (map (λ one. T.bucket_of (T.plain one)) told.now.items) buckets.now }
    ensures found { IfSome result (λ index. slice_get (map T.plain told.now.items) index ≡ Some (T.plain one.now)) }
    ensures within { IfSome result (λ index. index < vec_len told.now) }
    ensures not_found { IfNone result (Contains (map T.plain told.now.items) (T.plain one.now) → ⊥) }
{
    if next < told.len() && told[next].is_same(one) {
        return Some(next);
    }
    buckets.find(told, one)
}
