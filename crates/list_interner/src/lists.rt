//! Lists of numbers that are remembered.
ghost use Rattle.std.specs.Prelude.{◌≡◌, ℕ, List, [], ◌≤◌, ◌<◌, ◌+◌, length, IsTrue, IfOk, OnErr, IsPermutation, Contains, Vec};
ghost use Rattle.std.specs.Global.{Global};
ghost use Rattle.std.specs.List.Sorted.{IsNonDecreasing};
ghost use Rattle.std.proofs.Props.{props};

use crate::pairs::NumberPairs;
use indexmap::IndexSet;
use std::alloc::{AllocError, Global};

/// Lists of numbers, remembered by which numbers they have, whatever the order. A list of two is stored as a pair, and a
/// list of one as a pair of that number with itself.
pub struct NumberLists {
    pairs: NumberPairs,
    longer: IndexSet<Vec<usize>>,
    /// A number above all numbers in the longer lists.
    above: usize,
    /// For each number the index of the longest of these lists that has it, if there is one.
    places: Vec<Option<usize>>,
    ghost ordered: { (v : Vec ℕ Global) → Contains longer.keys v → IsNonDecreasing v.items } by { Prim.hlevel props },
    ghost within: { (v : Vec ℕ Global) → Contains longer.keys v → (n : ℕ) → Contains v.items n → n < above } by { Prim.hlevel props },
    ghost long: { (v : Vec ℕ Global) → Contains longer.keys v → 3 ≤ length v.items } by { Prim.hlevel props },
}

impl Drop for NumberLists {
    fn drop(self) {
        let NumberLists {
            pairs: _,
            longer: _,
            above: _,
            places: _,
        } = self;
    }
}

impl NumberLists {
    ghost use Rattle.list_interner.specs.NumberLists.{list_of, lists_kept, list_at, Keeps};

    /// No lists.
    pub fn new(alloc: Global) -> NumberLists
        ensures { lists_kept result ≡ [] }
    {
        NumberLists {
            pairs: NumberPairs::new(alloc),
            longer: IndexSet::new(alloc),
            above: 0,
            places: Vec::new(alloc),
        }
    }

    /// A number above all that are in lists.
    pub fn bound(&self) -> usize
        ensures { (list : List ℕ) → Contains (lists_kept self.now) list → (n : ℕ) → Contains list n → n < result }
    {
        self.above.max(self.pairs.bound())
    }

    /// The index of the longest list of three or more that has the number, if there is one.
    pub fn place_of(&self, number: usize) -> Option<usize> {
        match self.places.get(number) {
            None => None,
            Some(place) => *place,
        }
    }

    /// Whether the list at the index has the number.
    pub fn is_at(&self, place: usize, number: usize) -> bool
        ensures { IsTrue result → Contains (list_at self.now place) number }
    {
        match self.longer.get_index(place) {
            None => false,
            Some(list) => list.binary_search(&number).is_ok(),
        }
    }

    /// Remembers a list of two numbers, or of one if both are equal. Returns whether it is new.
    pub fn remember_two(&mut self, one: usize, other: usize) -> Result<bool, AllocError>
        ensures keeps { IfOk result (λ is_new. Keeps (lists_kept self.old) (list_of (one, other)) is_new (lists_kept self.new)) }
        ensures refused { OnErr result (lists_kept self.new ≡ lists_kept self.old) }
    {
        self.pairs.remember(one, other)
    }

    /// Remembers a list. Returns whether it is new, whatever the order of its numbers. The empty list counts as remembered
    /// from the start.
    pub fn remember(&mut self, numbers: Vec<usize>) -> Result<bool, AllocError>
        ensures keeps { IfOk result (λ is_new. Keeps (lists_kept self.old) numbers.items is_new (lists_kept self.new)) }
        ensures refused { OnErr result (lists_kept self.new ≡ lists_kept self.old) }
    {
        match numbers.as_slice() {
            [] => Ok(false),
            [one] => self.remember_two(*one, *one),
            [one, other] => self.remember_two(*one, *other),
            _ => self.remember_longer(numbers),
        }
    }

    /// Remembers a list of three numbers or more. Returns whether it is new, whatever the order of its numbers.
    fn remember_longer(&mut self, numbers: Vec<usize>) -> Result<bool, AllocError>
        requires { 3 ≤ length numbers.items }
        ensures keeps { IfOk result (λ is_new. Keeps (lists_kept self.old) numbers.items is_new (lists_kept self.new)) }
        ensures refused { OnErr result (lists_kept self.new ≡ lists_kept self.old) }
    {
        let above = above(&numbers)?;
        let numbers = in_order(numbers);
        note_places(&mut self.places, &self.longer, &numbers, above)?;
        self.above = self.above.max(above);
        Ok(self.longer.insert(numbers)?)
    }
}

/// Whether the list at an index, if there is one, has so many numbers or more.
fn is_as_long(longer: &IndexSet<Vec<usize>>, place: Option<usize>, length: usize) -> bool {
    let Some(place) = place else {
        return false;
    };
    match longer.get_index(place) {
        None => false,
        Some(list) => length <= list.len(),
    }
}

/// Notes the index of the next list, which has this length, for a number in it, unless a list as long has the number.
fn note_place(
    places: &mut Vec<Option<usize>>,
    longer: &IndexSet<Vec<usize>>,
    number: usize,
    length: usize,
) {
    if number < places.len() && !is_as_long(longer, places[number], length) {
        places[number] = Some(longer.len());
    }
}

/// Notes the index of the next list for each of its numbers, unless a list as long has the number.
fn note_places(
    places: &mut Vec<Option<usize>>,
    longer: &IndexSet<Vec<usize>>,
    numbers: &[usize],
    above: usize,
) -> Result<(), AllocError> {
    if places.len() < above {
        places.resize(above, None)?;
    }
    for number in numbers {
        note_place(places, longer, *number, numbers.len());
    }
    Ok(())
}

/// A number above all of these. If there is no such `usize`, it fails as if memory were refused.
fn above(numbers: &[usize]) -> Result<usize, AllocError>
    ensures { IfOk result (λ bound. (n : ℕ) → Contains numbers.now n → n < bound) }
{
    let mut bound: usize = 0;
    for number in numbers {
        bound = bound.max(one_above(*number)?);
    }
    Ok(bound)
}

/// The next number, if there is one.
fn one_above(number: usize) -> Result<usize, AllocError>
    ensures { IfOk result (λ next. next ≡ number + 1) }
{
    match number.checked_add(1) {
        Some(next) => Ok(next),
        None => Err(AllocError),
    }
}

/// The numbers in ascending order.
fn in_order(mut numbers: Vec<usize>) -> Vec<usize>
    ensures same { IsPermutation numbers.items result.items }
    ensures ordered { IsNonDecreasing result.items }
{
    numbers.sort_unstable();
    numbers
}
