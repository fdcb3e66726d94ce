//! Sets of numbers.
ghost use Rattle.std.specs.Prelude.{◌≡◌, ℕ, true, [], ◌<◌, ◌↔◌, length, Contains, IsTrue, IfOk, OnErr};
ghost use Rattle.std.proofs.Props.{props};
ghost use Rattle.list_interner.specs.Bits.{has, bits_below};

use crate::bits::Bits;
use std::alloc::{AllocError, Global};

/// A set of numbers, with its size and a number above all of them.
pub struct NumberSet {
    bits: Bits,
    len: usize,
    bound: usize,
    ghost counted: { len ≡ length (bits_below bits bound) } by { Prim.hlevel props },
    ghost below: { (n : ℕ) → has bits n ≡ true → n < bound } by { Prim.hlevel props },
}

impl Drop for NumberSet {
    fn drop(self) {
        let NumberSet {
            bits: _,
            len: _,
            bound: _,
        } = self;
    }
}

impl NumberSet {
    ghost use Rattle.list_interner.specs.NumberSet.{numbers_in, PutsIn};

    /// The empty set.
    pub fn new(alloc: Global) -> NumberSet
        ensures { numbers_in result ≡ [] }
    {
        NumberSet {
            bits: Bits::new(alloc),
            len: 0,
            bound: 0,
        }
    }

    /// How many numbers are in the set.
    pub fn len(&self) -> usize
        ensures { result ≡ length (numbers_in self.now) }
    {
        self.len
    }

    /// A number above all of them.
    pub fn bound(&self) -> usize
        ensures { (n : ℕ) → Contains (numbers_in self.now) n → n < result }
    {
        self.bound
    }

    /// Whether the number is in the set.
    pub fn contains(&self, number: usize) -> bool
        ensures { IsTrue result ↔ Contains (numbers_in self.now) number }
    {
        self.bits.has(number)
    }

    /// Puts the number in. Returns whether it is new. If there are too many numbers or the number has no successor, it fails
    /// as if memory were refused.
    pub fn insert(&mut self, number: usize) -> Result<bool, AllocError>
        ensures put { IfOk result (λ is_new. PutsIn (numbers_in self.old) number is_new (numbers_in self.new)) }
        ensures refused { OnErr result (numbers_in self.new ≡ numbers_in self.old) }
    {
        let (Some(len), Some(bound)) = (self.len.checked_add(1), number.checked_add(1)) else {
            return Err(AllocError);
        };
        if !self.bits.set(number)? {
            return Ok(false);
        }
        self.len = len;
        self.bound = self.bound.max(bound);
        Ok(true)
    }
}
