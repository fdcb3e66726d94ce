//! Pairs of numbers that are remembered.
ghost use Rattle.std.specs.Prelude.{◌≡◌, ℕ, Contains, [], ◌<◌, ◌≤◌, length, max, min, IfOk, IsTrue, OnOk, OnErr};

use crate::bits::Bits;
use std::alloc::{AllocError, Global};

/// Pairs of numbers, whatever the order of the two: for each number those that are not greater and are in a pair with it.
#[derive(Drop)]
pub struct NumberPairs {
    rows: Vec<Bits>,
}

impl NumberPairs {
    ghost use Rattle.list_interner.specs.NumberPairs.{pairs_kept, KeepsPair, AreFew};

    /// No pairs.
    pub fn new(alloc: Global) -> NumberPairs
        ensures { pairs_kept result ≡ [] }
    {
        NumberPairs {
            rows: Vec::new(alloc),
        }
    }

    /// A number above all that are in pairs.
    pub fn bound(&self) -> usize
        ensures { (p : ℕ × ℕ) → Contains (pairs_kept self.now) p → (p.0 < result) × (p.1 < result) }
    {
        self.rows.len()
    }

    /// Remembers a pair. Returns whether it is new, whatever the order of its numbers.
    pub fn remember(&mut self, one: usize, other: usize) -> Result<bool, AllocError>
        ensures keeps { IfOk result (λ is_new. KeepsPair (pairs_kept self.old) (max one other, min one other) is_new (pairs_kept self.new)) }
        ensures refused { OnErr result (pairs_kept self.new ≡ pairs_kept self.old) }
        ensures few { AreFew (pairs_kept self.new) }
    {
        let high = one.max(other);
        let low = one.min(other);
        // Most pairs are asked for again: then no row is made longer.
        if self.is_kept(high, low) {
            return Ok(false);
        }
        self.reach(high)?;
        self.rows[high].set(low)
    }

    /// Whether the pair is remembered, the greater number first.
    fn is_kept(&self, high: usize, low: usize) -> bool
        requires { low ≤ high }
        ensures { IsTrue result → Contains (pairs_kept self.now) (high, low) }
    {
        match self.rows.get(high) {
            None => false,
            Some(row) => row.has(low),
        }
    }

    /// Adds rows, until there is one for the number.
    fn reach(&mut self, number: usize) -> Result<(), AllocError>
        ensures same { pairs_kept self.new ≡ pairs_kept self.old }
        ensures reached { OnOk result (number < length self.new.rows.items) }
    {
        let alloc = *self.rows.allocator();
        while self.rows.len() <= number {
            self.rows.push(Bits::new(alloc))?;
        }
        Ok(())
    }
}
