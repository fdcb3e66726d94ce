//! Sets of numbers as bits.
ghost use Rattle.std.specs.Prelude.{◌≡◌, ℕ, ◌+◌, ◌-◌, ◌/◌, ◌<◌, ◌≤◌, ◌^◌, length, false, IfOk, OnOk, OnErr};

use std::alloc::{AllocError, Global};

/// How many numbers one word has.
const WORD: usize = 64;

/// A set of numbers, a bit for each: the words begin near that of the least number, so few are stored if the numbers are close.
#[derive(Drop)]
pub(crate) struct Bits {
    /// How many words without bits come before the first that is stored.
    before: usize,
    words: Vec<u64>,
}

impl Bits {
    ghost use Rattle.list_interner.specs.Bits.{has, HaveSameBits, Sets};

    /// The empty set.
    pub(crate) fn new(alloc: Global) -> Bits
        ensures { (n : ℕ) → has result n ≡ false }
    {
        Bits {
            before: 0,
            words: Vec::new(alloc),
        }
    }

    /// Whether the number is in the set.
    pub(crate) fn has(&self, number: usize) -> bool
        ensures { result ≡ has self.now number }
    {
        let word = number / WORD;
        if word < self.before {
            return false;
        }
        match self.words.get(word - self.before) {
            None => false,
            Some(word) => word & (1 << (number % WORD)) != 0,
        }
    }

    /// Puts the number in. Returns whether it is new.
    pub(crate) fn set(&mut self, number: usize) -> Result<bool, AllocError>
        ensures set { IfOk result (λ is_new. Sets self.old number is_new self.new) }
        ensures refused { OnErr result (HaveSameBits self.old self.new) }
    {
        let word = number / WORD;
        self.reach_down(word)?;
        self.reach_up(word - self.before)?;
        Ok(self.mark(number))
    }

    /// Sets the bit of a number whose word is stored. Returns whether it was not set before.
    fn mark(&mut self, number: usize) -> bool
        requires above { self.old.before ≤ number / 64 }
        requires kept { number / 64 - self.old.before < length self.old.words.items }
        ensures { Sets self.old number result self.new }
    {
        let place = number / WORD - self.before;
        let bit = 1 << (number % WORD);
        let word = self.words[place];
        self.words[place] = word | bit;
        word & bit == 0
    }

    /// Appends words without bits, until there is one at the index.
    fn reach_up(&mut self, place: usize) -> Result<(), AllocError>
        requires { place < 2 ^ 58 }
        ensures same { HaveSameBits self.old self.new }
        ensures before { self.new.before ≡ self.old.before }
        ensures reached { OnOk result (place < length self.new.words.items) }
    {
        if self.words.len() <= place {
            self.words.resize(place + 1, 0)?;
        }
        Ok(())
    }

    /// Stores the words from this one on, at least.
    fn reach_down(&mut self, word: usize) -> Result<(), AllocError>
        ensures same { HaveSameBits self.old self.new }
        ensures reached { OnOk result (self.new.before ≤ word) }
    {
        if self.words.is_empty() {
            self.before = word;
            return Ok(());
        }
        if self.before <= word {
            return Ok(());
        }
        let kept = self.words.len();
        let first = word.min(self.before.saturating_sub(kept));
        self.add_before(first)
    }

    /// Adds words without bits in front, until this is the first.
    fn add_before(&mut self, word: usize) -> Result<(), AllocError>
        requires { word ≤ self.old.before }
        ensures same { HaveSameBits self.old self.new }
        ensures reached { OnOk result (self.new.before ≡ word) }
    {
        let alloc = *self.words.allocator();
        let mut words = Vec::new(alloc);
        words.resize(self.before - word, 0)?;
        words.extend_from_slice(&self.words)?;
        self.words = words;
        self.before = word;
        Ok(())
    }
}
