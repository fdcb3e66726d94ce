//! Numbers of files, given out in order.
ghost use Rattle.std.specs.Prelude.{◌≡◌, ◌≢◌, ℕ, ◌+◌, ◌<◌, ◌^◌, IfOk, OnErr, OnOk, IsOk};

use crate::span::FileId;
use std::marker::Model;
use thiserror::Error;

/// No number is left to give.
#[derive(Clone, Copy, Debug, PartialEq, Eq, Hash, Error)]
#[error("numbers are spent")]
pub struct Spent;

/// Gives each number of a file once, in order. It never gives that of [`FileId::BUILT_IN`].
///
/// A contract sees it as the number that it gives next.
#[derive(Drop, Debug)]
pub struct Files {
    number: u64,
}

impl Model for Files {
    ghost Value = { ℕ };

    ghost view = { λ f. f.number };

    ghost invariant = { λ f. 0 < f.number };
}

impl Files {
    /// Counts from 1.
    pub fn new() -> Files
        ensures { result ≡ 1 }
    {
        Files { number: 1 }
    }

    /// Counts from `number`.
    pub fn starting_at(number: u64) -> Files
        requires { number ≢ 0 }
        ensures { result ≡ number }
    {
        Files { number }
    }

    /// Gives the next number, and counts on. If that is `u64::MAX` it is not given: the answer is `Spent`, then and
    /// later.
    pub fn next(&mut self) -> Result<FileId, Spent>
        ensures given { IfOk result (λ id. id.0 ≡ self.old) }
        ensures not_built_in { IfOk result (λ id. id.0 ≢ 0) }
        ensures goes_on { OnOk result (self.new ≡ self.old + 1) }
        ensures not_spent { OnOk result (self.old + 1 < 2 ^ 64) }
        ensures spent { OnErr result (self.old + 1 ≡ 2 ^ 64) }
        ensures unchanged { OnErr result (self.new ≡ self.old) }
    {
        if self.number == u64::MAX {
            return Err(Spent);
        }
        let given = FileId(self.number);
        self.number += 1;
        Ok(given)
    }
}
