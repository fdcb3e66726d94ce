//! Extensions by number.
ghost use Rattle.std.specs.Prelude.{◌≡◌, ◌≢◌, ℕ, ◌+◌, ◌<◌, ◌^◌, IfOk, IfErr, OnErr, OnOk};
ghost use Rattle.tree_literals.specs.in_names.Node.{content, place};
ghost use Rattle.schema_components.specs.Given.{number_of, place_of};

use std::alloc::{AllocFailed, Global};
use std::marker::Model;
use tree_literals::{Node, SourceSpan, Spent};

/// The number of an extension, and the place that it was read from, if it was read. Equality and hash are
/// those of the number.
#[derive(Clone, Copy)]
#[derive_where(PartialEq, Eq, Hash)]
pub struct ExtensionId {
    number: u64,
    #[derive_where(skip)]
    location: Option<SourceSpan>,
}

impl ExtensionId {
    /// The place that the extension was read from, if it was read.
    pub fn location(&self) -> Option<SourceSpan>
        ensures { result ≡ place_of self.now }
    {
        self.location
    }

    /// A node of `value` with the extension's place. If memory runs out, the value is returned.
    pub fn same_location<T>(&self, alloc: Global, value: T) -> Result<Node<T>, AllocFailed<T>>
        ensures content { IfOk result (λ n. content n ≡ value) }
        ensures place { IfOk result (λ n. place n ≡ place_of self.now) }
        ensures value_returned { IfErr result (λ e. e.value ≡ value) }
    {
        match self.location {
            None => Node::new(alloc, value),
            Some(location) => Node::new_parsed(alloc, value, location),
        }
    }
}

/// Gives each number of an extension once, in order.
///
/// Contracts see it as the number that it gives next.
pub struct Extensions {
    number: u64,
}

impl Drop for Extensions {
    fn drop(self) {
        let Extensions { number: _ } = self;
    }
}

impl Model for Extensions {
    ghost Value = { ℕ };

    ghost view = { λ e. e.number };
}

impl Extensions {
    /// Counts from 1.
    pub fn new() -> Extensions
        ensures { result ≡ 1 }
    {
        Extensions { number: 1 }
    }

    /// Counts from `number`.
    pub fn starting_at(number: u64) -> Extensions
        requires { number ≢ 0 }
        ensures { result ≡ number }
    {
        Extensions { number }
    }

    /// Gives the number to an extension that was read from `location`, and continues with the next number. If
    /// the number is `u64::MAX`, it returns `Spent` and is unchanged.
    pub fn next(&mut self, location: Option<SourceSpan>) -> Result<ExtensionId, Spent>
        ensures given { IfOk result (λ id. number_of id ≡ self.old) }
        ensures location { IfOk result (λ id. place_of id ≡ location) }
        ensures goes_on { OnOk result (self.new ≡ self.old + 1) }
        ensures not_spent { OnOk result (self.old + 1 < 2 ^ 64) }
        ensures spent { OnErr result (self.old + 1 ≡ 2 ^ 64) }
        ensures unchanged { OnErr result (self.new ≡ self.old) }
    {
        if self.number == u64::MAX {
            return Err(Spent);
        }
        let number = self.number;
        self.number += 1;
        Ok(ExtensionId { number, location })
    }
}
