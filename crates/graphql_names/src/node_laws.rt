//! Nodes read, compared, hashed and printed as their values, whatever their places.
ghost use Rattle.std.specs.Prelude.{◌≡◌};
ghost use Rattle.std.specs.Cmp.{on_equiv, on_per};
ghost use Rattle.std.specs.Cmp.Rules.{hashing};
ghost use Rattle.std.proofs.Common.{rules};
ghost use Rattle.graphql_names.specs.Node.{content};

use crate::node::Node;
use std::fmt;
use std::hash::{Hash, Hasher};
use std::ops::Deref;

impl<T> Deref for Node<T> {
    type Target = T;

    ghost deref_gives = { λ n x. x ≡ content n };

    fn deref(&self) -> &T
        ensures { result.now ≡ content self.now }
    {
        self.content()
    }
}

impl<T: PartialEq> PartialEq for Node<T> {
    ghost eq = { λ x y. T.eq (content x) (content y) };

    ghost laws = { on_per (λ x. content x) T.laws };

    fn eq(&self, other: &Node<T>) -> bool {
        *self.content() == *other.content()
    }
}

impl<T: Eq> Eq for Node<T> {
    ghost laws = { on_equiv (λ x. content x) T.Eq.laws };
}

impl<T: Hash> Hash for Node<T> {
    ghost hash_input = { λ n. T.hash_input (content n) };

    ghost respects_eq = { Prim.search (hashing, rules) };

    fn hash<H: Hasher>(&self, state: &mut H) {
        self.content().hash(state)
    }
}

impl<T: fmt::Display> fmt::Display for Node<T> {
    ghost output = { λ n. T.output (content n) };

    fn fmt<W: fmt::Write>(&self, f: &mut fmt::Formatter<W>) -> fmt::Result {
        self.content().fmt(f)
    }
}
