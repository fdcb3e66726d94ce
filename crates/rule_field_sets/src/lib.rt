//! The selection sets of a document, each with a number, and the fields in them: what merging reads of them (section 5.3.2).
//! Equal numbers mean equal contents, and conversely, so that nothing that is nested is compared once numbers are there.
//!
//! For the layers above: `FieldSets` has the sets of a document as nodes (`AreSets` of `specs/Nodes.antt`): a node has the
//! number of its set, the fields of the set with their numbers, each number once, and the indices of the fragments that the
//! set spreads; the set of a field is an earlier node. `add_set` adds nodes and changes none (`SetsGrow`). Equal numbers of
//! members and of nodes mean equal contents (`proofs/Among.antt`).
//!
//! Within the crate `found_sets` gives a set and all sets of fields within it, each before those within it (`AreFound` of
//! `specs/Found.antt`), `places_of` the indices of fragments by their names (`ArePlaces` there). `Numbers` gives fields and
//! sets their numbers, bottom up (`AreRight` of `specs/Tables.antt`).
//!
//! Begin with `specs/Nodes.antt` and `specs/Tables.antt`, then `found.rt`, `numbers.rt` and `field_sets.rt`.
#![tactic(auto)]

mod field_sets;
mod found;
mod kinds;
mod member;
mod numbers;

pub use field_sets::FieldSets;
pub use member::{Member, SetNode};

// Of the crates below, for those above.
pub use graphql_schema::Schema;
pub use rule_reach::{FieldSelection, push_breach};
