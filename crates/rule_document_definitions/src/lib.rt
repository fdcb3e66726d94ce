//! The rules that a document keeps under a schema, as definitions: no code.
//!
//! Each rule is a predicate named after its variant of the faults, on what `specs/Reached.antt` reaches of a kept document.
//! Begin with `specs/Selected.antt` and `specs/Reached.antt`; `specs/DocumentRules.antt` has them all, `specs/Verdict.antt`
//! says when they hold.
//!
//! An examination of lists of fields by groups gives the same answer as merging of all pairs of chains
//! (`specs/MergingLaws.antt`). Fields are settled if a relation `Stand` of fields has this property: if it relates two
//! fields that go together, they agree, and it relates each field below the one to each field below the other
//! (`IsSettledIn` of `specs/Settled.antt`); so what was examined before needs no examination, wherever it is. It
//! relates the fields of one list, or those of them that go together (`StandWhere`). Chains lead to each list
//! (`specs/Going.antt`), so what is told of two of its fields is true. `proofs/SettledFacts.antt` has the steps of an
//! examination, `proofs/SharingFacts.antt` the groups, `proofs/Merges.antt` the conclusion.
#![tactic(auto)]

pub mod laws;
