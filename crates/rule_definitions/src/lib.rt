//! The rules that a schema keeps, as definitions: no code.
//!
//! Each rule is a predicate named after its variant of the faults, on what `specs/Judged.antt` reads of a schema.
//! Begin with `specs/Words.antt` and `specs/Empty.antt`; `specs/Rules.antt` has them all.
#![tactic(auto)]

pub mod laws;
