//! What the selections of a document mean under a schema, as plain trees: no code.
//!
//! `specs/MeantTree.antt` has the trees, `specs/Unplaced.antt` the same without places.
//!
//! Begin with `specs/MeantTree.antt`.
#![tactic(auto)]
