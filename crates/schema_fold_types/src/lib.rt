//! The fold of a list of definitions to types; and the folding rules on the entry at a position of the list:
//! definitions after others of their name, and extensions of what is not defined or is of another kind.
//!
//! For the layer above: the types, and the faults, are stated by positions in the whole list of definitions
//! (`specs/Fold.antt` and `specs/BuildErrors.antt` of `schema_fold`); `specs/Misplaced.antt` puts the rules on
//! positions together. Extensions are found by the name of their type, so that the list is not scanned once for each
//! type.
//!
//! Begin with `specs/ListTypes.antt`, `types.rt` and `misplaced.rt`.
#![tactic(auto)]

mod collisions;
mod defined_kinds;
mod extensions;
mod misplaced;
mod orphans;
mod types;

pub use misplaced::tell_misplaced;
pub use types::fold_types;

// Of the crates below, for the crates above.
pub use schema_fold_index::Index;
