//! The positions of the definitions and extensions of types in a list, by the names of the types.
//!
//! For the layers above: the state of a schema builder keeps such an index of what was added to it
//! (`schema_building`), and types are folded from it (`schema_fold_types`). What it has is stated by positions
//! in the whole list (`specs/Index.antt`).
//!
//! Begin with `index.rt` and `specs/Index.antt`.
#![tactic(auto)]

mod index;

pub use index::{Index, Positions};

// Of the crates below, for the crates above.
pub use schema_fold::{
    BuildError, Defined, Definition, ExtendedType, NumberedDefinition, Parts, TypeKind,
    extension_parts, fold_type, insert_new, tell, type_definition,
};
