//! The fold of a list of definitions to its schema definition and to its definitions of directives.
//!
//! For the layer above: what they fold to, and the faults, are stated by positions in the whole list of definitions
//! (`specs/SchemaFold.antt`, `specs/Fold.antt` and `specs/BuildErrors.antt` of `schema_fold`).
//!
//! Begin with `specs/ListFold.antt`, `schema.rt` and `directives.rt`.
#![tactic(auto)]

mod defined;
mod directives;
mod given;
mod implicit;
mod roots;
mod schema;

pub use directives::fold_directives;
pub use schema::fold_schema;
