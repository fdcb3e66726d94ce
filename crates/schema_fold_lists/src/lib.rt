//! What a whole list of definitions folds to, and all that is told of it: the parts of the fold, put together.
//!
//! For the layer above: `fold_list` folds a list with what is built in at its front; `specs/ListBuilt.antt` says what it
//! returns, by the definitions of the fold (`schema_fold`).
//!
//! Begin with `fold.rt` and `specs/ListBuilt.antt`.
#![tactic(auto)]

mod fold;

pub use fold::{Folded, fold_list};
pub use schema_built_in::{schema_field, type_field, typename_field};
pub use schema_fold::BuildError;
