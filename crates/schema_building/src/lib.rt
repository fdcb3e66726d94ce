//! The state of a schema builder: the list of all definitions that were added, each extension with its number, and what
//! the settings make of it.
//!
//! For the layer above: contracts see a builder as a record (`specs/BuilderValue.antt`); its results are stated in
//! `specs/Building.antt` by the definitions of the fold (`schema_fold`). It returns the list of definitions that
//! counts, which `schema_fold_lists` folds.
//!
//! Begin with `state.rt` and `building.rt`.
#![tactic(auto)]

mod adopt;
mod building;
mod built_in_types;
mod defined;
mod empty;
mod refusal;
mod settle;
mod sources;
mod state;
mod texts;
mod waiting;

pub use refusal::BuilderRefusal;
pub use sources::add_sources;
pub use state::{Building, SettledList};
pub use waiting::OrphanExtensionTypes;
