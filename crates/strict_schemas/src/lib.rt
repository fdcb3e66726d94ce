//! What the specification does not allow in a schema, and the checker lets pass.
//!
//! For the layers above: `schema_departures` tells what texts add to built-in types, arguments that interfaces do not have,
//! inputs that are required and deprecated, numbers and items in defaults, and definitions of directives that the specification
//! does not have (`specs/Departing.antt`). `default_faults` tells by which faults defaults repeat a key or do not fit their types,
//! and the directives of built-in scalars break rules (`specs/Faults.antt`).
//!
//! Begin with `schema.rt`, then `extended.rt`, `extra.rt`, `inputs.rt` and `definitions.rt`.
#![tactic(auto)]

mod defaults;
mod definitions;
mod extended;
mod extra;
mod faults;
mod inputs;
pub mod laws;
mod parts;
mod scalars;
mod schema;
mod telling;

pub use faults::default_faults;
pub use schema::schema_departures;
