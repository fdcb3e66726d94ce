//! What breaks a rule: which data belong to it, and how it is told.
//!
//! For the layers above: contracts see a `DiagnosticData` as its variant with plain data (`Diagnostic` of
//! `rule_definitions`), which is what `==` compares; its text is the variant's template, filled
//! (`specs/Messages.antt`). A `Fault` is such data with a place.
//!
//! Begin with `diagnostic_data.rt` and `specs/DiagnosticView.antt`.
#![tactic(auto)]

mod coordinate_copies;
mod copy;
mod diagnostic_data;
mod fault;
mod message;
mod schema_copies;
mod template;
mod use_copies;

pub use diagnostic_data::DiagnosticData;
pub use fault::{Fault, MOST_TOLD, is_full, tell};
pub use schema_coordinates::TypeAttributeCoordinate;
