//! A report of faults: each under the path of its text, at its line and column, with the name of its rule, the places that
//! belong to it, and a hint if there is one. A valid document may have warnings.
//!
//! For the layer above: [`Report::new`] has an entry for each fault, in the order of texts and places; its clause says where each
//! entry is, what rule it names, what it tells and which places belong to it (`specs/Reports.antt`).
//! [`Report::of_warnings`] and [`Report::of_schema_warnings`] have an entry for each use of what is deprecated and for what the
//! specification does not allow, in the same order (`specs/Warnings.antt`).
//!
//! Begin with `report.rt`, then `warnings.rt`.
#![tactic(auto)]

mod alike;
mod brackets;
mod entries;
mod fields;
mod found;
mod hints;
mod operations;
mod report;
mod schema_hints;
mod syntax_hints;
mod taken;
mod text_names;
mod told_places;
mod warnings;

pub use report::Report;
pub use report_forms::{
    Entry, Excerpt, Field, Lines, Place, Position, Related, Severity, Source, shown,
};
pub use strict_documents::StrictSchema;
