//! The schema of texts: folded and judged, and what is written of it.
//!
//! For the layer above: the schema of accepted texts is given (`IsCheckedSchemaOf`), or why they are refused
//! (`RefusalOfSchemas`), by [`schema_of_texts`].
//!
//! Begin with `finish.rt`, and `specs/CheckedSchemaValue.antt`.
#![tactic(auto)]

mod build_errors;
mod finish;

pub use finish::{JudgedTexts, schema_of_texts};
