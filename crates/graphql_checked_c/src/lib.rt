//! The checker for C: texts go in as bytes; a status comes out, and a report or a text in the caller's room.
//!
//! C holds a schema of several texts (`handle.rt`, `held.rt`, `opening.rt`), and asks it for one document after another (`over.rt`).
//! Faults are told as the program does, or as lines of JSON (`reports.rt`). Users call the functions of `include/graphql_checked.h`:
//! `c/graphql_checked.c` keeps texts and answers for them, and calls those of `schemas.rt`, which `scripts/proved_archive.py` puts into
//! an archive.
//!
//! Begin with `schemas.rt`, and `specs/CallResults.antt`.
#![tactic(auto)]

mod answer;
mod handle;
mod held;
mod opening;
mod over;
mod reports;
mod schemas;

pub use handle::{Handle, Kept};
pub use schemas::{
    graphql_proved_document_text, graphql_proved_schema_check, graphql_proved_schema_close,
    graphql_proved_schema_open, graphql_proved_schema_text,
};
