//! Rows of documents and sets of fields that get a meaning under a schema, with the walks over these, and fields that sets make; and
//! of schemas, of parts of documents by themselves, of documents, and of sets of fields, that are judged by rules.
//!
//! For the program of rows, which says how each rule is called (`Rules`): `Judging` has the calls over these. It needs no
//! crate of rules, so that it is proved at the same time and not after them.
//!
//! Begin with `calls.rt` and `rules.rt`.
#![tactic(auto)]

mod calls;
mod copies;
mod given;
mod input;
mod inputs;
mod judged;
mod judged_documents;
mod judged_schemas;
mod judged_sets;
mod kept_documents;
mod kept_sets;
mod lines;
mod made;
mod merging;
mod new_fields;
mod outline;
mod rules;
mod schemas;
mod told;
mod uses;
mod walks;
mod words;

pub use calls::Judging;
pub use rules::Rules;

// From the crates below, for those above.
pub use row_building::{Building, Schema};
