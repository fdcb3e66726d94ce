//! The book of a yes: when texts are accepted, in the order and the words of the specification (GraphQL, October 2021, sections 3
//! and 5), a field for each rule, and without faults; and laws of it. No code.
//!
//! Begin with `specs/Yes.antt`; `specs/Schema.antt` is the top of section 3, `specs/Document.antt` that of section 5. Where the
//! checker is stricter or laxer than the text, the comment of the field says so.
//!
//! In `laws.rt`: the rules by their faults, from which refusals are told, hold exactly when the book says so, for folding,
//! schemas, typing, documents, and whole texts (`specs/Laws.antt`); and the rules on merging hold exactly when the
//! specification's algorithm answers true (`specs/FieldSelectionMerging.antt`, `specs/MergingLaws.antt`; section 5.3.2).
#![tactic(auto)]

pub mod laws;

// From the crates below, for those above.
pub use verdict_definitions::{BuilderRefusal, ExecutableDocumentBuilder, Schema};
