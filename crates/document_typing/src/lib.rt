//! Typing of documents: what selections mean under a schema, or without one, and what has no meaning.
//!
//! For the layer above: what is kept of a document and of a set is that of `specs/KeptDocument.antt` and
//! `specs/KeptSelections.antt`. It depends only on what a schema says of names (`specs/Meanings.antt`), so equal schemas
//! give the same. The faults are the ways in which a rule of `specs/TypingFaults.antt` is broken, none left out
//! (`specs/FullList.antt`).
//!
//! Begin with `specs/Meanings.antt` and `selections.rt`; `document.rt` has whole documents.
#![tactic(auto)]

mod builder;
mod definition_rules;
mod document;
mod field_set;
mod keep;
mod look_ups;
mod refusal;
mod rules;
mod selections;
mod typing;

pub use builder::ExecutableDocumentBuilder;
pub use fault_document_errors::{
    BuildError, ConflictingFieldArgument, ConflictingFieldName, ConflictingFieldType,
};
pub use field_set::field_set_from_ast;
pub use graphql_schema::{FieldLookupError, Schema, SchemaBuilder};
pub use refusal::BuilderRefusal;

// Of the crates below, for the crates above.
