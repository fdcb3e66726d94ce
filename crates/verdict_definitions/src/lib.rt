//! The verdict on texts, as definitions: no code.
//!
//! What it means that schema texts and a document text are accepted (`specs/Judge.antt`), what each fault says of the texts
//! (`specs/Says.antt`), what is written of an accepted pair (`specs/Out.antt`), and which lists of faults and which bytes
//! may be answered (`specs/Answer.antt`). They build on the definitions of the layers: grammar, fold, rules of schemas,
//! typing, rules of documents, merging.
//!
//! Begin with `specs/Judge.antt`.
#![tactic(auto)]

// From the crates below, for those above.
pub use document_typing::{BuilderRefusal, ExecutableDocumentBuilder, Schema, SchemaBuilder};
pub use graphql_faults::{Details, DiagnosticList, ReadFault, SyntaxFault, parse_shared_document};
