//! The checker: schema texts and a document text go in. A verdict and faults come out, and for an accepted pair both
//! texts, written again.
//!
//! For the layer above: a yes is right, each fault is right, and what is written is the layout's bytes. The definitions
//! are those of `verdict_definitions` (`Judge`, `Says`, `Answer`, `Out`); contracts of the calls say which of them
//! holds (`specs/Verdicts.antt`, `specs/Run.antt`, `specs/CheckerAnswers.antt`). A checked schema is that of accepted
//! texts (`IsCheckedSchemaOf`), and the possible types that it has are those of its schema (`ArePossibleIfFound`); a
//! checked document is accepted over its schema (`IsCheckedDocumentOf`): each keeps this as its invariant.
//!
//! A [`Checker`] takes schema texts and gives a [`CheckedSchema`], which checks documents. [`check_texts`] is the two in
//! one call, and [`run`] the same over readers and a writer. Begin with `checker.rt`, `checked_schema.rt` and
//! `run_texts.rt`.
#![tactic(auto)]

mod build_errors;
mod checked_document;
mod checked_schema;
mod checker;
mod run_texts;
mod verdict;

pub use book_validity::Schema;
pub use checked_document::CheckedDocument;
pub use checked_schema::CheckedSchema;
pub use checker::{Checker, Limits};
pub use checker_calls::{
    CheckError, Layout, Outcome, Refusal, RunFault, Settings, Verdict, exit_status,
};
pub use document_typed_operations::ExecutableDocument;
pub use graphql_faults::{Details, DiagnosticList};
pub use run_texts::run;
pub use verdict::check_texts;
