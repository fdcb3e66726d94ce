//! What breaks a rule of typing documents, of merging, of subscriptions or of `@defer`, and how it is told.
//!
//! For the layers above: contracts see a `BuildError` as its variant with plain data (`specs/DocumentBreaches.antt`); its
//! text is the variant's template, filled (`specs/DocumentMessages.antt`).
//!
//! Begin with `build_error.rt` and `specs/DocumentBreaches.antt`.
#![tactic(auto)]

mod build_error;
mod build_error_text;

pub use build_error::{
    BuildError, ConflictingFieldArgument, ConflictingFieldName, ConflictingFieldType,
};
