//! Warnings about valid documents: uses of what is deprecated (section 3.13.3).
//!
//! For the layers above: `deprecated_uses` tells the uses in a document, and nothing else, by the definition in
//! `specs/Deprecated.antt`: of fields that are selected, of arguments that are given to fields and directives, and at any depth of
//! values of input fields and enum values. Each operation and each fragment is walked once.
//!
//! The schema is given as an `IndexedSchema`: with `SchemaInputs`, which are found once, a use of many arguments costs what it gives.
//!
//! Begin with `document.rt`, then `selections.rt`, `arguments.rt` and `values.rt`.
#![tactic(auto)]

mod arguments;
mod deprecated_use;
mod document;
mod lookups;
mod owner;
mod selections;
mod tell;
mod values;

pub use deprecated_use::{DeprecatedUse, UseKind};
pub use document::deprecated_uses;
