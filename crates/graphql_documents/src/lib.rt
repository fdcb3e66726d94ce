//! Documents under a schema: the public interface of the crates that make, type, write and walk them.
//!
//! For the layers above: contracts see a document as a plain tree (`specs/TypedDocument.antt` of
//! `document_typed_operations`); what is built from documents is the kept document of `specs/KeptDocument.antt` of
//! `document_typing`, typed by its place (`specs/TypedByPlace.antt`); the faults that are told are those of
//! `specs/TypingFaults.antt`; what is written is that of `specs/OutDoc.antt`; a walk lends each reached field once
//! (`specs/Reached.antt` of `document_typed_operations`).
//!
//! Calls that need more than the crate of their type has are in traits, one for each type that has such calls:
//! [`SelectionSetExt`], [`OperationExt`], [`FieldExt`], [`FragmentSpreadExt`], [`ExecutableDocumentExt`] and
//! [`FieldSetExt`].
//!
//! Begin with `selection_set.rt` and `specs/NewFields.antt`, then `document.rt` and `operation.rt`.
#![tactic(auto)]

mod document;
mod field;
mod field_set;
mod fragment_spread;
pub mod laws;
mod new_field_error;
mod operation;
mod selection_set;

pub use document::ExecutableDocumentExt;
pub use document_typed_operations::{
    AllFields, ExecutableDocument, FieldSet, Fragment, FragmentMap, Operation, OperationMap,
    Operations, RootFields,
};
pub use document_typed_selections::{
    Field, Fields, FragmentSpread, InlineFragment, Selection, SelectionSet,
};
pub use document_typing::{
    BuildError, BuilderRefusal, ConflictingFieldArgument, ConflictingFieldName,
    ConflictingFieldType, ExecutableDocumentBuilder,
};
pub use field::FieldExt;
pub use field_set::FieldSetExt;
pub use fragment_spread::FragmentSpreadExt;
pub use new_field_error::NewFieldError;
pub use operation::OperationExt;
pub use selection_set::SelectionSetExt;
