//! The fold of definitions and extensions to types, and the faults of folding.
//!
//! For the layer above: what a type folds to is stated by positions in the whole list of definitions
//! (`specs/Fold.antt`); each folding rule is a predicate on that list (`specs/BuildErrors.antt`).
//!
//! Begin with `specs/Fold.antt` and `fold.rt`.
#![tactic(auto)]

mod build_error;
mod build_error_text;
mod collected;
mod fold;
mod gather;
mod insert;
mod keep;
mod kept_classes;
mod make;
mod numbered_definition;
mod parts;

pub use build_error::{BuildError, Repeat, tell};
pub use collected::add_components;
pub use fold::fold_type;
pub use insert::insert_new;
pub use numbered_definition::NumberedDefinition;
pub use parts::{Defined, Parts, extension_parts, type_definition};
pub use schema_types::{ExtendedType, SchemaDefinition, TypeKind, node_at};
pub use tree_definitions::{Definition, Document, ObjectTypeDefinition, SourceFile};

// Of the crates below, for the crates above.
