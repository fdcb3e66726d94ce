//! Selections under a schema: each field with its definition, each selection set with the name of its type.
//!
//! For the layers above: contracts see a selection and a set as plain trees (`specs/TypedTree.antt`,
//! `specs/TypedParts.antt`); equality and hash are those of the trees without places.
//!
//! Begin with `specs/TypedTree.antt` and `selection.rt`.
#![tactic(auto)]

mod clones;
mod field;
mod fields;
mod fragment_spread;
mod inline_fragment;
pub mod laws;
mod selection;
mod selection_set;

pub use fields::Fields;
pub use selection::{Field, FragmentSpread, InlineFragment, Selection, SelectionSet};

// Of the crates below, for the crates above.
pub use tree_definitions::{Definition, Document, SourceFile};
