//! What is printed reads as it was: printed pieces are tokens, and the grammar reads them as the tree that was printed.
//!
//! Laws, each the contract of a function that does nothing:
//! - `strings.rt`: what is printed of a string is read as it was. How a string is printed is in `tree_literals`
//!   (`specs/StringLayout.antt`), how far a string token reaches and what it stands for in `read_tokens` (`specs/Strings.antt`
//!   and `specs/Blocks.antt`).
//! - `printed.rt`: the text of a well-formed tree (`specs/WellFormed.antt`) is a text of its symbol, of this tree alone, apart
//!   from places (`specs/ReadsAlone.antt`). `specs/Printed.antt` has what the proofs are put together from.
//! - `depth.rt`: how deep the brackets of a text nest is told by its tree. The depth of a tree (`specs/TreeDepth.antt`) is a
//!   greatest number over its parts, and one more inside each bracket. It is the depth of any tokens that are a text of that
//!   tree; no place counts in it; so it is the depth of what is printed of the tree too (`specs/NestsAlike.antt`).
//!   `proofs/Nests.antt` has the one form that composes over the grammar, the files after it a line for each of its symbols.
//!
//! Code (`again.rt`): [`reread_type`] and [`reread_document`] answer the tree that was printed, apart from places, or that a limit
//! kept its text from being read; never a syntax fault (`specs/ReadsAgain.antt`). They rest on the laws, and on this, that the
//! tree of every Rust value is well-formed (`proofs/WellFormed.antt`, `proofs/WellFormedDefinitions.antt`).
//!
//! Begin with `specs/ReadsAlone.antt`, then `specs/ReadsAgain.antt`.
#![tactic(auto)]

mod again;
pub mod depth;
pub mod printed;
pub mod strings;

pub use again::{reread_document, reread_type};
