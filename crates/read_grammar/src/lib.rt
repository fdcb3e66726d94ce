//! The grammar of GraphQL (October 2021, appendix B): the definitions, and why reading stops.
//!
//! For the layers above: a parser's contract says that it reads as the reference parser does
//! (`specs/Reading.antt` and its neighbours, which are private to the reader), and the lemmas in `proofs/Laws.antt` lead
//! from there to the grammar.
//!
//! Begin with `specs/Rules.antt`, `specs/Grammar.antt` and `specs/Faults.antt`; `one_tree` and `due_faults` hold the laws.
#![tactic(auto)]

pub mod due_faults;
pub mod one_tree;
mod parse_error;

pub use parse_error::ParseError;

// Re-exported from the crates below, for the crates above.
pub use graphql_ast::{Definition, Document, SourceFile};
