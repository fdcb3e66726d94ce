//! Reads GraphQL texts (October 2021, sections 2 and 3, appendix B).
//!
//! [`parse_document`], [`parse_type`] and [`parse_selections`] answer the tree of a text. If the text does not match the
//! symbol, or nests its brackets too deep, they answer the fault. Each ensures:
//! - `found`: the tree answered is the text's, and its brackets nest within the limit;
//! - `sound`: that tree can be written, each schema definition in it names a root, and no node at any depth is built in,
//!   unless the file is that of the built-in definitions;
//! - `only`: if the text has a tree within the limit, the answer is that tree, or that memory ran out;
//! - `fault`: the fault answered is due, and is the earliest: some text of the symbol begins with the tokens before it;
//! - `within`: it is in the text: `End` where that ends, each other fault before;
//! - `bound`: a tree is answered only if no prefix of the text nests brackets deeper than the limit, `Nesting` only if one
//!   does.
//!
//! The one source of a document is its text, under the number of its file and without a path (`sources`).
//!
//! Begin with `specs/Reads.antt`, which says what these words mean of a text; tokens and grammar are those of
//! `read_tokens` and `read_grammar`.
#![tactic(auto)]

mod document_call;
mod document_list;
mod fault;
mod finish;
mod selections_call;
mod type_call;

pub use document_call::{parse_document, parse_shared_document};
pub use fault::{ReadFault, SyntaxFault, SyntaxFaultKind};
pub use read_tokens::{NextToken, Token, TokenKind, next_token};
pub use selections_call::parse_selections;
pub use type_call::parse_type;
