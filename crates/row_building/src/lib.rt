//! Rows of texts that are read and trees that are printed, of schemas that are built and coordinates in them; and of the forms of a
//! fault, positions in texts and what is shown of texts. No document gets a meaning, and no rule is judged.
//!
//! For the program of rows: `Building` has the calls. For the rows that ask something of a schema: `build` gives the schema
//! of a row's texts, `schema_under` what a row without one has instead, and `document_of` reads a text. Begin with
//! `calls.rt` and `building.rt`.
#![tactic(auto)]

mod building;
mod by_form;
mod by_text;
mod calls;
mod coordinates;
mod copies;
mod extended;
mod given;
mod layouts;
mod over_schemas;
mod print;
mod read;
mod schemas;
mod trees;
mod words;

pub use building::{Built, build};
pub use calls::Building;
pub use given::{Given, document_of, schema_under};

// From the crates below, for those above.
pub use graphql_read::{parse_document, parse_selections, parse_type};
pub use graphql_schema::{ExtendedType, FieldLookupError, Schema};
