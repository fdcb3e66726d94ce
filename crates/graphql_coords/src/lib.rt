//! What schema coordinates name: their lookup in a schema. How they are formed, printed and read is in
//! `schema_coordinates`, whose types this re-exports.
//!
//! For the layer above: the result of each lookup is stated by the schema's entries (`specs/LookUps.antt`).
//!
//! Begin with `lookup.rt` and `specs/LookUps.antt`.
#![tactic(auto)]

mod find;
mod lookup;
mod lookup_answers;

pub use lookup::{
    DirectiveArgumentCoordinateExt, DirectiveCoordinateExt, FieldArgumentCoordinateExt,
    SchemaCoordinateExt, TypeAttributeCoordinateExt, TypeCoordinateExt,
};
pub use lookup_answers::{SchemaCoordinateLookup, SchemaLookupError, TypeAttributeLookup};
pub use schema_coordinates::{
    DirectiveArgumentCoordinate, DirectiveCoordinate, FieldArgumentCoordinate, SchemaCoordinate,
    SchemaCoordinateParseError, TypeAttributeCoordinate, TypeCoordinate,
};
