//! The form of schema coordinates: names of types, fields, values, arguments and directives of a schema in one line, how
//! they are printed and how they are read. What they name in a schema is found by `graphql_coords`.
//!
//! For the layer above: contracts see a coordinate as one of five forms (`specs/Coordinate.antt`); a text is read
//! exactly when it is printed for some coordinate.
//!
//! Begin with `coordinate.rt` and `specs/Coordinate.antt`.
#![tactic(auto)]

mod coordinate;
mod display;
mod from_str;
mod made;
mod parse_error;
mod parts;

pub use coordinate::{
    DirectiveArgumentCoordinate, DirectiveCoordinate, FieldArgumentCoordinate, SchemaCoordinate,
    TypeAttributeCoordinate, TypeCoordinate,
};
pub use made::{coordinate_of_argument, coordinate_of_attribute, coordinate_of_directive_argument};
pub use parse_error::SchemaCoordinateParseError;
