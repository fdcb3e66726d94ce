//! Coordinates, and what they name in a schema.

use crate::words::{missing_words, named_words, parse_words};
use graphql_coords::{
    DirectiveArgumentCoordinate, DirectiveCoordinate, FieldArgumentCoordinate, SchemaCoordinate,
    SchemaCoordinateExt, SchemaCoordinateParseError, TypeAttributeCoordinate, TypeCoordinate,
};
use graphql_schema::Schema;
use row_files::{Answer, Case, Field, Problem, text_of};
use std::alloc::Global;
use std::fmt::Display;

/// Adds what the input is, read in the row's form if it has one, and else what it names in the schema.
pub(crate) fn push_coordinate(
    alloc: Global,
    case: Case<'_>,
    schema: &Schema,
    input: &[u8],
    answer: &mut Answer,
) -> Result<(), Problem> {
    let text = text_of(case, input)?;
    match case.row.one("form")? {
        None => Ok(push_any(alloc, schema, text, answer)),
        Some(form) => push_form(alloc, form, text, answer),
    }
}

/// Adds what a coordinate of any form names, or why it names nothing, and what it prints.
fn push_any(alloc: Global, schema: &Schema, text: &str, answer: &mut Answer) {
    match SchemaCoordinate::from_str(alloc, text) {
        Ok(coordinate) => answer.show(looked_up(&coordinate, schema), &coordinate),
        Err(error) => answer.status.put(parse_words(error)),
    }
}

/// What the coordinate names in the schema, or why it names nothing.
fn looked_up(coordinate: &SchemaCoordinate, schema: &Schema) -> &'static str {
    match coordinate.lookup(schema) {
        Ok(named) => named_words(named),
        Err(error) => missing_words(error),
    }
}

/// Adds what a coordinate of one form prints, or why the text is none.
fn push_form(
    alloc: Global,
    form: Field<'_>,
    text: &str,
    answer: &mut Answer,
) -> Result<(), Problem> {
    match form.value {
        "type" => push_read(TypeCoordinate::from_str(alloc, text), answer),
        "attribute" => push_read(TypeAttributeCoordinate::from_str(alloc, text), answer),
        "field argument" => push_read(FieldArgumentCoordinate::from_str(alloc, text), answer),
        "directive" => push_read(DirectiveCoordinate::from_str(alloc, text), answer),
        "directive argument" => {
            push_read(DirectiveArgumentCoordinate::from_str(alloc, text), answer);
        }
        _ => return Err(form.problem("there is no such form")),
    }
    Ok(())
}

/// Adds what a coordinate prints, or why the text is none.
fn push_read<T: Display + Drop>(read: Result<T, SchemaCoordinateParseError>, answer: &mut Answer) {
    match read {
        Ok(coordinate) => answer.show("0", &coordinate),
        Err(error) => answer.status.put(parse_words(error)),
    }
}
