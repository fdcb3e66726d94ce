//! What coordinates answer, in words.

use graphql_coords::{SchemaCoordinateLookup, SchemaCoordinateParseError, SchemaLookupError};

/// Why a text is no coordinate.
pub(crate) fn parse_words(error: SchemaCoordinateParseError) -> &'static str {
    match error {
        SchemaCoordinateParseError::InvalidFormat => "1 invalid format",
        SchemaCoordinateParseError::InvalidName(_) => "1 invalid name",
        SchemaCoordinateParseError::Memory => "4 out of memory",
    }
}

/// What a coordinate names.
pub(crate) fn named_words(named: SchemaCoordinateLookup<'_>) -> &'static str {
    match named {
        SchemaCoordinateLookup::Named(_) => "0 type",
        SchemaCoordinateLookup::Directive(_) => "0 directive",
        SchemaCoordinateLookup::Field(_) => "0 field",
        SchemaCoordinateLookup::InputField(_) => "0 input field",
        SchemaCoordinateLookup::EnumValue(_) => "0 enum value",
        SchemaCoordinateLookup::Argument(_) => "0 argument",
    }
}

/// Why a coordinate names nothing.
pub(crate) fn missing_words(error: SchemaLookupError<'_, '_>) -> &'static str {
    match error {
        SchemaLookupError::MissingType(_) => "1 missing type",
        SchemaLookupError::MissingAttribute(_) => "1 missing attribute",
        SchemaLookupError::InvalidArgumentAttribute(_) => "1 attribute without arguments",
        SchemaLookupError::MissingArgument(_) => "1 missing argument",
        SchemaLookupError::InvalidType(_) => "1 type without attributes",
    }
}
