//! Why a text is not a coordinate.
ghost use Rattle.std.specs.Prelude.{◌≡◌};

use graphql_names::InvalidNameError;
use std::alloc::AllocError;
use thiserror::Error;

/// Why a text is not a coordinate.
#[derive(Clone, Copy, Debug, PartialEq, Eq, Hash, Error)]
pub enum SchemaCoordinateParseError {
    /// The signs of the text, and what is between them, do not have a form that was asked for.
    #[error("invalid schema coordinate")]
    InvalidFormat,
    /// The text has such a form, but one of its parts is not a name.
    #[error(transparent)]
    InvalidName(InvalidNameError),
    /// Memory ran out.
    #[error("out of memory")]
    Memory,
}

impl From<AllocError> for SchemaCoordinateParseError {
    ghost use Rattle.schema_coordinates.specs.declared.parse_error.SchemaCoordinateParseError.TheVariants.{Memory};

    ghost from_gives = { λ _ e. e ≡ Memory };

    fn from(_refused: AllocError) -> SchemaCoordinateParseError {
        SchemaCoordinateParseError::Memory
    }
}
