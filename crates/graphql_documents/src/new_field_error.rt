//! Why a selection set makes no field.
use document_typing::FieldLookupError;
use std::alloc::AllocError;
use std::fmt;
use thiserror::Error;

/// Why a selection set makes no field with a given name.
#[derive(Clone, Copy, Error)]
pub enum NewFieldError<'schema> {
    /// The type of the set has no such field.
    #[error(transparent)]
    Lookup(FieldLookupError<'schema>),
    /// Memory ran out.
    #[error("out of memory")]
    Memory,
}

/// The text of `Display`.
impl fmt::Debug for NewFieldError<'_> {
    fn fmt<W: fmt::Write>(&self, f: &mut fmt::Formatter<W>) -> fmt::Result {
        fmt::Display::fmt(self, f)
    }
}

impl<'schema> From<AllocError> for NewFieldError<'schema> {
    ghost use Rattle.std.specs.Prelude.{◌≡◌};
    ghost use Rattle.graphql_documents.specs.declared.new_field_error.NewFieldError.TheVariants.{Memory};

    ghost from_gives = { λ _ e. e ≡ Memory };

    fn from(_refused: AllocError) -> NewFieldError<'schema> {
        NewFieldError::Memory
    }
}
