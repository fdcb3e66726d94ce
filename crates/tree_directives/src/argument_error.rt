//! Why an argument has no value.

use thiserror::Error;

/// Why an argument of a directive has no value.
#[derive(Clone, Copy, Debug, PartialEq, Eq, Hash, Error)]
pub enum ArgumentByNameError {
    /// No value is given, and the directive has no definition.
    #[error("the directive is not defined")]
    UndefinedDirective,
    /// No value is given, and the directive's definition has no such argument.
    #[error("the directive has no such argument")]
    NoSuchArgument,
    /// No value is given, and the argument is non-null without a default.
    #[error("the required argument is not specified")]
    RequiredArgumentNotSpecified,
}
