//! A use of what is deprecated, and its text.
ghost use Rattle.std.specs.Prelude.{◌≡◌, Some};
ghost use Rattle.rule_warnings.specs.Views.{warning_name, warning_text, use_tree};

use graphql_names::SourceSpan;
use schema_coordinates::SchemaCoordinate;
use std::fmt;

/// The reason where `@deprecated` gives none (section 3.13.3).
const DEFAULT_REASON: &str = "No longer supported";

/// What is used.
#[derive(Clone, Copy)]
pub enum UseKind {
    Field,
    Argument,
    InputField,
    EnumValue,
}

impl UseKind {
    /// The name of the warning about such a use.
    pub fn warning_name(self) -> &'static str
        ensures { result.now ≡ warning_name self }
    {
        match self {
            UseKind::Field => "DeprecatedField",
            UseKind::Argument => "DeprecatedArgument",
            UseKind::InputField => "DeprecatedInputField",
            UseKind::EnumValue => "DeprecatedEnumValue",
        }
    }
}

/// The use of a name whose definition has `@deprecated`.
pub struct DeprecatedUse {
    /// The place of the name.
    pub location: Option<SourceSpan>,
    pub kind: UseKind,
    /// What the name is of.
    pub coordinate: SchemaCoordinate,
    /// The string that `@deprecated` gives as its reason, if it does.
    pub given_reason: Option<String>,
}

impl Drop for DeprecatedUse {
    fn drop(self) {
        let DeprecatedUse {
            location: _,
            kind: _,
            coordinate: _,
            given_reason: _,
        } = self;
    }
}

impl DeprecatedUse {
    /// The reason that is given, else the default.
    pub fn reason(&self) -> &str
        ensures { result.now ≡ (use_tree self.now).reason }
    {
        match &self.given_reason {
            Some(reason) => reason.as_str(),
            None => DEFAULT_REASON,
        }
    }
}

/// Such as "`Query.old` is deprecated: use new".
impl fmt::Display for DeprecatedUse {
    ghost output = { λ u. Some (warning_text (use_tree u)) };

    fn fmt<W: fmt::Write>(&self, f: &mut fmt::Formatter<W>) -> fmt::Result {
        let reason = self.reason();
        write!(f, "`{}` is deprecated: {reason}", self.coordinate)
    }
}
