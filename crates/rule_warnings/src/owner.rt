//! What names belong to.
ghost use Rattle.std.specs.Prelude.{◌≡◌, IfOk};
ghost use Rattle.schema_coordinates.specs.CoordinateView.{schema_coordinate};
ghost use Rattle.rule_warnings.specs.Telling.{kind_by, coordinate_by};

use crate::deprecated_use::UseKind;
use graphql_names::Name;
use schema_coordinates::{
    SchemaCoordinate, coordinate_of_argument, coordinate_of_attribute,
    coordinate_of_directive_argument,
};
use std::alloc::AllocError;

/// What a name belongs to: a field to a type, an argument to a field of a type or to a directive, an input field to an input
/// object, a value to an enum.
#[derive(Clone, Copy)]
pub(crate) enum Owner<'a> {
    OfField(&'a Name),
    OfFieldArgument(&'a Name, &'a Name),
    OfDirectiveArgument(&'a Name),
    OfInputField(&'a Name),
    OfEnumValue(&'a Name),
}

impl Owner<'_> {
    /// What a name with this owner is.
    pub(crate) fn kind(self) -> UseKind
        ensures { result ≡ kind_by self.entry }
    {
        match self {
            Owner::OfField(_) => UseKind::Field,
            Owner::OfFieldArgument(_, _) | Owner::OfDirectiveArgument(_) => UseKind::Argument,
            Owner::OfInputField(_) => UseKind::InputField,
            Owner::OfEnumValue(_) => UseKind::EnumValue,
        }
    }

    /// The coordinate of that name.
    pub(crate) fn coordinate(self, name: &Name) -> Result<SchemaCoordinate, AllocError>
        ensures { IfOk result (λ c. schema_coordinate c ≡ coordinate_by self.entry name.now.text) }
    {
        match self {
            Owner::OfField(ty) | Owner::OfInputField(ty) | Owner::OfEnumValue(ty) => {
                coordinate_of_attribute(ty, name)
            }
            Owner::OfFieldArgument(ty, field) => coordinate_of_argument(ty, field, name),
            Owner::OfDirectiveArgument(directive) => {
                coordinate_of_directive_argument(directive, name)
            }
        }
    }
}
