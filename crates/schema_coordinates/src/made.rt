//! Coordinates made of names. Names are shared, and not copied.
ghost use Rattle.std.specs.Prelude.{◌≡◌, IfOk};
ghost use Rattle.schema_coordinates.specs.Coordinate.{OfAttribute, OfArgument, OfDirectiveArgument};
ghost use Rattle.schema_coordinates.specs.CoordinateView.{schema_coordinate};

use crate::coordinate::{
    DirectiveArgumentCoordinate, FieldArgumentCoordinate, SchemaCoordinate, TypeAttributeCoordinate,
};
use graphql_names::Name;
use std::alloc::AllocError;

/// The coordinate of an attribute of a type: `T.a`.
pub fn coordinate_of_attribute(ty: &Name, attribute: &Name) -> Result<SchemaCoordinate, AllocError>
    ensures { IfOk result (λ c. schema_coordinate c ≡ OfAttribute ty.now.text attribute.now.text) }
{
    let ty = ty.clone()?;
    let attribute = attribute.clone()?;
    Ok(SchemaCoordinate::TypeAttribute(TypeAttributeCoordinate { ty, attribute }))
}

/// The coordinate of an argument of a field of a type: `T.f(a:)`.
pub fn coordinate_of_argument(
    ty: &Name,
    field: &Name,
    argument: &Name,
) -> Result<SchemaCoordinate, AllocError>
    ensures { IfOk result (λ c. schema_coordinate c ≡ OfArgument ty.now.text field.now.text argument.now.text) }
{
    let ty = ty.clone()?;
    let field = field.clone()?;
    let argument = argument.clone()?;
    Ok(SchemaCoordinate::FieldArgument(FieldArgumentCoordinate {
        ty,
        field,
        argument,
    }))
}

/// The coordinate of an argument of a directive: `@d(a:)`.
pub fn coordinate_of_directive_argument(
    directive: &Name,
    argument: &Name,
) -> Result<SchemaCoordinate, AllocError>
    ensures { IfOk result (λ c. schema_coordinate c ≡ OfDirectiveArgument directive.now.text argument.now.text) }
{
    let directive = directive.clone()?;
    let argument = argument.clone()?;
    Ok(SchemaCoordinate::DirectiveArgument(DirectiveArgumentCoordinate {
        directive,
        argument,
    }))
}
