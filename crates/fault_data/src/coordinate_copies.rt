//! Copies of coordinates. Names are shared, and not copied.
ghost use Rattle.std.specs.Prelude.{◌≡◌, IfOk};
ghost use Rattle.schema_coordinates.specs.CoordinateView.{attribute_coordinate, schema_coordinate};

use schema_coordinates::{
    DirectiveArgumentCoordinate, DirectiveCoordinate, FieldArgumentCoordinate, SchemaCoordinate,
    TypeAttributeCoordinate, TypeCoordinate,
};
use std::alloc::AllocError;
use tree_literals::{copies_of_three, copies_of_two};

/// A copy of the coordinate.
pub(crate) fn copied_attribute(
    coordinate: &TypeAttributeCoordinate,
) -> Result<TypeAttributeCoordinate, AllocError>
    ensures { IfOk result (λ copy. attribute_coordinate copy ≡ attribute_coordinate coordinate.now) }
{
    let (ty, attribute) = copies_of_two(&coordinate.ty, &coordinate.attribute)?;
    Ok(TypeAttributeCoordinate { ty, attribute })
}

/// A copy of the coordinate.
pub(crate) fn copied_coordinate(
    coordinate: &SchemaCoordinate,
) -> Result<SchemaCoordinate, AllocError>
    ensures { IfOk result (λ copy. schema_coordinate copy ≡ schema_coordinate coordinate.now) }
{
    match coordinate {
        SchemaCoordinate::Named(named) => Ok(SchemaCoordinate::Named(TypeCoordinate {
            ty: named.ty.clone()?,
        })),
        SchemaCoordinate::TypeAttribute(attribute) => Ok(SchemaCoordinate::TypeAttribute(
            copied_attribute(attribute)?,
        )),
        SchemaCoordinate::FieldArgument(argument) => {
            let (ty, field, argument) = copies_of_three(
                &argument.ty,
                &argument.field,
                &argument.argument,
            )?;
            Ok(SchemaCoordinate::FieldArgument(FieldArgumentCoordinate {
                ty,
                field,
                argument,
            }))
        }
        SchemaCoordinate::Directive(directive) => Ok(SchemaCoordinate::Directive(
            DirectiveCoordinate {
                directive: directive.directive.clone()?,
            },
        )),
        SchemaCoordinate::DirectiveArgument(argument) => {
            let (directive, argument) = copies_of_two(&argument.directive, &argument.argument)?;
            Ok(SchemaCoordinate::DirectiveArgument(DirectiveArgumentCoordinate {
                directive,
                argument,
            }))
        }
    }
}
