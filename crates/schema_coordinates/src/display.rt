//! How coordinates are printed.
ghost use Rattle.std.specs.Prelude.{Some};
ghost use Rattle.schema_coordinates.specs.Coordinate.{printed};
ghost use Rattle.schema_coordinates.specs.CoordinateView.{type_coordinate, attribute_coordinate, argument_coordinate, directive_coordinate, directive_argument_coordinate, schema_coordinate};

use crate::coordinate::{
    DirectiveArgumentCoordinate, DirectiveCoordinate, FieldArgumentCoordinate, SchemaCoordinate,
    TypeAttributeCoordinate, TypeCoordinate,
};
use std::fmt;

impl fmt::Display for TypeCoordinate {
    ghost output = { λ c. Some (printed (type_coordinate c)) };

    fn fmt<W: fmt::Write>(&self, f: &mut fmt::Formatter<W>) -> fmt::Result {
        write!(f, "{}", self.ty)
    }
}

impl fmt::Display for TypeAttributeCoordinate {
    ghost output = { λ c. Some (printed (attribute_coordinate c)) };

    fn fmt<W: fmt::Write>(&self, f: &mut fmt::Formatter<W>) -> fmt::Result {
        write!(f, "{}.{}", self.ty, self.attribute)
    }
}

impl fmt::Display for FieldArgumentCoordinate {
    ghost output = { λ c. Some (printed (argument_coordinate c)) };

    fn fmt<W: fmt::Write>(&self, f: &mut fmt::Formatter<W>) -> fmt::Result {
        write!(f, "{}.{}({}:)", self.ty, self.field, self.argument)
    }
}

impl fmt::Display for DirectiveCoordinate {
    ghost output = { λ c. Some (printed (directive_coordinate c)) };

    fn fmt<W: fmt::Write>(&self, f: &mut fmt::Formatter<W>) -> fmt::Result {
        write!(f, "@{}", self.directive)
    }
}

impl fmt::Display for DirectiveArgumentCoordinate {
    ghost output = { λ c. Some (printed (directive_argument_coordinate c)) };

    fn fmt<W: fmt::Write>(&self, f: &mut fmt::Formatter<W>) -> fmt::Result {
        write!(f, "@{}({}:)", self.directive, self.argument)
    }
}

impl fmt::Display for SchemaCoordinate {
    ghost output = { λ c. Some (printed (schema_coordinate c)) };

    fn fmt<W: fmt::Write>(&self, f: &mut fmt::Formatter<W>) -> fmt::Result {
        match self {
            SchemaCoordinate::Named(coordinate) => fmt::Display::fmt(coordinate, f),
            SchemaCoordinate::TypeAttribute(coordinate) => fmt::Display::fmt(coordinate, f),
            SchemaCoordinate::FieldArgument(coordinate) => fmt::Display::fmt(coordinate, f),
            SchemaCoordinate::Directive(coordinate) => fmt::Display::fmt(coordinate, f),
            SchemaCoordinate::DirectiveArgument(coordinate) => fmt::Display::fmt(coordinate, f),
        }
    }
}
