//! Coordinates, and how one is made from another.
ghost use Rattle.std.specs.Prelude.{◌≡◌};
ghost use Rattle.schema_coordinates.specs.declared.coordinate.SchemaCoordinate.TheVariants as variant;

use graphql_names::Name;

/// A type: `T`.
#[derive(PartialEq, Eq, Hash, Drop)]
pub struct TypeCoordinate {
    pub ty: Name,
}

/// A field, an input field or an enum value of a type: `T.a`.
#[derive(PartialEq, Eq, Hash, Drop)]
pub struct TypeAttributeCoordinate {
    pub ty: Name,
    pub attribute: Name,
}

/// An argument of a field of a type: `T.f(a:)`.
#[derive(PartialEq, Eq, Hash, Drop)]
pub struct FieldArgumentCoordinate {
    pub ty: Name,
    pub field: Name,
    pub argument: Name,
}

/// A directive: `@d`.
#[derive(PartialEq, Eq, Hash, Drop)]
pub struct DirectiveCoordinate {
    pub directive: Name,
}

/// An argument of a directive: `@d(a:)`.
#[derive(PartialEq, Eq, Hash, Drop)]
pub struct DirectiveArgumentCoordinate {
    pub directive: Name,
    pub argument: Name,
}

/// A coordinate of any form.
#[derive(PartialEq, Eq, Hash, Drop)]
pub enum SchemaCoordinate {
    Named(TypeCoordinate),
    TypeAttribute(TypeAttributeCoordinate),
    FieldArgument(FieldArgumentCoordinate),
    Directive(DirectiveCoordinate),
    DirectiveArgument(DirectiveArgumentCoordinate),
}

impl TypeCoordinate {
    /// The attribute of that name of the type.
    pub fn with_attribute(self, attribute: Name) -> TypeAttributeCoordinate
        ensures ty { result.ty ≡ self.ty }
        ensures attribute { result.attribute ≡ attribute }
    {
        TypeAttributeCoordinate {
            ty: self.ty,
            attribute,
        }
    }
}

impl TypeAttributeCoordinate {
    /// The type.
    pub fn type_coordinate(self) -> TypeCoordinate
        ensures { result.ty ≡ self.ty }
    {
        TypeCoordinate { ty: self.ty }
    }

    /// The argument of that name of the field.
    pub fn with_argument(self, argument: Name) -> FieldArgumentCoordinate
        ensures ty { result.ty ≡ self.ty }
        ensures field { result.field ≡ self.attribute }
        ensures argument { result.argument ≡ argument }
    {
        FieldArgumentCoordinate {
            ty: self.ty,
            field: self.attribute,
            argument,
        }
    }
}

impl FieldArgumentCoordinate {
    /// The type.
    pub fn type_coordinate(self) -> TypeCoordinate
        ensures { result.ty ≡ self.ty }
    {
        TypeCoordinate { ty: self.ty }
    }

    /// The field.
    pub fn field_coordinate(self) -> TypeAttributeCoordinate
        ensures ty { result.ty ≡ self.ty }
        ensures attribute { result.attribute ≡ self.field }
    {
        TypeAttributeCoordinate {
            ty: self.ty,
            attribute: self.field,
        }
    }
}

impl DirectiveCoordinate {
    /// The argument of that name of the directive.
    pub fn with_argument(self, argument: Name) -> DirectiveArgumentCoordinate
        ensures directive { result.directive ≡ self.directive }
        ensures argument { result.argument ≡ argument }
    {
        DirectiveArgumentCoordinate {
            directive: self.directive,
            argument,
        }
    }
}

impl DirectiveArgumentCoordinate {
    /// The directive.
    pub fn directive_coordinate(self) -> DirectiveCoordinate
        ensures { result.directive ≡ self.directive }
    {
        DirectiveCoordinate {
            directive: self.directive,
        }
    }
}

impl From<Name> for DirectiveCoordinate {
    ghost from_gives = { λ directive c. c.directive ≡ directive };

    fn from(directive: Name) -> DirectiveCoordinate {
        DirectiveCoordinate { directive }
    }
}

impl From<TypeCoordinate> for SchemaCoordinate {
    ghost from_gives = { λ c any. any ≡ variant.Named c };

    fn from(coordinate: TypeCoordinate) -> SchemaCoordinate {
        SchemaCoordinate::Named(coordinate)
    }
}

impl From<TypeAttributeCoordinate> for SchemaCoordinate {
    ghost from_gives = { λ c any. any ≡ variant.TypeAttribute c };

    fn from(coordinate: TypeAttributeCoordinate) -> SchemaCoordinate {
        SchemaCoordinate::TypeAttribute(coordinate)
    }
}

impl From<FieldArgumentCoordinate> for SchemaCoordinate {
    ghost from_gives = { λ c any. any ≡ variant.FieldArgument c };

    fn from(coordinate: FieldArgumentCoordinate) -> SchemaCoordinate {
        SchemaCoordinate::FieldArgument(coordinate)
    }
}

impl From<DirectiveCoordinate> for SchemaCoordinate {
    ghost from_gives = { λ c any. any ≡ variant.Directive c };

    fn from(coordinate: DirectiveCoordinate) -> SchemaCoordinate {
        SchemaCoordinate::Directive(coordinate)
    }
}

impl From<DirectiveArgumentCoordinate> for SchemaCoordinate {
    ghost from_gives = { λ c any. any ≡ variant.DirectiveArgument c };

    fn from(coordinate: DirectiveArgumentCoordinate) -> SchemaCoordinate {
        SchemaCoordinate::DirectiveArgument(coordinate)
    }
}
