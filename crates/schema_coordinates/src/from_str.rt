//! Coordinates read from texts.
ghost use Rattle.std.specs.Prelude.{◌≡◌, [], ◌∷◌, IfOk, IfErr, OnOk, is_ok};
ghost use Rattle.graphql_names.specs.NameSyntax.{is_name, IsName};
ghost use Rattle.schema_coordinates.specs.Coordinate.{OfType, OfAttribute, OfArgument, OfDirective, OfDirectiveArgument, printed, parts as texts};
ghost use Rattle.schema_coordinates.specs.Reading.{parts_view};
ghost use Rattle.schema_coordinates.specs.CoordinateView.{type_coordinate, attribute_coordinate, argument_coordinate, directive_coordinate, directive_argument_coordinate, schema_coordinate, any_form, type_form, attribute_form, argument_form, directive_form, directive_argument_form};
ghost use Rattle.schema_coordinates.specs.ParseErrors.{ParseErrorIsDue, PartsErrorIsDue};

use crate::coordinate::{
    DirectiveArgumentCoordinate, DirectiveCoordinate, FieldArgumentCoordinate, SchemaCoordinate,
    TypeAttributeCoordinate, TypeCoordinate,
};
use crate::parse_error::SchemaCoordinateParseError;
use crate::parts::{Parts, parts_of};
use graphql_names::{InvalidNameError, Name};
use std::alloc::Global;

/// `InvalidName`, if the text is not a name.
fn check_name(text: &str) -> Result<(), SchemaCoordinateParseError>
    ensures name { OnOk result (IsName text.now) }
    ensures error { IfErr result (PartsErrorIsDue (text.now ∷ [])) }
    ensures memory { is_ok result ≡ is_name text.now }
{
    if Name::is_valid_syntax(text) {
        Ok(())
    } else {
        Err(SchemaCoordinateParseError::InvalidName(InvalidNameError))
    }
}

impl TypeCoordinate {
    /// The coordinate that is printed as this text: `T`.
    // Not the trait `FromStr`, which does not take the `alloc` that names need.
    pub fn from_str(alloc: Global, text: &str) -> Result<TypeCoordinate, SchemaCoordinateParseError>
        ensures read { IfOk result (λ c. printed (type_coordinate c) ≡ text.now) }
        ensures error { IfErr result (ParseErrorIsDue type_form text.now) }
    {
        let parts = parts_of(text)?;
        match parts {
            Parts::Type(ty) => TypeCoordinate::named(alloc, ty),
            _ => Err(SchemaCoordinateParseError::InvalidFormat),
        }
    }

    /// The coordinate with these names.
    fn named(alloc: Global, ty: &str) -> Result<TypeCoordinate, SchemaCoordinateParseError>
        ensures read { IfOk result (λ c. type_coordinate c ≡ OfType ty.now) }
        ensures error { IfErr result (PartsErrorIsDue (ty.now ∷ [])) }
    {
        check_name(ty)?;
        let ty = Name::new_unchecked(alloc, ty)?;
        Ok(TypeCoordinate { ty })
    }
}

impl TypeAttributeCoordinate {
    /// The coordinate that is printed as this text: `T.a`.
    pub fn from_str(
        alloc: Global,
        text: &str,
    ) -> Result<TypeAttributeCoordinate, SchemaCoordinateParseError>
        ensures read { IfOk result (λ c. printed (attribute_coordinate c) ≡ text.now) }
        ensures error { IfErr result (ParseErrorIsDue attribute_form text.now) }
    {
        let parts = parts_of(text)?;
        match parts {
            Parts::TypeAttribute(ty, attribute) => {
                TypeAttributeCoordinate::named(alloc, ty, attribute)
            }
            _ => Err(SchemaCoordinateParseError::InvalidFormat),
        }
    }

    /// The coordinate with these names.
    fn named(
        alloc: Global,
        ty: &str,
        attribute: &str,
    ) -> Result<TypeAttributeCoordinate, SchemaCoordinateParseError>
        ensures read { IfOk result (λ c. attribute_coordinate c ≡ OfAttribute ty.now attribute.now) }
        ensures error { IfErr result (PartsErrorIsDue (ty.now ∷ attribute.now ∷ [])) }
    {
        // All names are tested before the first takes memory.
        check_name(ty)?;
        check_name(attribute)?;
        let ty = Name::new_unchecked(alloc, ty)?;
        let attribute = Name::new_unchecked(alloc, attribute)?;
        Ok(TypeAttributeCoordinate { ty, attribute })
    }
}

impl FieldArgumentCoordinate {
    /// The coordinate that is printed as this text: `T.f(a:)`.
    pub fn from_str(
        alloc: Global,
        text: &str,
    ) -> Result<FieldArgumentCoordinate, SchemaCoordinateParseError>
        ensures read { IfOk result (λ c. printed (argument_coordinate c) ≡ text.now) }
        ensures error { IfErr result (ParseErrorIsDue argument_form text.now) }
    {
        let parts = parts_of(text)?;
        match parts {
            Parts::FieldArgument(ty, field, argument) => {
                FieldArgumentCoordinate::named(alloc, ty, field, argument)
            }
            _ => Err(SchemaCoordinateParseError::InvalidFormat),
        }
    }

    /// The coordinate with these names.
    fn named(
        alloc: Global,
        ty: &str,
        field: &str,
        argument: &str,
    ) -> Result<FieldArgumentCoordinate, SchemaCoordinateParseError>
        ensures read { IfOk result (λ c. argument_coordinate c ≡ OfArgument ty.now field.now argument.now) }
        ensures error { IfErr result (PartsErrorIsDue (ty.now ∷ field.now ∷ argument.now ∷ [])) }
    {
        check_name(ty)?;
        check_name(field)?;
        check_name(argument)?;
        let ty = Name::new_unchecked(alloc, ty)?;
        let field = Name::new_unchecked(alloc, field)?;
        let argument = Name::new_unchecked(alloc, argument)?;
        Ok(FieldArgumentCoordinate {
            ty,
            field,
            argument,
        })
    }
}

impl DirectiveCoordinate {
    /// The coordinate that is printed as this text: `@d`.
    pub fn from_str(
        alloc: Global,
        text: &str,
    ) -> Result<DirectiveCoordinate, SchemaCoordinateParseError>
        ensures read { IfOk result (λ c. printed (directive_coordinate c) ≡ text.now) }
        ensures error { IfErr result (ParseErrorIsDue directive_form text.now) }
    {
        let parts = parts_of(text)?;
        match parts {
            Parts::Directive(directive) => DirectiveCoordinate::named(alloc, directive),
            _ => Err(SchemaCoordinateParseError::InvalidFormat),
        }
    }

    /// The coordinate with these names.
    fn named(
        alloc: Global,
        directive: &str,
    ) -> Result<DirectiveCoordinate, SchemaCoordinateParseError>
        ensures read { IfOk result (λ c. directive_coordinate c ≡ OfDirective directive.now) }
        ensures error { IfErr result (PartsErrorIsDue (directive.now ∷ [])) }
    {
        check_name(directive)?;
        let directive = Name::new_unchecked(alloc, directive)?;
        Ok(DirectiveCoordinate { directive })
    }
}

impl DirectiveArgumentCoordinate {
    /// The coordinate that is printed as this text: `@d(a:)`.
    pub fn from_str(
        alloc: Global,
        text: &str,
    ) -> Result<DirectiveArgumentCoordinate, SchemaCoordinateParseError>
        ensures read { IfOk result (λ c. printed (directive_argument_coordinate c) ≡ text.now) }
        ensures error { IfErr result (ParseErrorIsDue directive_argument_form text.now) }
    {
        let parts = parts_of(text)?;
        match parts {
            Parts::DirectiveArgument(directive, argument) => {
                DirectiveArgumentCoordinate::named(alloc, directive, argument)
            }
            _ => Err(SchemaCoordinateParseError::InvalidFormat),
        }
    }

    /// The coordinate with these names.
    fn named(
        alloc: Global,
        directive: &str,
        argument: &str,
    ) -> Result<DirectiveArgumentCoordinate, SchemaCoordinateParseError>
        ensures read { IfOk result (λ c. directive_argument_coordinate c ≡ OfDirectiveArgument directive.now argument.now) }
        ensures error { IfErr result (PartsErrorIsDue (directive.now ∷ argument.now ∷ [])) }
    {
        check_name(directive)?;
        check_name(argument)?;
        let directive = Name::new_unchecked(alloc, directive)?;
        let argument = Name::new_unchecked(alloc, argument)?;
        Ok(DirectiveArgumentCoordinate {
            directive,
            argument,
        })
    }
}

impl SchemaCoordinate {
    /// The coordinate that is printed as this text, of any form.
    pub fn from_str(
        alloc: Global,
        text: &str,
    ) -> Result<SchemaCoordinate, SchemaCoordinateParseError>
        ensures read { IfOk result (λ c. printed (schema_coordinate c) ≡ text.now) }
        ensures error { IfErr result (ParseErrorIsDue any_form text.now) }
    {
        let parts = parts_of(text)?;
        SchemaCoordinate::named(alloc, parts)
    }

    /// The coordinate with these names.
    fn named(
        alloc: Global,
        parts: Parts<'_>,
    ) -> Result<SchemaCoordinate, SchemaCoordinateParseError>
        ensures read { IfOk result (λ c. schema_coordinate c ≡ parts_view parts.entry) }
        ensures error { IfErr result (PartsErrorIsDue (texts (parts_view parts.entry))) }
    {
        Ok(match parts {
            Parts::Type(ty) => SchemaCoordinate::Named(TypeCoordinate::named(alloc, ty)?),
            Parts::TypeAttribute(ty, attribute) => SchemaCoordinate::TypeAttribute(
                TypeAttributeCoordinate::named(alloc, ty, attribute)?,
            ),
            Parts::FieldArgument(ty, field, argument) => SchemaCoordinate::FieldArgument(
                FieldArgumentCoordinate::named(alloc, ty, field, argument)?,
            ),
            Parts::Directive(directive) => {
                SchemaCoordinate::Directive(DirectiveCoordinate::named(alloc, directive)?)
            }
            Parts::DirectiveArgument(directive, argument) => SchemaCoordinate::DirectiveArgument(
                DirectiveArgumentCoordinate::named(alloc, directive, argument)?,
            ),
        })
    }
}
