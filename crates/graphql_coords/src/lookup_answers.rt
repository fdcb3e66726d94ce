//! The results of lookups.
ghost use Rattle.std.specs.Prelude.{◌≡◌};
ghost use Rattle.graphql_coords.specs.LookUps.{NamedAttribute};
ghost use Rattle.graphql_coords.specs.LookUpView.{attribute_of, named_of};

use graphql_names::{Name, Node};
use graphql_schema::ExtendedType;
use schema_components::Component;
use std::fmt;
use thiserror::Error;
use tree_directives::{DirectiveDefinition, InputValueDefinition};
use tree_type_members::{EnumValueDefinition, FieldDefinition};

/// Why a coordinate names nothing in a schema, with the name that was not found or does not fit, or the type.
#[derive(Clone, Copy, Error)]
pub enum SchemaLookupError<'coord, 'schema> {
    /// There is no type, or no directive, of that name.
    #[error("there is no such type or directive")]
    MissingType(&'coord Name),
    /// The type has no attribute of that name.
    #[error("the type has no such attribute")]
    MissingAttribute(&'coord Name),
    /// The attribute of that name is not a field, so it has no arguments.
    #[error("what is no field has no arguments")]
    InvalidArgumentAttribute(&'coord Name),
    /// There is no argument of that name.
    #[error("there is no such argument")]
    MissingArgument(&'coord Name),
    /// A type of that kind has no such attributes.
    #[error("a type of that kind has no such attributes")]
    InvalidType(&'schema ExtendedType),
}

/// The text of `Display`.
impl fmt::Debug for SchemaLookupError<'_, '_> {
    fn fmt<W: fmt::Write>(&self, f: &mut fmt::Formatter<W>) -> fmt::Result {
        fmt::Display::fmt(self, f)
    }
}

/// A field, an input field or an enum value.
#[derive(Clone, Copy)]
pub enum TypeAttributeLookup<'schema> {
    Field(&'schema Component<FieldDefinition>),
    InputField(&'schema Component<InputValueDefinition>),
    EnumValue(&'schema Component<EnumValueDefinition>),
}

/// What a coordinate names.
#[derive(Clone, Copy)]
pub enum SchemaCoordinateLookup<'schema> {
    Named(&'schema ExtendedType),
    Directive(&'schema Node<DirectiveDefinition>),
    Field(&'schema Component<FieldDefinition>),
    InputField(&'schema Component<InputValueDefinition>),
    EnumValue(&'schema Component<EnumValueDefinition>),
    Argument(&'schema Node<InputValueDefinition>),
}

impl<'schema> From<TypeAttributeLookup<'schema>> for SchemaCoordinateLookup<'schema> {
    ghost from_gives = { λ attribute any. named_of any ≡ NamedAttribute (attribute_of attribute) };

    fn from(attribute: TypeAttributeLookup<'schema>) -> SchemaCoordinateLookup<'schema> {
        match attribute {
            TypeAttributeLookup::Field(field) => SchemaCoordinateLookup::Field(field),
            TypeAttributeLookup::InputField(field) => SchemaCoordinateLookup::InputField(field),
            TypeAttributeLookup::EnumValue(value) => SchemaCoordinateLookup::EnumValue(value),
        }
    }
}
