//! How to find what a coordinate names.
//!
//! An error borrows the coordinate and the schema: the borrow checker covers no `?` on it, so a match passes it on, here and in `lookup.rt`.
ghost use Rattle.std.specs.Prelude.{◌≡◌};
ghost use Rattle.graphql_names.specs.Placed.{node_tree};
ghost use Rattle.tree_directives.specs.DirectiveTree.{input_value_tree, directive_definition_tree};
ghost use Rattle.tree_type_members.specs.TypeSystemTree.{field_definition_tree, enum_value_tree};
ghost use Rattle.schema_components.specs.Given.{component_tree};
ghost use Rattle.graphql_schema.specs.in_schema_types.TypeView.{extended_type};
ghost use Rattle.graphql_schema.specs.SchemaOf.{schema_tree};
ghost use Rattle.graphql_coords.specs.LookUps.{field_in, input_field_in, enum_value_in, attribute_in, argument_in, type_lookup, attribute_lookup, directive_lookup};
ghost use Rattle.graphql_coords.specs.LookUpView.{answer, argument_answer, attribute_of};

use crate::lookup_answers::{SchemaLookupError, TypeAttributeLookup};
use graphql_names::{Name, Node};
use graphql_schema::{Component, ExtendedType, Schema};
use tree_directives::{DirectiveDefinition, InputValueDefinition};
use tree_type_members::{EnumValueDefinition, FieldDefinition};

/// The type of that name.
pub(crate) fn find_type<'coord, 'schema>(
    name: &'coord Name,
    schema: &'schema Schema,
) -> Result<&'schema ExtendedType, SchemaLookupError<'coord, 'schema>>
    ensures { answer (λ t. extended_type t.now) result ≡ type_lookup (schema_tree schema.now) name.now.text }
{
    let found = schema.type_named(name);
    found.ok_or(SchemaLookupError::MissingType(name))
}

/// The directive of that name.
pub(crate) fn find_directive<'coord, 'schema>(
    name: &'coord Name,
    schema: &'schema Schema,
) -> Result<&'schema Node<DirectiveDefinition>, SchemaLookupError<'coord, 'schema>>
    ensures { answer (λ d. node_tree directive_definition_tree d.now) result ≡ directive_lookup (schema_tree schema.now) name.now.text }
{
    let found = schema.directive_definitions.get(name);
    found.ok_or(SchemaLookupError::MissingType(name))
}

/// The attribute of that name of the type of that name.
pub(crate) fn find_attribute<'coord, 'schema>(
    ty: &'coord Name,
    attribute: &'coord Name,
    schema: &'schema Schema,
) -> Result<TypeAttributeLookup<'schema>, SchemaLookupError<'coord, 'schema>>
    ensures { answer attribute_of result ≡ attribute_lookup (schema_tree schema.now) ty.now.text attribute.now.text }
{
    match find_type(ty, schema) {
        Err(error) => Err(error),
        Ok(ty) => attribute_in(attribute, ty),
    }
}

/// The field of that name of an object or an interface.
pub(crate) fn field_in<'coord, 'schema>(
    name: &'coord Name,
    ty: &'schema ExtendedType,
) -> Result<&'schema Component<FieldDefinition>, SchemaLookupError<'coord, 'schema>>
    ensures { answer (λ f. component_tree field_definition_tree f.now) result ≡ field_in name.now.text (extended_type ty.now) }
{
    match ty {
        ExtendedType::Object(object) => {
            let found = object.content().fields.get(name);
            found.ok_or(SchemaLookupError::MissingAttribute(name))
        }
        ExtendedType::Interface(own) => {
            let found = own.content().fields.get(name);
            found.ok_or(SchemaLookupError::MissingAttribute(name))
        }
        _ => Err(SchemaLookupError::InvalidType(ty)),
    }
}

/// The input field of that name of an input object.
pub(crate) fn input_field_in<'coord, 'schema>(
    name: &'coord Name,
    ty: &'schema ExtendedType,
) -> Result<&'schema Component<InputValueDefinition>, SchemaLookupError<'coord, 'schema>>
    ensures { answer (λ f. component_tree input_value_tree f.now) result ≡ input_field_in name.now.text (extended_type ty.now) }
{
    match ty {
        ExtendedType::InputObject(object) => {
            let found = object.content().fields.get(name);
            found.ok_or(SchemaLookupError::MissingAttribute(name))
        }
        _ => Err(SchemaLookupError::InvalidType(ty)),
    }
}

/// The value of that name of an enum.
pub(crate) fn enum_value_in<'coord, 'schema>(
    name: &'coord Name,
    ty: &'schema ExtendedType,
) -> Result<&'schema Component<EnumValueDefinition>, SchemaLookupError<'coord, 'schema>>
    ensures { answer (λ v. component_tree enum_value_tree v.now) result ≡ enum_value_in name.now.text (extended_type ty.now) }
{
    match ty {
        ExtendedType::Enum(own) => {
            let found = own.content().values.get(name);
            found.ok_or(SchemaLookupError::MissingAttribute(name))
        }
        _ => Err(SchemaLookupError::InvalidType(ty)),
    }
}

/// The attribute of that name of a type.
fn attribute_in<'coord, 'schema>(
    name: &'coord Name,
    ty: &'schema ExtendedType,
) -> Result<TypeAttributeLookup<'schema>, SchemaLookupError<'coord, 'schema>>
    ensures { answer attribute_of result ≡ attribute_in name.now.text (extended_type ty.now) }
{
    if ty.is_input_object() {
        match input_field_in(name, ty) {
            Err(error) => Err(error),
            Ok(field) => Ok(TypeAttributeLookup::InputField(field)),
        }
    } else if ty.is_enum() {
        match enum_value_in(name, ty) {
            Err(error) => Err(error),
            Ok(value) => Ok(TypeAttributeLookup::EnumValue(value)),
        }
    } else {
        match field_in(name, ty) {
            Err(error) => Err(error),
            Ok(field) => Ok(TypeAttributeLookup::Field(field)),
        }
    }
}

/// The argument of that name of an attribute, which has to be a field.
pub(crate) fn argument_in<'coord, 'schema>(
    field: &'coord Name,
    argument: &'coord Name,
    attribute: TypeAttributeLookup<'schema>,
) -> Result<&'schema Node<InputValueDefinition>, SchemaLookupError<'coord, 'schema>>
    ensures { argument_answer result ≡ argument_in field.now.text argument.now.text (attribute_of attribute.entry) }
{
    match attribute {
        TypeAttributeLookup::Field(own) => {
            let found = own.node.content().argument_by_name(argument.as_str());
            found.ok_or(SchemaLookupError::MissingArgument(argument))
        }
        _ => Err(SchemaLookupError::InvalidArgumentAttribute(field)),
    }
}
