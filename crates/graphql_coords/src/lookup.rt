//! What coordinates name in a schema.
ghost use Rattle.std.specs.Prelude.{◌≡◌};
ghost use Rattle.graphql_names.specs.Placed.{node_tree};
ghost use Rattle.tree_directives.specs.DirectiveTree.{input_value_tree, directive_definition_tree};
ghost use Rattle.tree_type_members.specs.TypeSystemTree.{field_definition_tree, enum_value_tree};
ghost use Rattle.schema_components.specs.Given.{component_tree};
ghost use Rattle.graphql_schema.specs.in_schema_types.TypeView.{extended_type};
ghost use Rattle.graphql_schema.specs.SchemaOf.{schema_tree};
ghost use Rattle.schema_coordinates.specs.CoordinateView.{type_coordinate, attribute_coordinate, argument_coordinate, directive_coordinate, directive_argument_coordinate, schema_coordinate};
ghost use Rattle.graphql_coords.specs.LookUps.{type_lookup, attribute_lookup, field_lookup, input_field_lookup, enum_value_lookup, argument_lookup, directive_lookup, directive_argument_lookup};
ghost use Rattle.graphql_coords.specs.LookUpView.{answer, argument_answer, attribute_of, named_of, lookup_of};

use crate::find::{
    argument_in, enum_value_in, field_in, find_attribute, find_directive, find_type, input_field_in,
};
use crate::lookup_answers::{SchemaCoordinateLookup, SchemaLookupError, TypeAttributeLookup};
use graphql_names::Node;
use graphql_schema::{Component, ExtendedType, Schema};
use schema_coordinates::{
    DirectiveArgumentCoordinate, DirectiveCoordinate, FieldArgumentCoordinate, SchemaCoordinate,
    TypeAttributeCoordinate, TypeCoordinate,
};
use tree_directives::{DirectiveDefinition, InputValueDefinition};
use tree_type_members::{EnumValueDefinition, FieldDefinition};

/// The lookup of a type.
pub trait TypeCoordinateExt {
    /// The type.
    fn lookup<'coord, 'schema>(
        &'coord self,
        schema: &'schema Schema,
    ) -> Result<&'schema ExtendedType, SchemaLookupError<'coord, 'schema>>;
}

impl TypeCoordinateExt for TypeCoordinate {
    fn lookup<'coord, 'schema>(
        &'coord self,
        schema: &'schema Schema,
    ) -> Result<&'schema ExtendedType, SchemaLookupError<'coord, 'schema>>
        ensures { answer (λ t. extended_type t.now) result ≡ type_lookup (schema_tree schema.now) self.now.ty.text }
    {
        find_type(&self.ty, schema)
    }
}

/// The lookup of a field, an input field or an enum value.
pub trait TypeAttributeCoordinateExt {
    /// The field, input field or enum value.
    fn lookup<'coord, 'schema>(
        &'coord self,
        schema: &'schema Schema,
    ) -> Result<TypeAttributeLookup<'schema>, SchemaLookupError<'coord, 'schema>>;

    /// The field, of an object or an interface.
    fn lookup_field<'coord, 'schema>(
        &'coord self,
        schema: &'schema Schema,
    ) -> Result<&'schema Component<FieldDefinition>, SchemaLookupError<'coord, 'schema>>;

    /// The input field, of an input object.
    fn lookup_input_field<'coord, 'schema>(
        &'coord self,
        schema: &'schema Schema,
    ) -> Result<&'schema Component<InputValueDefinition>, SchemaLookupError<'coord, 'schema>>;

    /// The value, of an enum.
    fn lookup_enum_value<'coord, 'schema>(
        &'coord self,
        schema: &'schema Schema,
    ) -> Result<&'schema Component<EnumValueDefinition>, SchemaLookupError<'coord, 'schema>>;
}

impl TypeAttributeCoordinateExt for TypeAttributeCoordinate {
    fn lookup<'coord, 'schema>(
        &'coord self,
        schema: &'schema Schema,
    ) -> Result<TypeAttributeLookup<'schema>, SchemaLookupError<'coord, 'schema>>
        ensures { answer attribute_of result ≡ attribute_lookup (schema_tree schema.now) self.now.ty.text self.now.attribute.text }
    {
        find_attribute(&self.ty, &self.attribute, schema)
    }

    fn lookup_field<'coord, 'schema>(
        &'coord self,
        schema: &'schema Schema,
    ) -> Result<&'schema Component<FieldDefinition>, SchemaLookupError<'coord, 'schema>>
        ensures { answer (λ f. component_tree field_definition_tree f.now) result ≡ field_lookup (schema_tree schema.now) self.now.ty.text self.now.attribute.text }
    {
        match find_type(&self.ty, schema) {
            Err(error) => Err(error),
            Ok(ty) => field_in(&self.attribute, ty),
        }
    }

    fn lookup_input_field<'coord, 'schema>(
        &'coord self,
        schema: &'schema Schema,
    ) -> Result<&'schema Component<InputValueDefinition>, SchemaLookupError<'coord, 'schema>>
        ensures { answer (λ f. component_tree input_value_tree f.now) result ≡ input_field_lookup (schema_tree schema.now) self.now.ty.text self.now.attribute.text }
    {
        match find_type(&self.ty, schema) {
            Err(error) => Err(error),
            Ok(ty) => input_field_in(&self.attribute, ty),
        }
    }

    fn lookup_enum_value<'coord, 'schema>(
        &'coord self,
        schema: &'schema Schema,
    ) -> Result<&'schema Component<EnumValueDefinition>, SchemaLookupError<'coord, 'schema>>
        ensures { answer (λ v. component_tree enum_value_tree v.now) result ≡ enum_value_lookup (schema_tree schema.now) self.now.ty.text self.now.attribute.text }
    {
        match find_type(&self.ty, schema) {
            Err(error) => Err(error),
            Ok(ty) => enum_value_in(&self.attribute, ty),
        }
    }
}

/// The lookup of an argument of a field.
pub trait FieldArgumentCoordinateExt {
    /// The definition of the argument.
    fn lookup<'coord, 'schema>(
        &'coord self,
        schema: &'schema Schema,
    ) -> Result<&'schema Node<InputValueDefinition>, SchemaLookupError<'coord, 'schema>>;
}

impl FieldArgumentCoordinateExt for FieldArgumentCoordinate {
    fn lookup<'coord, 'schema>(
        &'coord self,
        schema: &'schema Schema,
    ) -> Result<&'schema Node<InputValueDefinition>, SchemaLookupError<'coord, 'schema>>
        ensures { argument_answer result ≡ argument_lookup (schema_tree schema.now) self.now.ty.text self.now.field.text self.now.argument.text }
    {
        match find_attribute(&self.ty, &self.field, schema) {
            Err(error) => Err(error),
            Ok(attribute) => argument_in(&self.field, &self.argument, attribute),
        }
    }
}

/// The lookup of a directive.
pub trait DirectiveCoordinateExt {
    /// The definition of the directive.
    fn lookup<'coord, 'schema>(
        &'coord self,
        schema: &'schema Schema,
    ) -> Result<&'schema Node<DirectiveDefinition>, SchemaLookupError<'coord, 'schema>>;
}

impl DirectiveCoordinateExt for DirectiveCoordinate {
    fn lookup<'coord, 'schema>(
        &'coord self,
        schema: &'schema Schema,
    ) -> Result<&'schema Node<DirectiveDefinition>, SchemaLookupError<'coord, 'schema>>
        ensures { answer (λ d. node_tree directive_definition_tree d.now) result ≡ directive_lookup (schema_tree schema.now) self.now.directive.text }
    {
        find_directive(&self.directive, schema)
    }
}

/// The lookup of an argument of a directive.
pub trait DirectiveArgumentCoordinateExt {
    /// The definition of the argument.
    fn lookup<'coord, 'schema>(
        &'coord self,
        schema: &'schema Schema,
    ) -> Result<&'schema Node<InputValueDefinition>, SchemaLookupError<'coord, 'schema>>;
}

impl DirectiveArgumentCoordinateExt for DirectiveArgumentCoordinate {
    fn lookup<'coord, 'schema>(
        &'coord self,
        schema: &'schema Schema,
    ) -> Result<&'schema Node<InputValueDefinition>, SchemaLookupError<'coord, 'schema>>
        ensures { argument_answer result ≡ directive_argument_lookup (schema_tree schema.now) self.now.directive.text self.now.argument.text }
    {
        match find_directive(&self.directive, schema) {
            Err(error) => Err(error),
            Ok(directive) => {
                let found = directive.content().argument_by_name(self.argument.as_str());
                found.ok_or(SchemaLookupError::MissingArgument(&self.argument))
            }
        }
    }
}

/// The lookup of whatever a coordinate names.
pub trait SchemaCoordinateExt {
    /// What it names.
    fn lookup<'coord, 'schema>(
        &'coord self,
        schema: &'schema Schema,
    ) -> Result<SchemaCoordinateLookup<'schema>, SchemaLookupError<'coord, 'schema>>;
}

impl SchemaCoordinateExt for SchemaCoordinate {
    fn lookup<'coord, 'schema>(
        &'coord self,
        schema: &'schema Schema,
    ) -> Result<SchemaCoordinateLookup<'schema>, SchemaLookupError<'coord, 'schema>>
        ensures { answer named_of result ≡ lookup_of (schema_tree schema.now) (schema_coordinate self.now) }
    {
        match self {
            SchemaCoordinate::Named(own) => match own.lookup(schema) {
                Err(error) => Err(error),
                Ok(ty) => Ok(SchemaCoordinateLookup::Named(ty)),
            },
            SchemaCoordinate::TypeAttribute(own) => match own.lookup(schema) {
                Err(error) => Err(error),
                Ok(attribute) => Ok(SchemaCoordinateLookup::from(attribute)),
            },
            SchemaCoordinate::FieldArgument(own) => match own.lookup(schema) {
                Err(error) => Err(error),
                Ok(argument) => Ok(SchemaCoordinateLookup::Argument(argument)),
            },
            SchemaCoordinate::Directive(own) => match own.lookup(schema) {
                Err(error) => Err(error),
                Ok(directive) => Ok(SchemaCoordinateLookup::Directive(directive)),
            },
            SchemaCoordinate::DirectiveArgument(own) => match own.lookup(schema) {
                Err(error) => Err(error),
                Ok(argument) => Ok(SchemaCoordinateLookup::Argument(argument)),
            },
        }
    }
}
