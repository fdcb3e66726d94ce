//! The parts of a type of any kind.
ghost use Rattle.std.specs.Prelude.{◌≡◌, map};
ghost use Rattle.std.specs.Option.{option_map};
ghost use Rattle.tree_type_members.specs.TypeSystemTree.{field_definition_tree};
ghost use Rattle.schema_components.specs.Given.{component_tree, component_name_tree};
ghost use Rattle.schema_types.specs.Addresses.{under};
ghost use Rattle.schema_types.specs.TypeView.{extended_type};
ghost use Rattle.strict_schemas.specs.Told.{field_entries, value_entries, input_entries};

use graphql_names::Name;
use indexmap::IndexMap;
use schema_components::{Component, ComponentName};
use schema_types::ExtendedType;
use tree_directives::InputValueDefinition;
use tree_type_members::{EnumValueDefinition, FieldDefinition};

/// The fields of an object or interface.
pub(crate) fn fields_of(ty: &ExtendedType) -> Option<&IndexMap<Name, Component<FieldDefinition>>>
    ensures { field_entries result ≡ (extended_type ty.now).fields }
{
    match ty {
        ExtendedType::Object(own) => Some(&own.content().fields),
        ExtendedType::Interface(own) => Some(&own.content().fields),
        _ => None,
    }
}

/// The values of an enum.
pub(crate) fn values_of(
    ty: &ExtendedType,
) -> Option<&IndexMap<Name, Component<EnumValueDefinition>>>
    ensures { value_entries result ≡ (extended_type ty.now).values }
{
    match ty {
        ExtendedType::Enum(own) => Some(&own.content().values),
        _ => None,
    }
}

/// The fields of an input object.
pub(crate) fn input_fields_of(
    ty: &ExtendedType,
) -> Option<&IndexMap<Name, Component<InputValueDefinition>>>
    ensures { input_entries result ≡ (extended_type ty.now).inputs }
{
    match ty {
        ExtendedType::InputObject(own) => Some(&own.content().fields),
        _ => None,
    }
}

/// The interfaces that a type lists, in order.
pub(crate) fn interfaces_of(ty: &ExtendedType) -> &[ComponentName]
    ensures { map component_name_tree result.now ≡ (extended_type ty.now).interfaces }
{
    match ty {
        ExtendedType::Object(own) => own.content().implements_interfaces.as_slice(),
        ExtendedType::Interface(own) => own.content().implements_interfaces.as_slice(),
        _ => &[],
    }
}

/// The members of a union, in order.
pub(crate) fn members_of(ty: &ExtendedType) -> &[ComponentName]
    ensures { map component_name_tree result.now ≡ (extended_type ty.now).members }
{
    match ty {
        ExtendedType::Union(own) => own.content().members.as_slice(),
        _ => &[],
    }
}

/// The field of that name of a type.
pub(crate) fn field_named<'a>(
    ty: &'a ExtendedType,
    name: &Name,
) -> Option<&'a Component<FieldDefinition>>
    ensures { option_map (λ f. component_tree field_definition_tree f.now) result ≡ under name.now.text (extended_type ty.now).fields }
{
    match ty {
        ExtendedType::Object(own) => own.content().fields.get(name),
        ExtendedType::Interface(own) => own.content().fields.get(name),
        _ => None,
    }
}
