//! What values refer to, by name.
ghost use Rattle.std.specs.Prelude.{◌≡◌};
ghost use Rattle.std.specs.Option.{option_map};
ghost use Rattle.tree_directives.specs.DirectiveTree.{input_value_tree};
ghost use Rattle.schema_components.specs.Given.{component_tree};
ghost use Rattle.tree_type_members.specs.TypeSystemTree.{enum_value_tree};
ghost use Rattle.graphql_schema.specs.in_schema_types.TypeView.{extended_type};
ghost use Rattle.graphql_schema.specs.in_schema_types.Addresses.{under};

use graphql_names::Name;
use schema_components::Component;
use schema_types::ExtendedType;
use tree_directives::InputValueDefinition;
use tree_type_members::EnumValueDefinition;

/// The field of that name of an input object, if there is one; other types have none.
pub fn find_input<'a>(
    ty: &'a ExtendedType,
    name: &Name,
) -> Option<&'a Component<InputValueDefinition>>
    ensures { option_map (λ f. component_tree input_value_tree f.now) result ≡ under name.now.text (extended_type ty.now).inputs }
{
    match ty {
        ExtendedType::InputObject(object) => object.content().fields.get(name),
        _ => None,
    }
}

/// The value of that name of an enum, if there is one; other types have none.
pub fn find_value<'a>(
    ty: &'a ExtendedType,
    name: &Name,
) -> Option<&'a Component<EnumValueDefinition>>
    ensures { option_map (λ v. component_tree enum_value_tree v.now) result ≡ under name.now.text (extended_type ty.now).values }
{
    match ty {
        ExtendedType::Enum(own) => own.content().values.get(name),
        _ => None,
    }
}
