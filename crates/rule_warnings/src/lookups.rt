//! Definitions by name.
ghost use Rattle.std.specs.Prelude.{◌≡◌};
ghost use Rattle.std.specs.Option.{option_map};
ghost use Rattle.tree_directives.specs.DirectiveTree.{input_value_tree, unplaced_input_value};
ghost use Rattle.tree_type_members.specs.TypeSystemTree.{enum_value_tree, unplaced_enum_value};
ghost use Rattle.schema_components.specs.Given.{component_tree, plain_given};
ghost use Rattle.graphql_schema.specs.SchemaOf.{schema_tree};
ghost use Rattle.rule_definitions.specs.Judged.{judged};
ghost use Rattle.rule_definitions.specs.Names.{named_in};
ghost use Rattle.rule_warnings.specs.Deprecated.{enum_value, input_field};

use graphql_names::Name;
use graphql_schema::{Component, Schema};
use rule_values::{find_input, find_value};
use tree_directives::InputValueDefinition;
use tree_literals::NamedType;
use tree_type_members::EnumValueDefinition;

/// The value of that name of the enum `ty`, if there is one.
pub(crate) fn enum_value<'a>(
    schema: &'a Schema,
    ty: &Name,
    name: &Name,
) -> Option<&'a Component<EnumValueDefinition>>
    ensures { option_map (λ v. plain_given unplaced_enum_value (component_tree enum_value_tree v.now)) result ≡ enum_value (judged (schema_tree schema.now)) ty.now.text name.now.text }
{
    match schema.type_named(ty) {
        None => None,
        Some(found) => find_value(found, name),
    }
}

/// The field of that name of the input object `ty`, if there is one.
pub(crate) fn input_field<'a>(
    schema: &'a Schema,
    ty: &Name,
    name: &Name,
) -> Option<&'a Component<InputValueDefinition>>
    ensures { option_map (λ f. plain_given unplaced_input_value (component_tree input_value_tree f.now)) result ≡ input_field (judged (schema_tree schema.now)) ty.now.text name.now.text }
{
    match schema.type_named(ty) {
        None => None,
        Some(found) => find_input(found, name),
    }
}

/// The name inside the type of an argument or input field.
pub(crate) fn inner_type(definition: &InputValueDefinition) -> &NamedType
    ensures { result.now.text ≡ named_in (unplaced_input_value (input_value_tree definition.now)).ty.it }
{
    definition.ty.content().inner_named_type()
}
