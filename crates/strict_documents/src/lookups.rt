//! Input fields by name.
ghost use Rattle.std.specs.Prelude.{◌≡◌};
ghost use Rattle.std.specs.Option.{option_map};
ghost use Rattle.tree_directives.specs.DirectiveTree.{input_value_tree, unplaced_input_value};
ghost use Rattle.schema_components.specs.Given.{component_tree, plain_given};
ghost use Rattle.graphql_schema.specs.SchemaOf.{schema_tree};
ghost use Rattle.rule_definitions.specs.Judged.{judged};
ghost use Rattle.strict_documents.specs.Locations.{input_field};

use graphql_names::Name;
use graphql_schema::{Component, Schema};
use rule_values::find_input;
use tree_directives::InputValueDefinition;

/// The field of that name of the input object `ty`, if there is one.
pub(crate) fn input_field<'a>(
    schema: &'a Schema,
    ty: &Name,
    name: &Name,
) -> Option<&'a Component<InputValueDefinition>>
    ensures { option_map (λ f. plain_given unplaced_input_value (component_tree input_value_tree f.now)) result ≡ input_field (judged (schema_tree schema.now)) ty.now.text name.now.text }
{
    match schema.type_named(ty) {
        None => None,
        Some(found) => find_input(found, name),
    }
}
