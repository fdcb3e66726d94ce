//! Types by number, which is their index in the schema.
ghost use Rattle.std.specs.Prelude.{◌≡◌, length};
ghost use Rattle.graphql_schema.specs.SchemaOf.{schema_tree};
ghost use Rattle.rule_cycles.specs.Numbers.{number_of, is_input_object_at, input_object_number};
ghost use Rattle.rule_cycles.specs.UseNumbers.{node_of_type};

use graphql_names::Name;
use graphql_schema::Schema;

/// The number of the type of that name, if it is defined.
pub(crate) fn type_number(schema: &Schema, name: &Name) -> Option<usize>
    ensures { result ≡ number_of name.now.text (schema_tree schema.now).types }
{
    schema.types.get_index_of(name)
}

/// The node of the type of that name, if it is defined: in the graph of directives and types directives come
/// first.
pub(crate) fn type_node(schema: &Schema, name: &Name) -> Option<usize>
    ensures { result ≡ node_of_type (schema_tree schema.now) name.now.text }
{
    let directives = schema.directive_definitions.len();
    let types = schema.types.len();
    match type_number(schema, name) {
        None => None,
        Some(number) => Some(directives + number),
    }
}

/// Whether the type of that number is an input object.
fn is_input_object(schema: &Schema, number: usize) -> bool
    ensures { result ≡ is_input_object_at (schema_tree schema.now).types number }
{
    match schema.types.get_index(number) {
        None => false,
        Some((_, ty)) => ty.is_input_object(),
    }
}

/// The number of the input object of that name, if there is one.
pub(crate) fn input_object_number(schema: &Schema, name: &Name) -> Option<usize>
    ensures { result ≡ input_object_number (schema_tree schema.now).types name.now.text }
{
    match type_number(schema, name) {
        None => None,
        Some(number) => {
            if is_input_object(schema, number) {
                Some(number)
            } else {
                None
            }
        }
    }
}
