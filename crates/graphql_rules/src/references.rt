//! Whether something in a schema refers to a type.
ghost use Rattle.std.specs.Prelude.{◌≡◌, map};
ghost use Rattle.std.specs.List.{list_any};
ghost use Rattle.graphql_names.specs.Placed.{node_tree};
ghost use Rattle.tree_literals.specs.TypeTree.{type_tree};
ghost use Rattle.tree_directives.specs.DirectiveTree.{input_value_tree, directive_definition_tree};
ghost use Rattle.tree_type_members.specs.TypeSystemTree.{field_definition_tree};
ghost use Rattle.schema_components.specs.Given.{component_tree};
ghost use Rattle.schema_types.specs.TypeView.{extended_type};
ghost use Rattle.rule_cycles.specs.in_schema.SchemaOf.{schema_tree};
ghost use Rattle.rule_definitions.specs.Kept.{is_inside, is_inside_arguments, is_inside_field, is_inside_type, is_referenced};

use graphql_names::Node;
use rule_cycles::Schema;
use schema_components::Component;
use schema_types::ExtendedType;
use tree_directives::{DirectiveDefinition, InputValueDefinition};
use tree_literals::Type;
use tree_type_members::FieldDefinition;

/// Whether this is the inner name of the reference to a type.
fn is_inside(name: &str, ty: &Type) -> bool
    ensures { result ≡ is_inside name.now (type_tree ty.now) }
{
    name == ty.inner_named_type().as_str()
}

/// Whether one of these arguments has this inner type.
// Loops here and below: `any` with a closure costs more to prove.
fn is_inside_arguments(name: &str, arguments: &[Node<InputValueDefinition>]) -> bool
    ensures { result ≡ is_inside_arguments name.now (map (node_tree input_value_tree) arguments.now) }
{
    for argument in arguments {
        if is_inside(name, argument.content().ty.content()) {
            return true;
        }
    }
    false
}

/// Whether one of these fields, or an argument of one, has this inner type.
fn is_inside_fields(name: &str, fields: &[Component<FieldDefinition>]) -> bool
    ensures { result ≡ list_any (λ f. is_inside_field name.now f.it.it) (map (component_tree field_definition_tree) fields.now) }
{
    for field in fields {
        let definition = field.node.content();
        if is_inside(name, &definition.ty)
            || is_inside_arguments(name, definition.arguments.as_slice())
        {
            return true;
        }
    }
    false
}

/// Whether one of these input fields has this inner type.
fn is_inside_inputs(name: &str, fields: &[Component<InputValueDefinition>]) -> bool
    ensures { result ≡ list_any (λ f. is_inside name.now f.it.it.ty.it) (map (component_tree input_value_tree) fields.now) }
{
    for field in fields {
        if is_inside(name, field.node.content().ty.content()) {
            return true;
        }
    }
    false
}

/// Whether a field, an argument or an input field of the type has this inner type.
fn is_inside_type(name: &str, ty: &ExtendedType) -> bool
    ensures { result ≡ is_inside_type name.now (extended_type ty.now) }
{
    match ty {
        ExtendedType::Object(object) => {
            is_inside_fields(name, object.content().fields.values().as_slice())
        }
        ExtendedType::Interface(interface) => {
            is_inside_fields(name, interface.content().fields.values().as_slice())
        }
        ExtendedType::InputObject(input) => {
            is_inside_inputs(name, input.content().fields.values().as_slice())
        }
        _ => false,
    }
}

/// Whether one of these types has a field, an argument or an input field of this inner type.
fn is_inside_types(name: &str, types: &[ExtendedType]) -> bool
    ensures { result ≡ list_any (is_inside_type name.now) (map extended_type types.now) }
{
    for ty in types {
        if is_inside_type(name, ty) {
            return true;
        }
    }
    false
}

/// Whether one of these directives has an argument of this inner type.
fn is_inside_directives(name: &str, directives: &[Node<DirectiveDefinition>]) -> bool
    ensures { result ≡ list_any (λ d. is_inside_arguments name.now d.it.arguments) (map (node_tree directive_definition_tree) directives.now) }
{
    for directive in directives {
        if is_inside_arguments(name, directive.content().arguments.as_slice()) {
            return true;
        }
    }
    false
}

/// Whether a field, an argument or an input field of the schema has this inner type.
pub(crate) fn is_referenced(name: &str, schema: &Schema) -> bool
    ensures { result ≡ is_referenced name.now (schema_tree schema.now) }
{
    is_inside_types(name, schema.types.values().as_slice())
        || is_inside_directives(name, schema.directive_definitions.values().as_slice())
}
