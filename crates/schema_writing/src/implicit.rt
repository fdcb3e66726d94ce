//! Whether the schema definition is left out.
ghost use Rattle.std.specs.Prelude.{◌≡◌, ◌&&◌, is_none};
ghost use Rattle.std.specs.Option.{option_map};
ghost use Rattle.graphql_names.specs.Node.{content};
ghost use Rattle.schema_types.specs.in_operations.OperationQueries.{default_root_name};
ghost use Rattle.schema_components.specs.Given.{component_name_tree};
ghost use Rattle.schema_types.specs.SchemaView.{types_view};
ghost use Rattle.schema_types.specs.TypeView.{schema_roots};
ghost use Rattle.schema_types.specs.Origins.{schema_origins, extensions_in};
ghost use Rattle.schema_types.specs.Out.{is_empty, is_implicit_root, is_left_out, is_object_named};
ghost use Rattle.schema_writing.specs.SchemaParts.{schema_and_types, has_implicit_roots};

use graphql_names::{Name, Node};
use indexmap::IndexMap;
use schema_components::{ComponentName, ExtensionId};
use schema_types::{ExtendedType, SchemaDefinition};
use tree_operations::OperationType;

/// Whether the schema definition is left out: it gives nothing but the implicit roots, and there are no extensions.
pub(crate) fn is_left_out(
    definition: &Node<SchemaDefinition>,
    extensions: &[ExtensionId],
    types: &IndexMap<Name, ExtendedType>,
) -> bool
    requires { extensions.now ≡ extensions_in (schema_origins (content definition.now)) }
    ensures { result ≡ is_left_out (schema_and_types definition.now types.now) }
{
    if !is_bare(definition, extensions) {
        return false;
    }
    has_implicit_roots(definition, types)
}

/// Whether the schema has no description, no directives and no extensions.
fn is_bare(definition: &Node<SchemaDefinition>, extensions: &[ExtensionId]) -> bool
    ensures { result ≡ (is_none (schema_roots definition.now).description && is_empty (schema_roots definition.now).directives && is_empty extensions.now) }
{
    let schema = definition.content();
    schema.description.is_none() && schema.directives.0.is_empty() && extensions.is_empty()
}

/// Whether the roots are the implicit ones, and there is a query root.
fn has_implicit_roots(
    definition: &Node<SchemaDefinition>,
    types: &IndexMap<Name, ExtendedType>,
) -> bool
    ensures { result ≡ has_implicit_roots (types_view types.now) (schema_roots definition.now) }
{
    let schema = definition.content();
    is_implicit_root(types, OperationType::Query, &schema.query)
        && is_implicit_root(types, OperationType::Mutation, &schema.mutation)
        && is_implicit_root(types, OperationType::Subscription, &schema.subscription)
        && schema.query.is_some()
}

/// Whether the root is the object with the default name, or there is neither a root nor such an object (section 3.3.1).
fn is_implicit_root(
    types: &IndexMap<Name, ExtendedType>,
    operation: OperationType,
    root: &Option<ComponentName>,
) -> bool
    ensures { result ≡ is_implicit_root (types_view types.now) operation (option_map component_name_tree root.now) }
{
    let is_object = is_default_object(types, operation);
    match root {
        // With a schema definition an object named `Mutation` need not be a root; without a schema definition it would become one.
        None => !is_object,
        Some(root) => root.name.as_str() == operation.default_type_name() && is_object,
    }
}

/// Whether there is an object with the operation's default name.
fn is_default_object(types: &IndexMap<Name, ExtendedType>, operation: OperationType) -> bool
    ensures { result ≡ is_object_named (types_view types.now) (default_root_name operation) }
{
    let name = Name::new_static_unchecked(operation.default_type_name());
    match types.get(&name) {
        None => false,
        Some(t) => t.is_object(),
    }
}
