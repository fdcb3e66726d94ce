//! What a list of definitions says of the schema: its first schema definition, and which objects it defines.
ghost use Rattle.std.specs.Prelude.{◌≡◌, map, option_copied};
ghost use Rattle.std.specs.Option.{option_map};
ghost use Rattle.schema_fold.specs.in_definitions.DefinitionTree.{definition_tree, schema_extension_parts};
ghost use Rattle.schema_fold.specs.NumberedDefinition.{definitions_of};
ghost use Rattle.schema_fold.specs.SchemaFold.{schema_here, schema_extension_here, schema_definition_in, is_object_in};
ghost use Rattle.schema_fold.specs.ListedView.{listed_view};
ghost use Rattle.schema_fold_roots.specs.RootsView.{schema_giver};
ghost use Rattle.schema_fold_roots.specs.KindNamed.{kind_here, kind_named};

use graphql_names::Node;
use schema_fold::{Definition, NumberedDefinition, TypeKind, type_definition};
use tree_input_types::{SchemaDefinition, SchemaExtension};

/// The schema definition, if the definition is one.
fn schema_definition(d: &Definition) -> Option<&Node<SchemaDefinition>>
    ensures { option_map schema_giver (option_copied result) ≡ schema_here (definition_tree d.now) }
{
    match d {
        Definition::SchemaDefinition(node) => Some(node),
        _ => None,
    }
}

/// The schema extension, if the definition is one.
pub(crate) fn schema_extension(d: &Definition) -> Option<&SchemaExtension>
    ensures { option_map schema_extension_parts (option_copied result) ≡ schema_extension_here (definition_tree d.now) }
{
    match d {
        Definition::SchemaExtension(node) => Some(node.content()),
        _ => None,
    }
}

/// The first schema definition of the list, if there is one.
pub(crate) fn first_schema(list: &[NumberedDefinition]) -> Option<&Node<SchemaDefinition>>
    ensures { option_map schema_giver (option_copied result) ≡ schema_definition_in (definitions_of (map listed_view list.now)) }
{
    for listed in list {
        if let Some(node) = schema_definition(&listed.definition) {
            return Some(node);
        }
    }
    None
}

/// Whether the type of that name is an object: a type is given by the first definition of its name.
pub(crate) fn is_object(list: &[NumberedDefinition], name: &str) -> bool
    ensures { result ≡ is_object_in (definitions_of (map listed_view list.now)) name.now }
{
    match kind_named(list, name) {
        None => false,
        Some(kind) => kind.is(TypeKind::Object),
    }
}

/// The kind of the type of that name, if it is defined.
fn kind_named(list: &[NumberedDefinition], name: &str) -> Option<TypeKind>
    ensures { result ≡ kind_named name.now (definitions_of (map listed_view list.now)) }
{
    for listed in list {
        if let Some(kind) = kind_here(&listed.definition, name) {
            return Some(kind);
        }
    }
    None
}

/// The kind of the type that is defined here, if it has that name.
fn kind_here(d: &Definition, name: &str) -> Option<TypeKind>
    ensures { result ≡ kind_here name.now (definition_tree d.now) }
{
    match type_definition(d) {
        None => None,
        Some(defined) => {
            if name == defined.parts.name.as_str() {
                Some(defined.parts.kind)
            } else {
                None
            }
        }
    }
}
