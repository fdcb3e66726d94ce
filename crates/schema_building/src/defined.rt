//! Whether a list of definitions extends the schema, and whether it defines it.
ghost use Rattle.std.specs.Prelude.{◌≡◌, map, is_some};
ghost use Rattle.std.specs.List.{list_any};
ghost use Rattle.schema_built_in.specs.in_definitions.DefinitionTree.{definition_tree};
ghost use Rattle.schema_built_in.specs.in_fold.NumberedDefinition.{definitions_of};
ghost use Rattle.schema_built_in.specs.in_fold.SchemaFold.{schema_here, schema_extension_here, schema_definition_in, is_object_in, schema_is_defined};
ghost use Rattle.schema_built_in.specs.in_fold.ListedView.{listed_view};

use schema_built_in::{Definition, NumberedDefinition, TypeKind, type_definition};
use tree_operations::OperationType;

/// Whether the schema is extended.
pub(crate) fn has_schema_extension(list: &[NumberedDefinition]) -> bool
    ensures { result ≡ list_any (λ d. is_some (schema_extension_here d)) (definitions_of (map listed_view list.now)) }
{
    for listed in list {
        if is_schema_extension(&listed.definition) {
            return true;
        }
    }
    false
}

/// Whether the schema is defined: there is a schema definition, or some implicit root (section 3.3.1).
pub(crate) fn schema_is_defined(list: &[NumberedDefinition]) -> bool
    ensures { result ≡ schema_is_defined (definitions_of (map listed_view list.now)) }
{
    has_schema_definition(list)
        || is_object(list, OperationType::Query.default_type_name())
        || is_object(list, OperationType::Mutation.default_type_name())
        || is_object(list, OperationType::Subscription.default_type_name())
}

/// Whether there is a schema definition.
fn has_schema_definition(list: &[NumberedDefinition]) -> bool
    ensures { result ≡ is_some (schema_definition_in (definitions_of (map listed_view list.now))) }
{
    for listed in list {
        if is_schema_definition(&listed.definition) {
            return true;
        }
    }
    false
}

/// Whether the type of that name is an object: a type is given by the first definition of its name.
#[tactic(auto, using(crate::proofs::Schemas::object_none, crate::proofs::Schemas::object_here, crate::proofs::Schemas::object_other))]
fn is_object(list: &[NumberedDefinition], name: &str) -> bool
    ensures { result ≡ is_object_in (definitions_of (map listed_view list.now)) name.now }
{
    for listed in list {
        if let Some(defined) = type_definition(&listed.definition) {
            if name == defined.parts.name.as_str() {
                return defined.parts.kind.is(TypeKind::Object);
            }
        }
    }
    false
}

/// Whether it is a schema definition.
fn is_schema_definition(d: &Definition) -> bool
    ensures { result ≡ is_some (schema_here (definition_tree d.now)) }
{
    matches!(d, Definition::SchemaDefinition(_))
}

/// Whether it is a schema extension.
fn is_schema_extension(d: &Definition) -> bool
    ensures { result ≡ is_some (schema_extension_here (definition_tree d.now)) }
{
    matches!(d, Definition::SchemaExtension(_))
}
