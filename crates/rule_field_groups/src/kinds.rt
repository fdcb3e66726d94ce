//! Which types are abstract, and which are composite.
ghost use Rattle.std.specs.Prelude.{◌≡◌};
ghost use Rattle.rule_field_sets.specs.in_schema.SchemaOf.{schema_tree};
ghost use Rattle.rule_selection_queries.specs.in_definitions.Judged.{judged};
ghost use Rattle.rule_field_groups.specs.Kinds.{is_abstract, is_abstract_kind, is_composite};

use graphql_names::Name;
use rule_field_sets::Schema;
use schema_types::TypeKind;

/// Whether the type of that name is an interface or a union.
pub(crate) fn is_abstract(schema: &Schema, name: &Name) -> bool
    ensures { result ≡ is_abstract (judged (schema_tree schema.now)) name.now.text }
{
    match schema.type_named(name) {
        Some(ty) => is_abstract_kind(ty.kind()),
        None => false,
    }
}

/// Whether types of that kind are abstract: interfaces and unions are.
fn is_abstract_kind(kind: TypeKind) -> bool
    ensures { result ≡ is_abstract_kind kind }
{
    match kind {
        TypeKind::Interface | TypeKind::Union => true,
        TypeKind::Scalar | TypeKind::Object | TypeKind::Enum | TypeKind::InputObject => false,
    }
}

/// Whether values of the type of that name have fields: it is an object, an interface or a union.
pub(crate) fn is_composite(schema: &Schema, name: &Name) -> bool
    ensures { result ≡ is_composite (judged (schema_tree schema.now)) name.now.text }
{
    match schema.type_named(name) {
        Some(ty) => ty.is_output_type() && !ty.is_leaf(),
        None => false,
    }
}
