//! Which types are abstract.
ghost use Rattle.std.specs.Prelude.{◌≡◌};
ghost use Rattle.graphql_schema.specs.SchemaOf.{schema_tree};
ghost use Rattle.rule_definitions.specs.Judged.{judged};
ghost use Rattle.rule_field_sets.specs.Kinds.{is_abstract, is_abstract_kind};

use graphql_names::Name;
use graphql_schema::Schema;
use schema_types::TypeKind;

/// Whether the type of that name is an interface or a union.
pub(crate) fn is_abstract(schema: &Schema, name: &Name) -> bool
    ensures { result ≡ is_abstract (judged (schema_tree schema.now)) name.now.text }
{
    match schema.type_named(name) {
        Some(ty) => is_abstract_kind(ty.kind()),
        None => false,
    }
}

/// Whether types of that kind are abstract: interfaces and unions are.
fn is_abstract_kind(kind: TypeKind) -> bool
    ensures { result ≡ is_abstract_kind kind }
{
    match kind {
        TypeKind::Interface | TypeKind::Union => true,
        TypeKind::Scalar | TypeKind::Object | TypeKind::Enum | TypeKind::InputObject => false,
    }
}
