//! What equality means: exactly that the types or schema definitions are the same apart from places, origins and order.
ghost use Rattle.std.specs.Prelude.{◌≡◌, ◌↔◌, IsTrue};
ghost use Rattle.schema_types.specs.TypeView.{extended_type, schema_roots};
ghost use Rattle.schema_types.specs.Plain.{plain_type, plain_roots};

use crate::extended_type::ExtendedType;
use crate::schema_definition::SchemaDefinition;
use graphql_names::Node;

/// Whether two types are equal.
#[tactic(auto, using(crate::proofs::TypeEquality::equality))]
pub fn equal_types(a: &ExtendedType, b: &ExtendedType) -> bool
    ensures { IsTrue result ↔ (plain_type (extended_type a.now) ≡ plain_type (extended_type b.now)) }
{
    *a == *b
}

/// Whether two schema definitions are equal.
#[tactic(auto, using(crate::proofs::TypeEquality::equality))]
pub fn equal_schema_definitions(a: &Node<SchemaDefinition>, b: &Node<SchemaDefinition>) -> bool
    ensures { IsTrue result ↔ (plain_roots (schema_roots a.now) ≡ plain_roots (schema_roots b.now)) }
{
    *a == *b
}
