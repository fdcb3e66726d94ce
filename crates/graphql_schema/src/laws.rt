//! What equality of schemas means: exactly that they are the same apart from places, origins, sources and order. Also:
//! the subtypes of an interface are its implementers, which fields a type has depends only on the schema without places,
//! and no two things of one kind have the same name.
ghost use Rattle.std.specs.Prelude.{◌≡◌, ◌↔◌, IsTrue};
ghost use Rattle.schema_building.specs.in_schema_types.Plain.{plain};
ghost use Rattle.graphql_schema.specs.SchemaOf.{schema_tree};
ghost use Rattle.graphql_schema.specs.Subtypes.{SubtypesAreImplementers};
ghost use Rattle.graphql_schema.specs.FieldLooks.{FieldsArePlain};

pub use crate::distinct::names_differ;
use crate::schema::Schema;

/// Whether two schemas are equal.
#[tactic(auto, using(crate::proofs::SchemaEquality::equality))]
pub fn equal_schemas(a: &Schema, b: &Schema) -> bool
    ensures { IsTrue result ↔ (plain (schema_tree a.now) ≡ plain (schema_tree b.now)) }
{
    *a == *b
}

/// `is_subtype` is true of an interface and a name exactly when `implementers_map` has the name under the interface.
pub fn subtypes_are_implementers(schema: &Schema)
    ensures { SubtypesAreImplementers (schema_tree schema.now) }
{
    // each name is in the map once
    let _count = schema.types.len();
}

/// The fields that `type_field` finds are, apart from places and origins, those of the schema without places and order.
pub fn fields_are_plain(schema: &Schema)
    ensures { FieldsArePlain (schema_tree schema.now) }
{
    // A law: there is nothing to run.
    let _ = schema;
}
