//! Things of one kind are under different names, as in every map and set.
ghost use Rattle.schema_building.specs.in_schema_types.TypeView.{extended_type};
ghost use Rattle.graphql_schema.specs.SchemaOf.{schema_tree};
ghost use Rattle.schema_building.specs.in_schema_types.Distinct.{ArePartsDistinct, AreEachDistinct, AreAllDistinct};

use crate::schema::Schema;
use schema_writing::ExtendedType;

/// No two types, directive definitions, or parts of one kind of a type have the same name. It says nothing else.
pub fn names_differ(schema: &Schema)
    ensures { AreAllDistinct (schema_tree schema.now) }
{
    // The lengths are dropped: a map that is asked for its length says by contract that its names differ.
    let _ = schema.types.len();
    let _ = schema.directive_definitions.len();
    each_differ(schema);
}

/// In no type do two parts of one kind have the same name.
fn each_differ(schema: &Schema)
    ensures { AreEachDistinct schema.now.types.entries }
{
    for (_, ty) in &schema.types {
        parts_differ(ty);
    }
}

/// No two parts of one kind of a type have the same name.
fn parts_differ(ty: &ExtendedType)
    ensures { ArePartsDistinct (extended_type ty.now) }
{
    match ty {
        ExtendedType::Scalar(_) => {}
        ExtendedType::Object(own) => {
            let own = own.content();
            let _ = own.implements_interfaces.len();
            let _ = own.fields.len();
        }
        ExtendedType::Interface(own) => {
            let own = own.content();
            let _ = own.implements_interfaces.len();
            let _ = own.fields.len();
        }
        ExtendedType::Union(own) => {
            let _ = own.content().members.len();
        }
        ExtendedType::Enum(own) => {
            let _ = own.content().values.len();
        }
        ExtendedType::InputObject(own) => {
            let _ = own.content().fields.len();
        }
    }
}
