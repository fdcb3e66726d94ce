//! Calls of fields that need a schema.
ghost use Rattle.std.specs.Prelude.{◌≡◌};
ghost use Rattle.std.specs.Option.{option_map};
ghost use Rattle.graphql_names.specs.Placed.{node_tree};
ghost use Rattle.schema_types.specs.in_type_members.TypeSystemTree.{field_definition_tree};
ghost use Rattle.schema_types.specs.TypeView.{extended_type};
ghost use Rattle.document_typing.specs.in_schema.SchemaOf.{schema_tree};
ghost use Rattle.graphql_documents.specs.FieldTypes.{inner_type_def};

use document_typed_selections::Field;
use document_typing::Schema;
use schema_types::ExtendedType;

/// Calls of a field that need a schema.
pub trait FieldExt {
    /// The type inside all brackets of the field's type, if the schema has it.
    fn inner_type_def<'schema>(&self, schema: &'schema Schema) -> Option<&'schema ExtendedType>;
}

impl FieldExt for Field {
    fn inner_type_def<'schema>(&self, schema: &'schema Schema) -> Option<&'schema ExtendedType>
        ensures { option_map (λ t. extended_type t.now) result ≡ inner_type_def (schema_tree schema.now) (node_tree field_definition_tree self.now.definition) }
    {
        schema.type_named(self.ty().inner_named_type())
    }
}
