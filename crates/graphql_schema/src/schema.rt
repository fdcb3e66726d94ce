//! Whole schemas.
ghost use Rattle.std.specs.Prelude.{◌≡◌};
ghost use Rattle.std.specs.Option.{option_map};
ghost use Rattle.graphql_names.specs.Placed.{name_tree};
ghost use Rattle.schema_building.specs.in_schema_types.Addresses.{root_at};
ghost use Rattle.graphql_schema.specs.SchemaOf.{schema_tree};

use crate::meta_fields::MetaFields;
use graphql_names::{FileId, Name, Node};
use indexmap::IndexMap;
use schema_writing::{ExtendedType, SchemaDefinition, SourceFile};
use tree_directives::DirectiveDefinition;
use tree_operations::OperationType;

/// A schema (section 3): its schema definition, and its directive definitions and types under their names, in order;
/// and the texts that it was read from, by the numbers of their files. It holds the definitions of the meta-fields too,
/// which are the same in each schema. Equality ignores these, the texts, places, origins and the order of what is named.
#[derive_where(PartialEq, Eq)]
pub struct Schema {
    #[derive_where(skip)]
    pub sources: IndexMap<FileId, SourceFile>,
    pub schema_definition: Node<SchemaDefinition>,
    pub directive_definitions: IndexMap<Name, Node<DirectiveDefinition>>,
    pub types: IndexMap<Name, ExtendedType>,
    #[derive_where(skip)]
    pub(crate) meta_fields: MetaFields,
}

// Not derived: a derived drop is proved again in each crate that drops one.
impl Drop for Schema {
    fn drop(self) {
        let Schema {
            sources: _,
            schema_definition: _,
            directive_definitions: _,
            types: _,
            meta_fields: _,
        } = self;
    }
}

impl Schema {
    /// The name of the root of that operation, if there is one.
    pub fn root_operation(&self, operation_type: OperationType) -> Option<&Name>
        ensures { option_map (λ n. name_tree n.now) result ≡ root_at (schema_tree self.now) operation_type }
    {
        let definition = self.schema_definition.content();
        let root = match operation_type {
            OperationType::Query => &definition.query,
            OperationType::Mutation => &definition.mutation,
            OperationType::Subscription => &definition.subscription,
        };
        match root {
            None => None,
            Some(component) => Some(&component.name),
        }
    }
}
