//! The meta-fields: fields that types have though no definition gives them (sections 4.1 and 4.2).
ghost use Rattle.std.specs.Prelude.{◌≡◌, IfOk};
ghost use Rattle.graphql_names.specs.Placed.{node_tree};
ghost use Rattle.tree_type_members.specs.TypeSystemTree.{field_definition_tree};
ghost use Rattle.schema_built_in.specs.MetaFields.{typename_field, schema_field, type_field};

use crate::members::field_of;
use crate::table::{SCHEMA_FIELD, TYPE_FIELD, TYPENAME_FIELD};
use graphql_names::Node;
use std::alloc::{AllocError, Global};
use tree_type_members::FieldDefinition;

/// `__typename: String!`, the name of the object that is selected from (section 4.1).
pub fn typename_field(alloc: Global) -> Result<Node<FieldDefinition>, AllocError>
    ensures { IfOk result (λ f. node_tree field_definition_tree f ≡ typename_field) }
{
    field_of(alloc, TYPENAME_FIELD)
}

/// `__schema: __Schema!`, the whole schema (section 4.2).
pub fn schema_field(alloc: Global) -> Result<Node<FieldDefinition>, AllocError>
    ensures { IfOk result (λ f. node_tree field_definition_tree f ≡ schema_field) }
{
    field_of(alloc, SCHEMA_FIELD)
}

/// `__type(name: String!): __Type`, the type of a name (section 4.2).
pub fn type_field(alloc: Global) -> Result<Node<FieldDefinition>, AllocError>
    ensures { IfOk result (λ f. node_tree field_definition_tree f ≡ type_field) }
{
    field_of(alloc, TYPE_FIELD)
}
