//! The definitions of a schema's meta-fields.
ghost use Rattle.std.specs.Prelude.{◌≡◌};
ghost use Rattle.tree_type_members.specs.TypeSystemTree.{field_definition_tree};
ghost use Rattle.schema_building.specs.in_built_in.MetaFields.{typename_field, schema_field, type_field};
ghost use Rattle.schema_components.specs.Given.{component_tree};
ghost use Rattle.graphql_schema.specs.MetaField.{by_definition};

use graphql_names::Name;
use schema_components::{Component, ComponentOrigin};
use schema_fold_lists::{schema_field, type_field, typename_field};
use std::alloc::{AllocError, Global};
use std::marker::Model;
use tree_type_members::FieldDefinition;

/// The definitions of `__typename`, `__schema` and `__type` (sections 4.1 and 4.2).
// Kept in each schema, so that they are lent as other fields are.
pub(crate) struct MetaFields {
    pub(crate) typename: Component<FieldDefinition>,
    pub(crate) schema: Component<FieldDefinition>,
    pub(crate) type_by_name: Component<FieldDefinition>,
}

// Not derived: a derived drop is proved again in each crate that drops one.
impl Drop for MetaFields {
    fn drop(self) {
        let MetaFields {
            typename: _,
            schema: _,
            type_by_name: _,
        } = self;
    }
}

/// Contracts see nothing of them: they are the same in each schema.
impl Model for MetaFields {
    ghost Value = { Unit {0} };

    ghost view = { λ _. tt };

    ghost invariant = { λ m. (component_tree field_definition_tree m.typename ≡ by_definition typename_field) × (component_tree field_definition_tree m.schema ≡ by_definition schema_field) × (component_tree field_definition_tree m.type_by_name ≡ by_definition type_field) };
}

impl MetaFields {
    /// The definitions of the meta-fields.
    pub(crate) fn new(alloc: Global) -> Result<MetaFields, AllocError> {
        Ok(MetaFields {
            typename: Component::new(ComponentOrigin::Definition, typename_field(alloc)?),
            schema: Component::new(ComponentOrigin::Definition, schema_field(alloc)?),
            type_by_name: Component::new(ComponentOrigin::Definition, type_field(alloc)?),
        })
    }
}
