//! What implements: a type and an interface that it lists, a field and the one that the interface wants.
ghost use Rattle.std.specs.Prelude.{◌≡◌, IfOk};

use crate::copies::copy_names;
use graphql_names::{Name, Node};
use schema_components::ComponentName;
use schema_types::ExtendedType;
use std::alloc::AllocError;
use tree_type_members::FieldDefinition;

/// A type of a schema, and an interface that it lists.
#[derive(Clone, Copy)]
pub(crate) struct Implementer<'a> {
    pub(crate) name: &'a Name,
    pub(crate) ty: &'a ExtendedType,
    pub(crate) interface: &'a ComponentName,
}

/// A field of a type, and the field of that name that an interface wants.
#[derive(Clone, Copy)]
pub(crate) struct Implementation<'a> {
    pub(crate) name: &'a Name,
    pub(crate) interface: &'a Name,
    pub(crate) field_name: &'a Name,
    pub(crate) wanted: &'a Node<FieldDefinition>,
    pub(crate) field: &'a Node<FieldDefinition>,
}

impl Implementation<'_> {
    /// Copies of the names of the type, the interface and the field.
    pub(crate) fn copy_names(&self) -> Result<(Name, Name, Name), AllocError>
        ensures { IfOk result (λ copy. (copy.0 ≡ self.now.name.now) × ((copy.1 ≡ self.now.interface.now) × (copy.2 ≡ self.now.field_name.now))) }
    {
        copy_names(self.name, self.interface, self.field_name)
    }
}
