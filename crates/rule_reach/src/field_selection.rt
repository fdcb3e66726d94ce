//! A field where it is selected.
ghost use Rattle.std.specs.Prelude.{◌≡◌, IfOk};
ghost use Rattle.schema_coordinates.specs.Coordinate.{OfAttribute};
ghost use Rattle.schema_coordinates.specs.CoordinateView.{attribute_coordinate};
ghost use Rattle.rule_document_definitions.specs.Selected.{field_name, response_key};
ghost use Rattle.rule_reach.specs.Fields.{field_of};

use document_typed_selections::Field;
use graphql_names::{Name, Node};
use schema_coordinates::TypeAttributeCoordinate;
use std::alloc::AllocError;
use tree_literals::NamedType;

/// A field, and the name of the type that it is selected on. Equality and hash are those of their contents, ignoring
/// places.
#[derive(Clone, Copy, PartialEq, Eq, Hash)]
pub struct FieldSelection<'doc> {
    pub parent_type: &'doc NamedType,
    pub field: &'doc Node<Field>,
}

impl<'doc> FieldSelection<'doc> {
    /// The coordinate of the field: the type and the field's name.
    pub fn coordinate(&self) -> Result<TypeAttributeCoordinate, AllocError>
        ensures { IfOk result (λ c. attribute_coordinate c ≡ OfAttribute (field_of self.now).parent (field_name (field_of self.now))) }
    {
        let ty = self.parent_type.clone()?;
        let attribute = self.field.content().name.clone()?;
        Ok(TypeAttributeCoordinate { ty, attribute })
    }

    /// The response key of the field: its alias, or else its name (section 2.7).
    pub fn response_key(&self) -> &'doc Name
        ensures { result.now.text ≡ response_key (field_of self.now) }
    {
        self.field.content().response_key()
    }
}
