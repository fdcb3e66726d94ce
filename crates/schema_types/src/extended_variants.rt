//! A type as one of its kinds.
ghost use Rattle.std.specs.Prelude.{◌≡◌};
ghost use Rattle.spec_tree.specs.Queries.{IsContentOf};
ghost use Rattle.schema_types.specs.SchemaTree.{same_kind};
ghost use Rattle.schema_types.specs.TypeView.{extended_type};
ghost use Rattle.schema_types.specs.declared.type_kind.TypeKind.TheVariants as kind;

use crate::extended_type::ExtendedType;
use crate::kinds::{EnumType, InputObjectType, InterfaceType, ObjectType, ScalarType, UnionType};
use graphql_names::Node;

/// Whether the type is of that kind.
impl ExtendedType {
    /// Whether it is a scalar type.
    pub fn is_scalar(&self) -> bool
        ensures { result ≡ same_kind (extended_type self.now).kind kind.Scalar }
    {
        matches!(self, ExtendedType::Scalar(_))
    }

    /// Whether it is an object type.
    pub fn is_object(&self) -> bool
        ensures { result ≡ same_kind (extended_type self.now).kind kind.Object }
    {
        matches!(self, ExtendedType::Object(_))
    }

    /// Whether it is an interface type.
    pub fn is_interface(&self) -> bool
        ensures { result ≡ same_kind (extended_type self.now).kind kind.Interface }
    {
        matches!(self, ExtendedType::Interface(_))
    }

    /// Whether it is a union type.
    pub fn is_union(&self) -> bool
        ensures { result ≡ same_kind (extended_type self.now).kind kind.Union }
    {
        matches!(self, ExtendedType::Union(_))
    }

    /// Whether it is an enum type.
    pub fn is_enum(&self) -> bool
        ensures { result ≡ same_kind (extended_type self.now).kind kind.Enum }
    {
        matches!(self, ExtendedType::Enum(_))
    }

    /// Whether it is an input object type.
    pub fn is_input_object(&self) -> bool
        ensures { result ≡ same_kind (extended_type self.now).kind kind.InputObject }
    {
        matches!(self, ExtendedType::InputObject(_))
    }
}

/// The node of the type if it is of that kind, and `None` for every other.
impl ExtendedType {
    /// The node of a scalar type.
    pub fn as_scalar(&self) -> Option<&Node<ScalarType>>
        ensures { IsContentOf ExtendedType.Scalar self.now result }
    {
        match self {
            ExtendedType::Scalar(node) => Some(node),
            _ => None,
        }
    }

    /// The node of an object type.
    pub fn as_object(&self) -> Option<&Node<ObjectType>>
        ensures { IsContentOf ExtendedType.Object self.now result }
    {
        match self {
            ExtendedType::Object(node) => Some(node),
            _ => None,
        }
    }

    /// The node of an interface type.
    pub fn as_interface(&self) -> Option<&Node<InterfaceType>>
        ensures { IsContentOf ExtendedType.Interface self.now result }
    {
        match self {
            ExtendedType::Interface(node) => Some(node),
            _ => None,
        }
    }

    /// The node of a union type.
    pub fn as_union(&self) -> Option<&Node<UnionType>>
        ensures { IsContentOf ExtendedType.Union self.now result }
    {
        match self {
            ExtendedType::Union(node) => Some(node),
            _ => None,
        }
    }

    /// The node of an enum type.
    pub fn as_enum(&self) -> Option<&Node<EnumType>>
        ensures { IsContentOf ExtendedType.Enum self.now result }
    {
        match self {
            ExtendedType::Enum(node) => Some(node),
            _ => None,
        }
    }

    /// The node of an input object type.
    pub fn as_input_object(&self) -> Option<&Node<InputObjectType>>
        ensures { IsContentOf ExtendedType.InputObject self.now result }
    {
        match self {
            ExtendedType::InputObject(node) => Some(node),
            _ => None,
        }
    }
}
