//! Types of any kind.
ghost use Rattle.std.specs.Prelude.{◌≡◌};
ghost use Rattle.schema_types.specs.declared.extended_type.ExtendedType.TheVariants as variant;

use crate::kinds::{EnumType, InputObjectType, InterfaceType, ObjectType, ScalarType, UnionType};
use graphql_names::Node;

/// A type of any kind, with all that its definition and extensions gave (section 3.4).
#[derive(PartialEq, Eq)]
pub enum ExtendedType {
    Scalar(Node<ScalarType>),
    Object(Node<ObjectType>),
    Interface(Node<InterfaceType>),
    Union(Node<UnionType>),
    Enum(Node<EnumType>),
    InputObject(Node<InputObjectType>),
}

impl Drop for ExtendedType {
    fn drop(self) {
        match self {
            ExtendedType::Scalar(_)
            | ExtendedType::Object(_)
            | ExtendedType::Interface(_)
            | ExtendedType::Union(_)
            | ExtendedType::Enum(_)
            | ExtendedType::InputObject(_) => {}
        }
    }
}

impl From<Node<ScalarType>> for ExtendedType {
    ghost from_gives = { λ node t. t ≡ variant.Scalar node };

    fn from(node: Node<ScalarType>) -> ExtendedType {
        ExtendedType::Scalar(node)
    }
}

impl From<Node<ObjectType>> for ExtendedType {
    ghost from_gives = { λ node t. t ≡ variant.Object node };

    fn from(node: Node<ObjectType>) -> ExtendedType {
        ExtendedType::Object(node)
    }
}

impl From<Node<InterfaceType>> for ExtendedType {
    ghost from_gives = { λ node t. t ≡ variant.Interface node };

    fn from(node: Node<InterfaceType>) -> ExtendedType {
        ExtendedType::Interface(node)
    }
}

impl From<Node<UnionType>> for ExtendedType {
    ghost from_gives = { λ node t. t ≡ variant.Union node };

    fn from(node: Node<UnionType>) -> ExtendedType {
        ExtendedType::Union(node)
    }
}

impl From<Node<EnumType>> for ExtendedType {
    ghost from_gives = { λ node t. t ≡ variant.Enum node };

    fn from(node: Node<EnumType>) -> ExtendedType {
        ExtendedType::Enum(node)
    }
}

impl From<Node<InputObjectType>> for ExtendedType {
    ghost from_gives = { λ node t. t ≡ variant.InputObject node };

    fn from(node: Node<InputObjectType>) -> ExtendedType {
        ExtendedType::InputObject(node)
    }
}
