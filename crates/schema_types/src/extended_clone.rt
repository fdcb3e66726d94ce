//! Copies of types: nodes are shared.
ghost use Rattle.std.specs.Prelude.{◌≡◌};
ghost use Rattle.schema_types.specs.TypeView.{extended_type};

use crate::extended_type::ExtendedType;
use std::alloc::AllocError;

/// The same type: its node is shared and not copied.
impl Clone for ExtendedType {
    ghost is_clone = { λ t copy. extended_type copy ≡ extended_type t };

    fn clone(&self) -> Result<ExtendedType, AllocError> {
        Ok(match self {
            ExtendedType::Scalar(node) => ExtendedType::Scalar(node.clone()?),
            ExtendedType::Object(node) => ExtendedType::Object(node.clone()?),
            ExtendedType::Interface(node) => ExtendedType::Interface(node.clone()?),
            ExtendedType::Union(node) => ExtendedType::Union(node.clone()?),
            ExtendedType::Enum(node) => ExtendedType::Enum(node.clone()?),
            ExtendedType::InputObject(node) => ExtendedType::InputObject(node.clone()?),
        })
    }
}
