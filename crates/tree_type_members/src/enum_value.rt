//! The values of enums.
ghost use Rattle.std.specs.Prelude.{◌≡◌};
ghost use Rattle.tree_type_members.specs.TypeSystemTree.{enum_value_tree};

use crate::copies::clone_described;
use std::alloc::AllocError;
use tree_directives::DirectiveList;
use tree_literals::{Name, NodeStr};

/// `value @directives` (section 3.9).
#[derive(PartialEq, Eq, Hash)]
pub struct EnumValueDefinition {
    pub description: Option<NodeStr>,
    pub value: Name,
    pub directives: DirectiveList,
}

// Not derived: a derived drop is proved again in every crate that uses it.
impl Drop for EnumValueDefinition {
    fn drop(self) {
        let EnumValueDefinition {
            description: _,
            value: _,
            directives: _,
        } = self;
    }
}

impl Clone for EnumValueDefinition {
    ghost is_clone = { λ v copy. enum_value_tree copy ≡ enum_value_tree v };

    fn clone(&self) -> Result<EnumValueDefinition, AllocError> {
        let (description, value, directives) = clone_described(
            &self.description,
            &self.value,
            &self.directives,
        )?;
        Ok(EnumValueDefinition {
            description,
            value,
            directives,
        })
    }
}
