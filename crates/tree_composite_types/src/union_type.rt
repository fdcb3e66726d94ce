//! Union types.
ghost use Rattle.std.specs.Prelude.{◌≡◌};
ghost use Rattle.std.specs.Option.{option_map};
ghost use Rattle.tree_literals.specs.in_names.Placed.{text_tree};
ghost use Rattle.tree_composite_types.specs.CompositeTree.{union_parts, union_extension_parts};

use std::alloc::AllocError;
use tree_type_members::{DirectiveList, Name, NamedType, NodeStr, clone_described, clone_head};

/// `union name @directives = members` (section 3.8).
#[derive(PartialEq, Eq, Hash)]
pub struct UnionTypeDefinition {
    pub description: Option<NodeStr>,
    pub name: Name,
    pub directives: DirectiveList,
    pub members: Vec<NamedType>,
}

// Not derived: a derived drop is proved again in every crate that uses it.
impl Drop for UnionTypeDefinition {
    fn drop(self) {
        let UnionTypeDefinition {
            description: _,
            name: _,
            directives: _,
            members: _,
        } = self;
    }
}

/// `extend union name @directives = members` (section 3.8.1).
#[derive(PartialEq, Eq, Hash)]
pub struct UnionTypeExtension {
    pub name: Name,
    pub directives: DirectiveList,
    pub members: Vec<NamedType>,
}

// Not derived: a derived drop is proved again in every crate that uses it.
impl Drop for UnionTypeExtension {
    fn drop(self) {
        let UnionTypeExtension {
            name: _,
            directives: _,
            members: _,
        } = self;
    }
}

impl UnionTypeExtension {
    /// The definition with that description and these parts (section 3.8).
    pub fn into_definition(self, description: Option<NodeStr>) -> UnionTypeDefinition
        ensures description { result.description ≡ description }
        ensures parts { union_parts result ≡ union_extension_parts self }
    {
        let UnionTypeExtension {
            name,
            directives,
            members,
        } = self;
        UnionTypeDefinition {
            description,
            name,
            directives,
            members,
        }
    }
}

impl Clone for UnionTypeDefinition {
    ghost is_clone = { λ t copy. (option_map text_tree copy.description ≡ option_map text_tree t.description) × (union_parts copy ≡ union_parts t) };

    fn clone(&self) -> Result<UnionTypeDefinition, AllocError> {
        let (description, name, directives) = clone_described(
            &self.description,
            &self.name,
            &self.directives,
        )?;
        Ok(UnionTypeDefinition {
            description,
            name,
            directives,
            members: self.members.clone()?,
        })
    }
}

impl Clone for UnionTypeExtension {
    ghost is_clone = { λ t copy. union_extension_parts copy ≡ union_extension_parts t };

    fn clone(&self) -> Result<UnionTypeExtension, AllocError> {
        let (name, directives) = clone_head(&self.name, &self.directives)?;
        Ok(UnionTypeExtension {
            name,
            directives,
            members: self.members.clone()?,
        })
    }
}
