//! Scalar types.
ghost use Rattle.std.specs.Prelude.{◌≡◌};
ghost use Rattle.std.specs.Option.{option_map};
ghost use Rattle.tree_literals.specs.in_names.Placed.{text_tree};
ghost use Rattle.tree_input_types.specs.InputTypeTree.{scalar_parts, scalar_extension_parts};

use std::alloc::AllocError;
use tree_literals::{Name, NodeStr};
use tree_type_members::{DirectiveList, clone_described, clone_head};

/// `scalar name @directives` (section 3.5).
#[derive(PartialEq, Eq, Hash)]
pub struct ScalarTypeDefinition {
    pub description: Option<NodeStr>,
    pub name: Name,
    pub directives: DirectiveList,
}

// Not derived: a derived drop is proved again in every crate that uses it.
impl Drop for ScalarTypeDefinition {
    fn drop(self) {
        let ScalarTypeDefinition {
            description: _,
            name: _,
            directives: _,
        } = self;
    }
}

/// `extend scalar name @directives` (section 3.5.7).
#[derive(PartialEq, Eq, Hash)]
pub struct ScalarTypeExtension {
    pub name: Name,
    pub directives: DirectiveList,
}

// Not derived: a derived drop is proved again in every crate that uses it.
impl Drop for ScalarTypeExtension {
    fn drop(self) {
        let ScalarTypeExtension {
            name: _,
            directives: _,
        } = self;
    }
}

impl ScalarTypeExtension {
    /// The definition with that description and these parts (section 3.5).
    pub fn into_definition(self, description: Option<NodeStr>) -> ScalarTypeDefinition
        ensures description { result.description ≡ description }
        ensures parts { scalar_parts result ≡ scalar_extension_parts self }
    {
        let ScalarTypeExtension { name, directives } = self;
        ScalarTypeDefinition {
            description,
            name,
            directives,
        }
    }
}

impl Clone for ScalarTypeDefinition {
    ghost is_clone = { λ t copy. (option_map text_tree copy.description ≡ option_map text_tree t.description) × (scalar_parts copy ≡ scalar_parts t) };

    fn clone(&self) -> Result<ScalarTypeDefinition, AllocError> {
        let (description, name, directives) = clone_described(
            &self.description,
            &self.name,
            &self.directives,
        )?;
        Ok(ScalarTypeDefinition {
            description,
            name,
            directives,
        })
    }
}

impl Clone for ScalarTypeExtension {
    ghost is_clone = { λ t copy. scalar_extension_parts copy ≡ scalar_extension_parts t };

    fn clone(&self) -> Result<ScalarTypeExtension, AllocError> {
        let (name, directives) = clone_head(&self.name, &self.directives)?;
        Ok(ScalarTypeExtension { name, directives })
    }
}
