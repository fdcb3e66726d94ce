//! The list of definitions, each extension with its number.
ghost use Rattle.std.specs.Prelude.{◌≡◌};
ghost use Rattle.std.specs.Option.{option_map};
ghost use Rattle.schema_types.specs.in_components.Given.{extension_tree, origin_tree};

use schema_types::{ComponentOrigin, ExtensionId};
use tree_definitions::Definition;

/// A definition of the list, and its number if it is an extension.
pub struct NumberedDefinition {
    pub definition: Definition,
    pub extension: Option<ExtensionId>,
}

/// Drops the definition: proved here once, and not again in each crate above.
impl Drop for NumberedDefinition {
    fn drop(self) {
        let NumberedDefinition {
            definition: _,
            extension: _,
        } = self;
    }
}

impl NumberedDefinition {
    /// The origin of its components.
    pub fn origin(&self) -> ComponentOrigin
        ensures { origin_tree result ≡ option_map extension_tree self.now.extension }
    {
        match self.extension {
            None => ComponentOrigin::Definition,
            Some(id) => ComponentOrigin::Extension(id),
        }
    }
}
