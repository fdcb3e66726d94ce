//! The list of the texts' definitions, and its index.
ghost use Rattle.std.specs.Prelude.{◌≡◌, ◌+◌, ◌<◌, ◌^◌, ◌++◌, [], ◌∷◌, map, true, Some, None, if◌then◌else◌, IfOk, IfErr, OnOk, OnErr};
ghost use Rattle.std.specs.Option.{option_map};
ghost use Rattle.schema_built_in.specs.in_definitions.DefinitionTree.{definition_tree};
ghost use Rattle.schema_built_in.specs.in_definitions.Queries.{is_extension, definition_place};
ghost use Rattle.schema_components.specs.Given.{extension_tree};
ghost use Rattle.schema_building.specs.KeptView.{definitions, KeepsIndex};
ghost use Rattle.schema_building.specs.TextsView.{texts_view};
ghost use Rattle.schema_building.specs.TextsList.{AddsDefinitions, IsListRefusal};
ghost use Rattle.schema_building.specs.ListView.{Lists};

use crate::refusal::BuilderRefusal;
use schema_built_in::{Definition, NumberedDefinition};
use schema_components::{ExtensionId, Extensions};
use schema_fold_index::Index;
use std::alloc::{AllocError, Global};

/// The definitions of the texts in order, each extension with its number, folded or not; and their index, by the names of
/// types.
#[derive(Drop)]
pub(crate) struct Texts {
    pub(crate) extensions: Extensions,
    pub(crate) list: Vec<NumberedDefinition>,
    pub(crate) index: Index,
}

impl Texts {
    /// Adds a definition after the others, with a number if it is an extension, and files it.
    pub(crate) fn add(
        &mut self,
        alloc: Global,
        definition: &Definition,
    ) -> Result<(), BuilderRefusal>
        ensures added { OnOk result (AddsDefinitions (definition_tree definition.now ∷ []) (texts_view self.old) (texts_view self.new)) }
        ensures filed { OnOk result (KeepsIndex self.old self.new) }
        ensures refused { IfErr result (IsListRefusal (definition_tree definition.now ∷ []) (texts_view self.old)) }
    {
        let position = self.list.len();
        self.push(definition)?;
        self.index.file(alloc, position, definition)?;
        Ok(())
    }

    /// Adds a definition after the others, with a number if it is an extension.
    fn push(&mut self, definition: &Definition) -> Result<(), BuilderRefusal>
        ensures added { OnOk result (AddsDefinitions (definition_tree definition.now ∷ []) (texts_view self.old) (texts_view self.new)) }
        ensures following { OnOk result (definitions self.new ≡ definitions self.old ++ definition_tree definition.now ∷ []) }
        ensures index { self.new.index ≡ self.old.index }
        ensures refused { IfErr result (IsListRefusal (definition_tree definition.now ∷ []) (texts_view self.old)) }
    {
        if !definition.is_extension_definition() {
            return Ok(push_shared(&mut self.list, definition, None)?);
        }
        let id = self.extensions.next(definition.location())?;
        Ok(push_shared(&mut self.list, definition, Some(id))?)
    }
}

/// Adds a definition, shared, after the others of a list.
// The copy and the push, each with its `?`, are here once for all callers.
pub(crate) fn push_shared(
    list: &mut Vec<NumberedDefinition>,
    definition: &Definition,
    extension: Option<ExtensionId>,
) -> Result<(), AllocError>
    ensures { OnOk result (Lists list.old list.new (record { definition = definition_tree definition.now; extension = option_map extension_tree extension } ∷ [])) }
{
    let definition = definition.clone()?;
    list.push(NumberedDefinition {
        definition,
        extension,
    })?;
    Ok(())
}
