//! The state of a schema builder, and the list of definitions that it makes of its texts.
ghost use Rattle.std.specs.Prelude.{◌≡◌};
ghost use Rattle.schema_building.specs.KeptView.{IsKept};

use crate::settle::Settings;
use crate::texts::Texts;
use graphql_names::FileId;
use indexmap::IndexMap;
use schema_built_in::{NumberedDefinition, SourceFile};
use schema_fold_index::Index;
use std::alloc::Global;

/// The state of a schema builder: the definitions and extensions that were added to it, with their numbers and their
/// positions, filed by name and kind. Nothing is folded before it is built.
///
/// Contracts see it only as `builder_view`.
pub struct Building {
    pub(crate) alloc: Global,
    pub(crate) settings: Settings,
    pub(crate) texts: Texts,
    pub(crate) sources: IndexMap<FileId, SourceFile>,
    pub(crate) failed: bool,
    ghost kept: { IsKept texts failed },
}

/// Drops what it keeps, here and not at each place where a builder is dropped.
impl Drop for Building {
    fn drop(self) {
        let Building {
            alloc: _,
            settings: _,
            texts: _,
            sources: _,
            failed: _,
        } = self;
    }
}

impl Building {
    /// Consumes the builder: its texts and their sources.
    pub(crate) fn into_parts(self) -> (Texts, IndexMap<FileId, SourceFile>)
        ensures texts { result.0 ≡ self.texts }
        ensures sources { result.1 ≡ self.sources }
    {
        let Building {
            alloc: _,
            settings: _,
            texts,
            sources,
            failed: _,
        } = self;
        (texts, sources)
    }
}

/// What a builder makes of its texts: the list of definitions that counts, what is built in before the texts, each
/// extension with its number; and the sources that the texts came from.
#[derive(Drop)]
pub struct SettledList {
    pub sources: IndexMap<FileId, SourceFile>,
    pub list: Vec<NumberedDefinition>,
    /// How many definitions of the list are built in: they come first.
    pub built_in: usize,
    /// The index of the other definitions.
    pub index: Index,
}
