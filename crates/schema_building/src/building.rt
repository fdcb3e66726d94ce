//! Calls of a schema builder's state.
ghost use Rattle.std.specs.Prelude.{◌≡◌, ◌≤◌, ◌++◌, [], true, false, drop, length, map, IfOk, IfErr, OnOk};
ghost use Rattle.schema_built_in.specs.in_definitions.DefinitionTree.{document_tree};
ghost use Rattle.schema_built_in.specs.in_definitions.Sources.{sources_of};
ghost use Rattle.schema_built_in.specs.Table.{built_in_definitions};
ghost use Rattle.schema_built_in.specs.in_fold.NumberedDefinition.{numbered, definitions_of};
ghost use Rattle.schema_built_in.specs.in_fold.ListedView.{listed_view};
ghost use Rattle.schema_fold_index.specs.Index.{IsIndexOf};
ghost use Rattle.schema_building.specs.Building.{plain_settings, with_document, counted, lent_names, IsAddRefusal, IsBuildRefusal};
ghost use Rattle.schema_building.specs.BuildingView.{builder_view};
ghost use Rattle.schema_building.specs.KeptView.{KeepsIndex};
ghost use Rattle.schema_building.specs.TextsList.{AddsDefinitions, IsListRefusal};
ghost use Rattle.schema_building.specs.TextsView.{texts_view};
ghost use Rattle.schema_building.specs.Numbers.{HaveNumbers};
ghost use Rattle.schema_building.specs.SourcesView.{sources_view, with_sources};
ghost use Rattle.schema_building.specs.Waiting.{left_names};

use crate::refusal::BuilderRefusal;
use crate::settle::{Settings, settle, settled_index};
use crate::sources::add_sources;
use crate::state::{Building, SettledList};
use crate::texts::Texts;
use crate::waiting::OrphanExtensionTypes;
use graphql_names::FileId;
use indexmap::IndexMap;
use schema_built_in::{Document, SourceFile};
use schema_components::Extensions;
use schema_fold_index::Index;
use std::alloc::Global;

impl Building {
    /// A builder without definitions, which counts extensions from 1. It takes no memory.
    pub fn new(alloc: Global) -> Building
        ensures { builder_view result ≡ record { first = 1; texts = []; sources = []; settings = plain_settings; failed = false } }
    {
        Building::with_extensions(alloc, Extensions::new())
    }

    /// A builder without definitions, which takes the numbers of extensions from `extensions`. It takes no memory.
    pub fn with_extensions(alloc: Global, extensions: Extensions) -> Building
        ensures { builder_view result ≡ record { first = extensions; texts = []; sources = []; settings = plain_settings; failed = false } }
    {
        Building {
            alloc,
            settings: Settings {
                adopts: false,
                ignores: false,
            },
            texts: Texts {
                extensions,
                list: Vec::new(alloc),
                index: Index::new(alloc),
            },
            sources: IndexMap::new(alloc),
            failed: false,
        }
    }

    /// Makes it adopt extensions of types that are not defined, and of a schema that is not.
    pub fn adopt_orphan_extensions(self) -> Building
        ensures { builder_view result ≡ record (builder_view self) { settings = record (builder_view self).settings { adopts = true } } }
    {
        let mut building = self;
        building.settings.adopts = true;
        building
    }

    /// Makes it ignore definitions of built-in types.
    pub fn ignore_builtin_redefinitions(self) -> Building
        ensures { builder_view result ≡ record (builder_view self) { settings = record (builder_view self).settings { ignores = true } } }
    {
        let mut building = self;
        building.settings.ignores = true;
        building
    }

    /// Adds the definitions and the sources of a document after the others.
    ///
    /// If memory or numbers run out, the answer says so, and from then on it is [`BuilderRefusal::Failed`].
    pub fn add_ast(&mut self, document: &Document) -> Result<(), BuilderRefusal>
        ensures running { OnOk result ((builder_view self.old).failed ≡ false) }
        ensures added { OnOk result (builder_view self.new ≡ with_document (document_tree document.now) (sources_of document.now) (builder_view self.old)) }
        ensures numbers { OnOk result (HaveNumbers (builder_view self.new).first (builder_view self.new).texts) }
        ensures refused { IfErr result (IsAddRefusal (builder_view self.old) (document_tree document.now) (builder_view self.new)) }
    {
        if self.failed {
            return Err(BuilderRefusal::Failed);
        }
        match add_document(self.alloc, &mut self.texts, &mut self.sources, document) {
            Ok(()) => Ok(()),
            Err(refusal) => {
                // The list may now end in the middle of a document, so nothing is added or built any more.
                self.failed = true;
                Err(refusal)
            }
        }
    }

    /// Lends the names of the types that are extended and not defined so far, in the order of their first extensions.
    /// A builder that has failed lends none.
    pub fn iter_orphan_extension_types(&self) -> OrphanExtensionTypes<'_>
        ensures { left_names result ≡ lent_names (builder_view self.now) }
    {
        if self.failed {
            return OrphanExtensionTypes::none(&self.texts.index);
        }
        OrphanExtensionTypes::of(&self.texts.index)
    }

    /// Consumes the builder: the list of definitions that counts, after what is built in, with its index, and the sources.
    pub fn settle(self) -> Result<SettledList, BuilderRefusal>
        ensures running { OnOk result ((builder_view self).failed ≡ false) }
        ensures list { IfOk result (λ s. map listed_view s.list.items ≡ numbered (builder_view self).first (built_in_definitions ++ counted (builder_view self))) }
        ensures built_in { IfOk result (λ s. s.built_in ≡ length built_in_definitions) }
        ensures within { IfOk result (λ s. s.built_in ≤ length s.list.items) }
        ensures index { IfOk result (λ s. IsIndexOf (definitions_of (map listed_view (drop s.built_in s.list.items))) s.index) }
        ensures sources { IfOk result (λ s. sources_view s.sources ≡ (builder_view self).sources) }
        ensures refused { IfErr result (IsBuildRefusal (builder_view self)) }
    {
        if self.failed {
            return Err(BuilderRefusal::Failed);
        }
        let alloc = self.alloc;
        let settings = self.settings;
        let (texts, sources) = self.into_parts();
        let mut list = Vec::new(alloc);
        let built_in = settle(alloc, settings, &texts, &mut list)?;
        let (_, settled) = list.split_at(built_in);
        let index = settled_index(alloc, settings.ignores, texts, settled)?;
        Ok(SettledList {
            sources,
            list,
            built_in,
            index,
        })
    }
}

/// Adds what a document has to what a builder keeps.
fn add_document(
    alloc: Global,
    texts: &mut Texts,
    sources: &mut IndexMap<FileId, SourceFile>,
    document: &Document,
) -> Result<(), BuilderRefusal>
    ensures texts { OnOk result (AddsDefinitions (document_tree document.now) (texts_view texts.old) (texts_view texts.new)) }
    ensures filed { OnOk result (KeepsIndex texts.old texts.new) }
    ensures sources { OnOk result (sources_view sources.new ≡ with_sources (sources_view sources.old) (sources_of document.now)) }
    ensures refused { IfErr result (IsListRefusal (document_tree document.now) (texts_view texts.old)) }
{
    for definition in &document.definitions {
        texts.add(alloc, definition)?;
    }
    add_sources(sources, &document.sources)?;
    Ok(())
}
