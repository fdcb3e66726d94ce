//! The builder of schemas.
ghost use Rattle.std.specs.Prelude.{◌≡◌, ◌≤◌, ◌↔◌, [], true, false, drop, length, map, IfOk, IfErr, OnOk, Contains};
ghost use Rattle.schema_writing.specs.in_definitions.DefinitionTree.{document_tree};
ghost use Rattle.schema_writing.specs.in_definitions.Sources.{sources_of};
ghost use Rattle.schema_building.specs.in_built_in.Table.{built_in_definitions};
ghost use Rattle.schema_building.specs.in_fold.BuildErrors.{FoldingRules};
ghost use Rattle.schema_building.specs.in_fold.FaultView.{faults_of};
ghost use Rattle.schema_building.specs.in_fold.Fold.{fold};
ghost use Rattle.schema_building.specs.in_fold.NumberedDefinition.{definitions_of};
ghost use Rattle.schema_building.specs.in_fold.ListedView.{listed_view};
ghost use Rattle.schema_building.specs.in_fold_index.Index.{IsIndexOf};
ghost use Rattle.schema_building.specs.Building.{plain_settings, with_document, counted, folded, FailsIn, lent_names, IsAddRefusal, IsBuildRefusal};
ghost use Rattle.schema_building.specs.Numbers.{HaveNumbers};
ghost use Rattle.schema_building.specs.SourcesView.{sources_view};
ghost use Rattle.schema_building.specs.Waiting.{left_names};
ghost use Rattle.schema_fold_lists.specs.ListBuilt.{FoldsList};
ghost use Rattle.schema_fold_lists.specs.in_fold_types.OwnNames.{UnderOwnNames};
ghost use Rattle.graphql_schema.specs.BuilderOf.{builder_value};
ghost use Rattle.graphql_schema.specs.SchemaOf.{schema_tree};

use crate::meta_fields::MetaFields;
use crate::schema::Schema;
use graphql_names::SourceSpan;
use schema_building::{BuilderRefusal, Building, OrphanExtensionTypes, SettledList};
use schema_components::Extensions;
use schema_fold_lists::{BuildError, fold_list};
use schema_writing::Document;
use std::alloc::{AllocError, Global};

/// Takes the definitions of documents, and builds one schema from all of them. What is built in comes first.
///
/// Contracts see it only as `builder_value`: the definitions that were added, in order, with the number of the first
/// extension, the sources, the settings, and whether memory or numbers ran out.
#[derive(Drop)]
pub struct SchemaBuilder {
    alloc: Global,
    building: Building,
}

impl SchemaBuilder {
    /// A builder without definitions, which counts extensions from 1. It takes no memory.
    pub fn new(alloc: Global) -> SchemaBuilder
        ensures { builder_value result ≡ record { first = 1; texts = []; sources = []; settings = plain_settings; failed = false } }
    {
        SchemaBuilder {
            alloc,
            building: Building::new(alloc),
        }
    }

    /// A builder without definitions, which takes the numbers of extensions from `extensions`. It takes no memory.
    pub fn with_extensions(alloc: Global, extensions: Extensions) -> SchemaBuilder
        ensures { builder_value result ≡ record { first = extensions; texts = []; sources = []; settings = plain_settings; failed = false } }
    {
        SchemaBuilder {
            alloc,
            building: Building::with_extensions(alloc, extensions),
        }
    }

    /// Makes it adopt extensions of types that are not defined, and of a schema that is not: they extend empty
    /// definitions.
    pub fn adopt_orphan_extensions(self) -> SchemaBuilder
        ensures { builder_value result ≡ record (builder_value self) { settings = record (builder_value self).settings { adopts = true } } }
    {
        SchemaBuilder {
            alloc: self.alloc,
            building: self.building.adopt_orphan_extensions(),
        }
    }

    /// Makes it ignore definitions of built-in types.
    pub fn ignore_builtin_redefinitions(self) -> SchemaBuilder
        ensures { builder_value result ≡ record (builder_value self) { settings = record (builder_value self).settings { ignores = true } } }
    {
        SchemaBuilder {
            alloc: self.alloc,
            building: self.building.ignore_builtin_redefinitions(),
        }
    }

    /// Adds the definitions and the sources of a document after the others.
    ///
    /// If memory or numbers run out, the answer says so, and from then on it is [`BuilderRefusal::Failed`].
    pub fn add_ast(&mut self, document: &Document) -> Result<(), BuilderRefusal>
        ensures running { OnOk result ((builder_value self.old).failed ≡ false) }
        ensures added { OnOk result (builder_value self.new ≡ with_document (document_tree document.now) (sources_of document.now) (builder_value self.old)) }
        ensures numbers { OnOk result (HaveNumbers (builder_value self.new).first (builder_value self.new).texts) }
        ensures refused { IfErr result (IsAddRefusal (builder_value self.old) (document_tree document.now) (builder_value self.new)) }
    {
        self.building.add_ast(document)
    }

    /// Lends the names of the types that are extended and not defined so far, in the order of their first extensions.
    /// A builder that has failed lends none.
    pub fn iter_orphan_extension_types(&self) -> OrphanExtensionTypes<'_>
        ensures { left_names result ≡ lent_names (builder_value self.now) }
    {
        self.building.iter_orphan_extension_types()
    }

    /// The schema that the definitions fold to, after what is built in. With it comes each way in which they break a
    /// folding rule. Each thing of the schema is under its own name.
    pub fn build(self) -> Result<(Schema, Vec<(Option<SourceSpan>, BuildError)>), BuilderRefusal>
        ensures running { OnOk result ((builder_value self).failed ≡ false) }
        ensures schema { IfOk result (λ r. schema_tree r.0 ≡ folded (builder_value self)) }
        ensures own_names { IfOk result (λ r. UnderOwnNames (schema_tree r.0)) }
        ensures sources { IfOk result (λ r. sources_view r.0.sources ≡ (builder_value self).sources) }
        ensures faults { IfOk result (λ r. (f : _) → Contains (faults_of r.1) f ↔ FailsIn (builder_value self) f) }
        ensures faultless { IfOk result (λ r. (faults_of r.1 ≡ []) ↔ FoldingRules built_in_definitions (builder_value self).first (counted (builder_value self))) }
        ensures refused { IfErr result (IsBuildRefusal (builder_value self)) }
    {
        let settled = self.building.settle()?;
        let built = fold_settled(self.alloc, settled)?;
        Ok(built)
    }
}

impl Schema {
    /// The schema of what is built in alone. It has no root, and breaks no folding rule: no fault is left out.
    pub fn new(alloc: Global) -> Result<Schema, AllocError>
        ensures schema { IfOk result (λ s. schema_tree s ≡ fold built_in_definitions 1 []) }
        ensures own_names { IfOk result (λ s. UnderOwnNames (schema_tree s)) }
        ensures sources { IfOk result (λ s. sources_view s.sources ≡ []) }
        ensures rules { IfOk result (λ s. FoldingRules built_in_definitions 1 []) }
    {
        match Schema::builder(alloc).build() {
            Ok((schema, _)) => Ok(schema),
            Err(BuilderRefusal::Memory) => Err(AllocError),
            // Nothing was added: no extension asked for a number, and no earlier call failed.
            Err(BuilderRefusal::Spent | BuilderRefusal::Failed) => unreachable!(),
        }
    }

    /// A builder without definitions. It takes no memory.
    pub fn builder(alloc: Global) -> SchemaBuilder
        ensures { builder_value result ≡ record { first = 1; texts = []; sources = []; settings = plain_settings; failed = false } }
    {
        SchemaBuilder::new(alloc)
    }
}

/// The schema that a list folds to, with each way in which a folding rule is broken.
fn fold_settled(
    alloc: Global,
    settled: SettledList,
) -> Result<(Schema, Vec<(Option<SourceSpan>, BuildError)>), AllocError>
    requires within { settled.built_in ≤ length settled.list.items }
    requires indexed { IsIndexOf (definitions_of (map listed_view (drop settled.built_in settled.list.items))) settled.index }
    ensures folds { IfOk result (λ r. FoldsList (map listed_view settled.list.items) settled.built_in (schema_tree r.0) (faults_of r.1)) }
    ensures sources { IfOk result (λ r. sources_view r.0.sources ≡ sources_view settled.sources) }
{
    let SettledList {
        sources,
        list,
        built_in,
        index,
    } = settled;
    let mut faults = Vec::new(alloc);
    let folded = fold_list(alloc, &list, built_in, &index, &mut faults)?;
    let meta_fields = MetaFields::new(alloc)?;
    let schema = Schema {
        sources,
        schema_definition: folded.schema_definition,
        directive_definitions: folded.directive_definitions,
        types: folded.types,
        meta_fields,
    };
    Ok((schema, faults))
}
