//! The builder of documents.
ghost use Rattle.std.specs.Prelude.{◌≡◌, ◌++◌, map, false, IfOk, IfErr, OnOk};
ghost use Rattle.tree_definitions.specs.DefinitionTree.{definition_tree, document_tree};
ghost use Rattle.tree_definitions.specs.Sources.{sources_of};
ghost use Rattle.graphql_schema.specs.SourcesView.{sources_view, with_sources};
ghost use Rattle.document_typed_operations.specs.TypedDocument.{typed_document_tree};
ghost use Rattle.document_typing.specs.TypingFaults.{AreTypingFaults};
ghost use Rattle.document_typing.specs.FullList.{TellsAll};
ghost use Rattle.document_typing.specs.OutDoc.{IsWholeWithoutFaults};
ghost use Rattle.document_typing.specs.TypedByPlace.{IsTypedDocument};
ghost use Rattle.document_typing.specs.DefinedByPlace.{IsDefinedDocument};
ghost use Rattle.document_typing.specs.FaultView.{faults_of};
ghost use Rattle.document_typing.specs.DocumentView.{meant_document};
ghost use Rattle.document_typing.specs.BuilderView.{document_builder, empty_builder, and_document, built_document, IsDocumentAddRefusal, IsDocumentBuildRefusal};

use crate::document::type_document;
use crate::refusal::BuilderRefusal;
use crate::typing::Typing;
use document_typed_operations::ExecutableDocument;
use fault_document_errors::BuildError;
use graphql_names::{FileId, SourceSpan};
use graphql_schema::{Schema, add_sources};
use indexmap::IndexMap;
use std::alloc::{AllocError, Global};
use tree_definitions::{Definition, Document, SourceFile};

/// Takes the definitions of documents, and gives all of them a meaning under a schema, or without one.
///
/// Contracts see it only as `document_builder`: the schema and what it says, the definitions and sources that were added,
/// in order, and whether memory ran out.
#[derive(Drop)]
pub struct ExecutableDocumentBuilder<'schema> {
    alloc: Global,
    schema: Option<&'schema Schema>,
    definitions: Vec<Definition>,
    sources: IndexMap<FileId, SourceFile>,
    failed: bool,
}

impl<'schema> ExecutableDocumentBuilder<'schema> {
    /// A builder without definitions, under this schema or without one. It takes no memory.
    pub fn new(alloc: Global, schema: Option<&'schema Schema>) -> ExecutableDocumentBuilder<'schema>
        ensures { document_builder result ≡ empty_builder schema.entry }
    {
        ExecutableDocumentBuilder {
            alloc,
            schema,
            definitions: Vec::new(alloc),
            sources: IndexMap::new(alloc),
            failed: false,
        }
    }

    /// Adds the definitions and the sources of a document after the others.
    ///
    /// If memory runs out, the answer says so, and from then on it is [`BuilderRefusal::Failed`].
    pub fn add_ast_document(&mut self, document: &Document) -> Result<(), BuilderRefusal>
        ensures running { OnOk result ((document_builder self.old).failed ≡ false) }
        ensures added { OnOk result (document_builder self.new ≡ and_document (document_builder self.old) (document_tree document.now) (sources_of document.now)) }
        ensures refused { IfErr result (IsDocumentAddRefusal (document_builder self.old) (document_builder self.new)) }
    {
        if self.failed {
            return Err(BuilderRefusal::Failed);
        }
        match add_document(&mut self.definitions, &mut self.sources, document) {
            Ok(()) => Ok(()),
            Err(_) => {
                // The list may now end in the middle of a document, so nothing is added or built any more.
                self.failed = true;
                Err(BuilderRefusal::Memory)
            }
        }
    }

    /// The document that is kept, which is typed by its place and has the schema's definitions, and each way in which a rule of
    /// typing is broken. If none is, the whole document is kept.
    pub fn build(
        self,
    ) -> Result<(ExecutableDocument, Vec<(Option<SourceSpan>, BuildError)>), BuilderRefusal>
        ensures running { OnOk result ((document_builder self.entry).failed ≡ false) }
        ensures document { IfOk result (λ r. meant_document (typed_document_tree r.0) ≡ built_document (document_builder self.entry)) }
        ensures typed { IfOk result (λ r. IsTypedDocument (document_builder self.entry).meanings (meant_document (typed_document_tree r.0))) }
        ensures defined { IfOk result (λ r. IsDefinedDocument (document_builder self.entry).schema (typed_document_tree r.0)) }
        ensures whole { IfOk result (λ r. IsWholeWithoutFaults (document_builder self.entry).definitions (meant_document (typed_document_tree r.0)) (faults_of r.1)) }
        ensures sources { IfOk result (λ r. sources_view r.0.sources ≡ (document_builder self.entry).sources) }
        ensures faults { IfOk result (λ r. AreTypingFaults (document_builder self.entry).meanings (document_builder self.entry).definitions (faults_of r.1)) }
        ensures full { IfOk result (λ r. TellsAll (document_builder self.entry).meanings (document_builder self.entry).definitions (faults_of r.1)) }
        ensures refused { IfErr result (IsDocumentBuildRefusal (document_builder self.entry)) }
    {
        if self.failed {
            return Err(BuilderRefusal::Failed);
        }
        let typing = Typing {
            alloc: self.alloc,
            schema: self.schema,
        };
        let typed = type_document(&typing, &self.definitions)?;
        let document = ExecutableDocument {
            sources: self.sources,
            operations: typed.operations,
            fragments: typed.fragments,
        };
        Ok((document, typed.faults))
    }
}

/// Adds copies of what a document has to what a builder keeps.
fn add_document(
    definitions: &mut Vec<Definition>,
    sources: &mut IndexMap<FileId, SourceFile>,
    document: &Document,
) -> Result<(), AllocError>
    ensures definitions { OnOk result (map definition_tree definitions.new.items ≡ map definition_tree definitions.old.items ++ document_tree document.now) }
    ensures sources { OnOk result (sources_view sources.new ≡ with_sources (sources_view sources.old) (sources_of document.now)) }
{
    definitions.extend_with_clones(&document.definitions)?;
    add_sources(sources, &document.sources)
}
