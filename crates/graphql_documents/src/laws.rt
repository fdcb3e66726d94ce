//! What follows from building a document and writing it.
//!
//! The law names the kept document of `specs/KeptDocument.antt`, the faults of
//! `specs/TypingFaults.antt` and what is written by `specs/OutDoc.antt`, all of `document_typing`.
ghost use Rattle.std.specs.Prelude.{◌≡◌, [], IfOk};
ghost use Rattle.tree_definitions.specs.DefinitionTree.{document_tree};
ghost use Rattle.document_typing.specs.TypingFaults.{AreTypingFaults};
ghost use Rattle.document_typing.specs.OutDoc.{out_doc, written_document};
ghost use Rattle.document_typing.specs.FaultView.{faults_of};
ghost use Rattle.document_typing.specs.BuilderView.{document_builder, built_document};

use document_typing::{BuildError, BuilderRefusal, ExecutableDocumentBuilder};
use graphql_names::SourceSpan;
use std::alloc::Global;
use tree_definitions::Document;

/// What is written of all that was added, and each way in which a rule of typing is broken in it. What is written is
/// what is kept. If no rule is broken, these are all operations, one without a name first, and then all fragments, each
/// as it was read.
pub fn written_and_told(
    alloc: Global,
    builder: ExecutableDocumentBuilder<'_>,
) -> Result<(Document, Vec<(Option<SourceSpan>, BuildError)>), BuilderRefusal>
    ensures written { IfOk result (λ r. document_tree r.0 ≡ written_document (built_document (document_builder builder.entry))) }
    ensures whole { IfOk result (λ r. faults_of r.1 ≡ [] → document_tree r.0 ≡ out_doc (document_builder builder.entry).definitions) }
    ensures told { IfOk result (λ r. AreTypingFaults (document_builder builder.entry).meanings (document_builder builder.entry).definitions (faults_of r.1)) }
{
    let (document, faults) = builder.build()?;
    let written = document.to_ast(alloc)?;
    Ok((written, faults))
}
