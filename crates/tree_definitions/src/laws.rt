//! What equality of definitions and of documents means: exactly that the trees are the same apart from places and sources.
ghost use Rattle.std.specs.Prelude.{◌≡◌, ◌↔◌, IsTrue};
ghost use Rattle.tree_definitions.specs.DefinitionTree.{definition_tree, unplaced_definition, document_tree, unplaced_document};

use crate::definition::Definition;
use crate::document::Document;

/// Whether two definitions are equal.
#[tactic(auto, using(crate::proofs::DefinitionEquality::equality))]
pub fn equal_definitions(a: &Definition, b: &Definition) -> bool
    ensures { IsTrue result ↔ (unplaced_definition (definition_tree a.now) ≡ unplaced_definition (definition_tree b.now)) }
{
    *a == *b
}

/// Whether two documents are equal.
#[tactic(auto, using(crate::proofs::DefinitionEquality::equality))]
pub fn equal_documents(a: &Document, b: &Document) -> bool
    ensures { IsTrue result ↔ (unplaced_document (document_tree a.now) ≡ unplaced_document (document_tree b.now)) }
{
    *a == *b
}
