//! Calls of fragment spreads that need a document.
ghost use Rattle.std.specs.Prelude.{◌≡◌};
ghost use Rattle.std.specs.Option.{option_map};
ghost use Rattle.graphql_names.specs.Placed.{node_tree};
ghost use Rattle.schema_types.specs.Addresses.{under};
ghost use Rattle.document_typed_operations.specs.TypedDocument.{typed_fragment_tree, typed_document_tree};

use document_typed_operations::{ExecutableDocument, Fragment};
use document_typed_selections::FragmentSpread;
use graphql_names::Node;

/// Calls of a fragment spread that need a document.
pub trait FragmentSpreadExt {
    /// The fragment that is spread, if the document has it.
    fn fragment_def<'doc>(
        &self,
        document: &'doc ExecutableDocument,
    ) -> Option<&'doc Node<Fragment>>;
}

impl FragmentSpreadExt for FragmentSpread {
    fn fragment_def<'doc>(&self, document: &'doc ExecutableDocument) -> Option<&'doc Node<Fragment>>
        ensures { option_map (λ n. node_tree typed_fragment_tree n.now) result ≡ under self.now.fragment_name.text (typed_document_tree document.now).fragments }
    {
        document.fragments.get(&self.fragment_name)
    }
}
