//! Making documents.
ghost use Rattle.std.specs.Prelude.{◌≡◌};
ghost use Rattle.document_typing.specs.BuilderView.{document_builder, empty_builder};

use document_typed_operations::ExecutableDocument;
use document_typing::{ExecutableDocumentBuilder, Schema};
use std::alloc::Global;

/// Calls that make a document.
pub trait ExecutableDocumentExt {
    /// A builder without definitions, under this schema or without one. It takes no memory.
    fn builder<'schema>(
        alloc: Global,
        schema: Option<&'schema Schema>,
    ) -> ExecutableDocumentBuilder<'schema>;
}

impl ExecutableDocumentExt for ExecutableDocument {
    fn builder<'schema>(
        alloc: Global,
        schema: Option<&'schema Schema>,
    ) -> ExecutableDocumentBuilder<'schema>
        ensures { document_builder result ≡ empty_builder schema.entry }
    {
        ExecutableDocumentBuilder::new(alloc, schema)
    }
}
