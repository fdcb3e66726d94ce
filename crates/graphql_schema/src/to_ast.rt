//! Schemas as documents.
ghost use Rattle.std.specs.Prelude.{◌≡◌, [], IfOk};
ghost use Rattle.schema_writing.specs.in_definitions.DefinitionTree.{document_tree};
ghost use Rattle.schema_building.specs.in_schema_types.Out.{written};
ghost use Rattle.graphql_schema.specs.SchemaOf.{schema_tree};

use crate::schema::Schema;
use indexmap::IndexMap;
use schema_writing::{Document, written_definitions};
use std::alloc::{AllocError, Global};

impl Schema {
    /// The schema as a document: its definition unless it is implicit, its directives and its types, each with its
    /// extensions. What is built in is left out. What the definitions hold is shared with the schema. The document has
    /// no sources.
    pub fn to_ast(&self, alloc: Global) -> Result<Document, AllocError>
        ensures definitions { IfOk result (λ d. document_tree d ≡ written (schema_tree self.now)) }
        ensures sources { IfOk result (λ d. d.sources.entries ≡ []) }
    {
        let definitions = written_definitions(
            alloc,
            &self.schema_definition,
            &self.directive_definitions,
            &self.types,
        )?;
        Ok(Document {
            sources: IndexMap::new(alloc),
            definitions,
        })
    }
}
