//! The table of what is built in, read as GraphQL.

ghost use Rattle.graphql_names.specs.declared.span.FileId.{FileId};
ghost use Rattle.rule_schema_laws.specs.BuiltInTextReads.{TextReads};

/// The text of the table is a document, of exactly the definitions that are built in, apart from places.
pub fn built_in_text_reads()
    ensures { (file : FileId) → TextReads file }
{}
