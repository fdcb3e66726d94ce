//! What a row gives to be judged over its schema.

use graphql_names::FileId;
use graphql_read::parse_document;
use graphql_schema::Schema;
use row_files::{Case, Problem, says, text_of};
use std::alloc::Global;
use tree_definitions::Document;

/// A document that a row gives.
pub struct Given {
    pub document: Document,
}

impl Drop for Given {
    fn drop(self) {
        let Given { document: _ } = self;
    }
}

/// The document of a text, which must be read.
pub fn document_of(
    alloc: Global,
    case: Case<'_>,
    bytes: &[u8],
    file: FileId,
) -> Result<Given, Problem> {
    let text = text_of(case, bytes)?;
    match parse_document(alloc, text, file, 500) {
        Ok(document) => Ok(Given { document }),
        Err(_) => Err(case.row.head.problem("a text of this call is not read")),
    }
}

/// The schema, or none if the row says that it stands alone.
pub fn schema_under<'a>(case: Case<'_>, schema: &'a Schema) -> Result<Option<&'a Schema>, Problem> {
    if says(case.row, "standalone", "yes")? {
        Ok(None)
    } else {
        Ok(Some(schema))
    }
}
