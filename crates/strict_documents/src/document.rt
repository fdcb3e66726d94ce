//! Departures of a document.
ghost use Rattle.std.specs.Prelude.{IfOk, OnOk};
ghost use Rattle.graphql_schema.specs.SchemaOf.{schema_tree};
ghost use Rattle.document_typed_operations.specs.DocumentView.{document_meant};
ghost use Rattle.strict_documents.specs.DepartsIn.{DepartsIn};
ghost use Rattle.strict_documents.specs.Telling.{AddsDepartures};
ghost use Rattle.strict_documents.specs.Views.{TellsDepartures};

use crate::departure::Departure;
use crate::objects::StrictSchema;
use crate::operation::tell_operation;
use document_typed_operations::ExecutableDocument;
use std::alloc::{AllocError, Global};

/// Adds the departures of each operation.
fn tell_operations(
    schema: &StrictSchema<'_>,
    document: &ExecutableDocument,
    departures: &mut Vec<Departure>,
) -> Result<(), AllocError>
    ensures { OnOk result (AddsDepartures departures.old departures.new (DepartsIn (schema_tree schema.now) (document_meant document.now))) }
{
    for operation in document.operations.iter() {
        tell_operation(schema, document, operation, departures)?;
    }
    Ok(())
}

/// The departures of a document under a schema, at most 1,000 of them, in the order of its operations: one in a fragment is told for
/// each operation that reaches it. Fails if memory is refused.
pub fn document_departures(
    alloc: Global,
    schema: &StrictSchema<'_>,
    document: &ExecutableDocument,
) -> Result<Vec<Departure>, AllocError>
    ensures { IfOk result (λ told. TellsDepartures (schema_tree schema.now) (document_meant document.now) told) }
{
    let mut departures = Vec::new(alloc);
    tell_operations(schema, document, &mut departures)?;
    Ok(departures)
}
