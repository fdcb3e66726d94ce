//! Departures of an operation.
ghost use Rattle.std.specs.Prelude.{OnOk};
ghost use Rattle.graphql_schema.specs.SchemaOf.{schema_tree};
ghost use Rattle.document_typed_operations.specs.DocumentView.{document_meant, operation_meant};
ghost use Rattle.strict_documents.specs.DepartsIn.{DepartsInOperation};
ghost use Rattle.strict_documents.specs.Telling.{AddsDepartures};

use crate::departure::Departure;
use crate::objects::StrictSchema;
use crate::reached::tell_reached;
use crate::roots::tell_roots;
use crate::variables::tell_variables;
use document_typed_operations::{ExecutableDocument, Operation};
use graphql_names::Node;
use std::alloc::AllocError;

/// Adds the departures of an operation: of its variables, of its directives and of what it reaches, and at the root of a
/// subscription.
pub(crate) fn tell_operation(
    schema: &StrictSchema<'_>,
    document: &ExecutableDocument,
    operation: &Node<Operation>,
    departures: &mut Vec<Departure>,
) -> Result<(), AllocError>
    ensures { OnOk result (AddsDepartures departures.old departures.new (λ u. DepartsInOperation (schema_tree schema.now) (document_meant document.now) u (operation_meant operation.now))) }
{
    let indexed = schema.indexed();
    let variables = operation.content().variables.as_slice();
    tell_variables(&indexed, variables, departures)?;
    tell_reached(schema, document, operation, departures)?;
    let plain = schema.schema();
    tell_roots(plain, document, operation, departures)
}
