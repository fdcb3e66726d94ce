//! Departures at the root of a subscription.
ghost use Rattle.std.specs.Prelude.{OnOk};
ghost use Rattle.graphql_schema.specs.SchemaOf.{schema_tree};
ghost use Rattle.document_typed_selections.specs.TypedTree.{typed_set_tree};
ghost use Rattle.document_typed_operations.specs.DocumentView.{document_meant, operation_meant};
ghost use Rattle.document_typed_operations.specs.WalkView.{fragments_tree};
ghost use Rattle.rule_reach.specs.Reach.{meant_fragments};
ghost use Rattle.strict_documents.specs.DepartsIn.{DepartsAtRoot};
ghost use Rattle.strict_documents.specs.Telling.{AddsDepartures, TellsRoots};

use crate::applying::tell_root;
use crate::departure::Departure;
use document_typed_operations::{ExecutableDocument, FragmentMap, Operation, ReachedSelections};
use document_typed_selections::SelectionSet;
use graphql_names::{Name, Node};
use graphql_schema::Schema;
use std::alloc::AllocError;

/// Adds SubscriptionOfNothing of each selection that the set reaches through fragments alone, where its type is that object.
fn tell_root_selections(
    schema: &Schema,
    object: &Name,
    set: &SelectionSet,
    fragments: &FragmentMap,
    departures: &mut Vec<Departure>,
) -> Result<(), AllocError>
    ensures { OnOk result (TellsRoots (schema_tree schema.now) (meant_fragments fragments.now) object.now.text (fragments_tree fragments.now) (typed_set_tree set.now) departures.old departures.new) }
{
    let alloc = *departures.allocator();
    for selection in ReachedSelections::new(alloc, false, set, fragments) {
        tell_root(schema, fragments, object, selection?.1, departures)?;
    }
    Ok(())
}

/// Adds the departures at the root of the operation, if it is a subscription.
pub(crate) fn tell_roots(
    schema: &Schema,
    document: &ExecutableDocument,
    operation: &Node<Operation>,
    departures: &mut Vec<Departure>,
) -> Result<(), AllocError>
    ensures { OnOk result (AddsDepartures departures.old departures.new (λ u. DepartsAtRoot (schema_tree schema.now) (document_meant document.now) u (operation_meant operation.now))) }
{
    let own = operation.content();
    if !own.is_subscription() {
        return Ok(());
    }
    let set = &own.selection_set;
    tell_root_selections(schema, &set.ty, set, &document.fragments, departures)
}
