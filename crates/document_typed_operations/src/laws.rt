//! What equality means: exactly that the trees are the same apart from places, sources and the order of what is named.
//! What is written through a borrow replaces what was lent.
ghost use Rattle.std.specs.Prelude.{◌≡◌, ◌↔◌, IsTrue, is_some, if◌then◌else◌};
ghost use Rattle.std.specs.Option.{option_map, option_copied};
ghost use Rattle.graphql_names.specs.Placed.{node_tree};
ghost use Rattle.schema_types.specs.TypeView.{name_text};
ghost use Rattle.document_typed_selections.specs.TypedTree.{typed_set_tree, unplaced_typed_set};
ghost use Rattle.document_typed_operations.specs.TypedDocument.{typed_operation_tree, typed_fragment_tree, typed_operations_tree, typed_document_tree};
ghost use Rattle.document_typed_operations.specs.OperationsByName.{operation_called, called_as};
ghost use Rattle.document_typed_operations.specs.PlainDocument.{unplaced_typed_operation, unplaced_typed_fragment, plain_document};

use crate::document::{ExecutableDocument, FieldSet};
use crate::operation::{Fragment, Operation};
use crate::operation_map::OperationMap;
use graphql_names::{Name, Node};

/// Whether two operations are the same apart from places: the result of `==`.
#[tactic(auto, using(crate::proofs::DocumentEquality::equality))]
pub fn equal_operations(a: &Operation, b: &Operation) -> bool
    ensures { IsTrue result ↔ (unplaced_typed_operation (typed_operation_tree a.now) ≡ unplaced_typed_operation (typed_operation_tree b.now)) }
{
    *a == *b
}

/// Whether two fragments are the same apart from places: the result of `==`.
#[tactic(auto, using(crate::proofs::DocumentEquality::equality))]
pub fn equal_fragments(a: &Fragment, b: &Fragment) -> bool
    ensures { IsTrue result ↔ (unplaced_typed_fragment (typed_fragment_tree a.now) ≡ unplaced_typed_fragment (typed_fragment_tree b.now)) }
{
    *a == *b
}

/// Whether two documents are the same apart from places, sources and order: the result of `==`.
#[tactic(auto, using(crate::proofs::DocumentEquality::equality))]
pub fn equal_documents(a: &ExecutableDocument, b: &ExecutableDocument) -> bool
    ensures { IsTrue result ↔ (plain_document (typed_document_tree a.now) ≡ plain_document (typed_document_tree b.now)) }
{
    *a == *b
}

/// Whether two field sets are the same apart from places and sources: the result of `==`.
#[tactic(auto, using(crate::proofs::DocumentEquality::equality))]
pub fn equal_field_sets(a: &FieldSet, b: &FieldSet) -> bool
    ensures { IsTrue result ↔ (unplaced_typed_set (typed_set_tree a.now.selection_set) ≡ unplaced_typed_set (typed_set_tree b.now.selection_set)) }
{
    *a == *b
}

/// Writes an operation through what `get_mut` lends: it replaces the one that was lent, and nothing else changes. Returns
/// whether one was lent.
pub fn lent_operations_are_written(
    operations: &mut OperationMap,
    name: Option<&Name>,
    operation: Node<Operation>,
) -> bool
    ensures lent { result ≡ is_some (operation_called (option_map name_text (option_copied name.entry)) (typed_operations_tree operations.old)) }
    ensures written { typed_operations_tree operations.new ≡ (if result then called_as (option_map name_text (option_copied name.entry)) (node_tree typed_operation_tree operation) (typed_operations_tree operations.old) else typed_operations_tree operations.old) }
{
    match operations.get_mut(name) {
        None => false,
        Some(lent) => {
            *lent = operation;
            true
        }
    }
}
