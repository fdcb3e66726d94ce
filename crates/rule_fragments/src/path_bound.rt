//! The bound on the length of a path of selections.
ghost use Rattle.std.specs.Prelude.{◌≡◌, IsTrue};
ghost use Rattle.std.specs.List.{list_any};
ghost use Rattle.spec_document.specs.MeantTree.{meant_of_set};
ghost use Rattle.document_typed_selections.specs.TypedTree.{typed_set_tree};
ghost use Rattle.rule_selection_queries.specs.in_reach.in_typed_operations.DocumentView.{document_meant};
ghost use Rattle.rule_document_definitions.specs.Limits.{path_bound, PassesPathBound};
ghost use Rattle.rule_fragments.specs.Nested.{NestsTooDeep, deeper_in, deeper_of, some_nests};
ghost use Rattle.rule_selection_queries.specs.Lent.{lent};
ghost use Rattle.rule_fragments.specs.Rooted.{operation_set, fragment_set, alone_so};

use document_typed_operations::{ExecutableDocument, Fragment, Operation};
use document_typed_selections::{Selection, SelectionSet};
use graphql_names::Node;

/// The greatest length of a path of selections, each inside the one before or inside the fragment that it spreads.
const PATH_BOUND: usize = 500;

/// Whether a path of more than `bound` selections begins in the set, each in the set of the one before: spreads are not entered.
/// It goes no deeper than the bound.
#[cycle(nesting)]
fn nests_deeper(set: &SelectionSet, bound: usize) -> bool
    ensures { result ≡ deeper_in bound (meant_of_set (typed_set_tree set.now)) }
{
    for selection in &set.selections {
        if is_deeper(selection, bound) {
            return true;
        }
    }
    false
}

/// Whether such a path begins with the selection.
#[cycle(nesting)]
fn is_deeper(selection: &Selection, bound: usize) -> bool
    ensures { result ≡ deeper_of bound (lent selection.now) }
{
    if bound == 0 {
        return true;
    }
    match selection {
        Selection::Field(field) => nests_deeper(&field.content().selection_set, bound - 1),
        Selection::FragmentSpread(_) => false,
        Selection::InlineFragment(inline) => {
            nests_deeper(&inline.content().selection_set, bound - 1)
        }
    }
}

/// Whether such a path of more than 500 begins in one of the operations.
fn operations_nest(operations: &[Node<Operation>]) -> bool
    ensures { result ≡ list_any (λ n. deeper_in path_bound (operation_set n)) operations.now }
{
    for operation in operations {
        if nests_deeper(&operation.content().selection_set, PATH_BOUND) {
            return true;
        }
    }
    false
}

/// Whether such a path of more than 500 begins in one of the fragments.
fn fragments_nest(fragments: &[Node<Fragment>]) -> bool
    ensures { result ≡ list_any (λ n. deeper_in path_bound (fragment_set n)) fragments.now }
{
    for fragment in fragments {
        if nests_deeper(&fragment.content().selection_set, PATH_BOUND) {
            return true;
        }
    }
    false
}

/// Whether such a path of more than 500 begins in the operation without a name, if there is one.
fn alone_nests(operation: &Option<Node<Operation>>) -> bool
    ensures { result ≡ alone_so (deeper_in path_bound) operation.now }
{
    match operation {
        None => false,
        Some(operation) => nests_deeper(&operation.content().selection_set, PATH_BOUND),
    }
}

/// Whether such a path of more than 500 begins in some operation or fragment.
#[tactic(auto, using(crate::proofs::DocumentSets::where_nested))]
fn some_nests(document: &ExecutableDocument) -> bool
    ensures { result ≡ some_nests (document_meant document.now) }
{
    let alone = alone_nests(&document.operations.anonymous);
    let named = operations_nest(document.operations.named.values().as_slice());
    let fragments = fragments_nest(document.fragments.values().as_slice());
    alone || named || fragments
}

/// Whether in the text of some operation or fragment there is a path of more than 500 selections, each in the set of the one
/// before. Then the document passes the bound on such paths; one that passes it only through spreads is not found.
pub fn passes_path_bound(document: &ExecutableDocument) -> bool
    ensures right { IsTrue result → PassesPathBound (document_meant document.now) }
    ensures found { NestsTooDeep (document_meant document.now) → IsTrue result }
{
    some_nests(document)
}
