//! Nodes by their indices. There is a node for each index that is asked for; a missing one fails as if memory were refused.
// The prover need not know that there is one, so lists of nodes need no clause that says so.
ghost use Rattle.std.specs.Prelude.{◌≡◌, Some, slice_get, IfOk};
ghost use Rattle.std.specs.List.{AllZip};
ghost use Rattle.rule_selection_queries.specs.in_document_definitions.ReadFields.{list_read};
ghost use Rattle.rule_field_sets.specs.Nodes.{AreSets, set_nodes, fragment_nodes};
ghost use Rattle.rule_field_sets.specs.Read.{set_at, set_content_at};
ghost use Rattle.rule_field_groups.specs.NodeWalk.{IsStartOf};

use rule_field_sets::{FieldSets, SetNode};
use std::alloc::{AllocError, Global};

/// The node with that index.
pub fn node_of<'a, 'doc>(
    sets: &'a FieldSets<'doc>,
    node: usize,
) -> Result<&'a SetNode<'doc>, AllocError>
    ensures { IfOk result (λ v. slice_get (set_nodes sets.now) node ≡ Some v.now) }
{
    match sets.get(node) {
        Some(found) => Ok(found),
        None => Err(AllocError),
    }
}

/// The number of the set of a node.
pub(crate) fn number_of(sets: &FieldSets<'_>, node: usize) -> Result<usize, AllocError>
    requires { AreSets sets.now }
    ensures { IfOk result (λ n. set_content_at sets.now n ≡ list_read (set_at sets.now node)) }
{
    Ok(node_of(sets, node)?.number)
}

/// The node of the set of a fragment, by the fragment's index in the document.
pub(crate) fn start_of(sets: &FieldSets<'_>, fragment: usize) -> Result<usize, AllocError>
    ensures { IfOk result (λ n. slice_get (fragment_nodes sets.now) fragment ≡ Some n) }
{
    match sets.fragment(fragment) {
        Some(node) => Ok(node),
        None => Err(AllocError),
    }
}

/// The nodes of the sets of these fragments.
pub fn starts_of(
    alloc: Global,
    sets: &FieldSets<'_>,
    fragments: &[usize],
) -> Result<Vec<usize>, AllocError>
    ensures { IfOk result (λ nodes. AllZip (λ p n. slice_get (fragment_nodes sets.now) p ≡ Some n) fragments.now nodes.items) }
{
    let mut starts = Vec::with_capacity(alloc, fragments.len())?;
    for fragment in fragments {
        let start = start_of(sets, *fragment)?;
        starts.push(start)?;
    }
    Ok(starts)
}

/// The node of the set of a fragment itself.
pub(crate) fn fragment_of<'a, 'doc>(
    sets: &'a FieldSets<'doc>,
    fragment: usize,
) -> Result<&'a SetNode<'doc>, AllocError>
    ensures { IfOk result (λ v. IsStartOf sets.now fragment v.now) }
{
    node_of(sets, start_of(sets, fragment)?)
}
