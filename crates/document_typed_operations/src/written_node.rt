//! Steps that build nodes, and may run out of memory.
ghost use Rattle.std.specs.Prelude.{◌≡◌, ◌++◌, [], ◌∷◌, IfOk, IsOkAnd, OnOk};
ghost use Rattle.graphql_names.specs.Node.{content, place};

use graphql_names::Node;
use std::alloc::{AllocError, Global};

/// A node of `value` with the place of another node.
pub(crate) fn node_at<T, U: Drop>(
    alloc: Global,
    other: &Node<T>,
    value: U,
) -> Result<Node<U>, AllocError>
    ensures content { IfOk result (λ n. content n ≡ value) }
    ensures place { IfOk result (λ n. place n ≡ place other.now) }
{
    Ok(other.same_location(alloc, value)?)
}

/// Adds what was made after the others.
pub(crate) fn push_made<T: Drop>(
    list: &mut Vec<T>,
    made: Result<T, AllocError>,
) -> Result<(), AllocError>
    ensures { OnOk result (IsOkAnd made (λ x. list.new.items ≡ list.old.items ++ x ∷ [])) }
{
    list.push(made?)?;
    Ok(())
}
