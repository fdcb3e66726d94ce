//! Nodes and descriptions for those that make types or write them.
ghost use Rattle.std.specs.Prelude.{◌≡◌, IfOk};
ghost use Rattle.std.specs.Option.{option_map};
ghost use Rattle.graphql_names.specs.Node.{content, place};
ghost use Rattle.graphql_names.specs.Placed.{text_tree};

use graphql_names::{Node, NodeStr, SourceSpan};
use std::alloc::{AllocError, Global};

/// A node of the value with that place.
pub fn node_at<T: Drop>(
    alloc: Global,
    location: Option<SourceSpan>,
    value: T,
) -> Result<Node<T>, AllocError>
    ensures content { IfOk result (λ n. content n ≡ value) }
    ensures place { IfOk result (λ n. place n ≡ location) }
{
    match location {
        None => Ok(Node::new(alloc, value)?),
        Some(location) => Ok(Node::new_parsed(alloc, value, location)?),
    }
}

/// The same description, with its place. No text is copied.
pub fn shared_description(description: Option<&NodeStr>) -> Result<Option<NodeStr>, AllocError>
    ensures { IfOk result (λ copy. option_map text_tree copy ≡ option_map (λ d. text_tree d.now) description.entry) }
{
    match description {
        None => Ok(None),
        Some(text) => Ok(Some(text.clone()?)),
    }
}
