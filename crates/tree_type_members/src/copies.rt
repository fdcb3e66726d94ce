//! Copies of parts of definitions.
ghost use Rattle.std.specs.Prelude.{◌≡◌, IfOk};
ghost use Rattle.std.specs.Option.{option_map};
ghost use Rattle.tree_literals.specs.in_names.Placed.{name_tree, text_tree};
ghost use Rattle.tree_directives.specs.DirectiveTree.{directives_tree};

use std::alloc::AllocError;
use tree_directives::DirectiveList;
use tree_literals::{Name, NodeStr};

/// The same description, with its place. No text is copied. For the crates of definitions above.
pub fn clone_description(description: &Option<NodeStr>) -> Result<Option<NodeStr>, AllocError>
    ensures { IfOk result (λ copy. copy ≡ description.now) }
{
    match description {
        None => Ok(None),
        Some(text) => Ok(Some(text.clone()?)),
    }
}

/// The same name and directives, with their places. For the crates of definitions above.
pub fn clone_head(
    name: &Name,
    directives: &DirectiveList,
) -> Result<(Name, DirectiveList), AllocError>
    ensures { IfOk result (λ copy. (name_tree copy.0 ≡ name_tree name.now) × (directives_tree copy.1 ≡ directives_tree directives.now)) }
{
    Ok((name.clone()?, directives.clone()?))
}

/// The same description, name and directives, with their places. For the crates of definitions above.
pub fn clone_described(
    description: &Option<NodeStr>,
    name: &Name,
    directives: &DirectiveList,
) -> Result<(Option<NodeStr>, Name, DirectiveList), AllocError>
    ensures { IfOk result (λ copy. (option_map text_tree copy.0 ≡ option_map text_tree description.now) × ((name_tree copy.1 ≡ name_tree name.now) × (directives_tree copy.2 ≡ directives_tree directives.now))) }
{
    let (name, directives) = clone_head(name, directives)?;
    Ok((clone_description(description)?, name, directives))
}
