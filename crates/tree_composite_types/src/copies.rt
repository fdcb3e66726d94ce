//! Copies of the parts that objects and interfaces share.
ghost use Rattle.std.specs.Prelude.{◌≡◌, map, IfOk};
ghost use Rattle.tree_literals.specs.in_names.Placed.{name_tree};
ghost use Rattle.tree_composite_types.specs.FieldTrees.{field_trees};

use std::alloc::AllocError;
use tree_type_members::{FieldDefinition, NamedType, Node};

/// The same interfaces and fields.
pub(crate) fn clone_members(
    interfaces: &Vec<NamedType>,
    fields: &Vec<Node<FieldDefinition>>,
) -> Result<(Vec<NamedType>, Vec<Node<FieldDefinition>>), AllocError>
    ensures { IfOk result (λ copy. (map name_tree copy.0.items ≡ map name_tree interfaces.now.items) × (field_trees copy.1.items ≡ field_trees fields.now.items)) }
{
    Ok((interfaces.clone()?, fields.clone()?))
}
