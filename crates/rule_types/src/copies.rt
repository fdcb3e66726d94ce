//! Copies for the data of faults.
ghost use Rattle.std.specs.Prelude.{◌≡◌, IfOk};
ghost use Rattle.tree_literals.specs.TypeTree.{type_tree};
ghost use Rattle.rule_types.specs.InterfaceTrees.{AreArgumentCopies};

use graphql_names::{Name, Node};
use std::alloc::AllocError;
use tree_directives::InputValueDefinition;
use tree_literals::Type;

/// Copies of the names of a type, an interface and a field.
// One `?` for all copies of a fault, instead of one for each of them while the copies before it are owned.
pub(crate) fn copy_names(
    name: &Name,
    interface: &Name,
    field: &Name,
) -> Result<(Name, Name, Name), AllocError>
    ensures { IfOk result (λ copy. (copy.0 ≡ name.now) × ((copy.1 ≡ interface.now) × (copy.2 ≡ field.now))) }
{
    Ok((name.clone()?, interface.clone()?, field.clone()?))
}

/// Copies of two references to types.
pub(crate) fn copy_types(a: &Type, b: &Type) -> Result<(Type, Type), AllocError>
    ensures { IfOk result (λ copy. (type_tree copy.0 ≡ type_tree a.now) × (type_tree copy.1 ≡ type_tree b.now)) }
{
    Ok((a.clone()?, b.clone()?))
}

/// Copies of the name and the type of an interface's argument, and of the type of the argument of a type's
/// field.
pub(crate) fn copy_arguments(
    wanted: &InputValueDefinition,
    given: &InputValueDefinition,
) -> Result<(Name, Node<Type>, Node<Type>), AllocError>
    ensures { IfOk result (λ copy. AreArgumentCopies wanted.now given.now copy.0 copy.1 copy.2) }
{
    Ok((wanted.name.clone()?, wanted.ty.clone()?, given.ty.clone()?))
}
