//! The roots of a schema without a schema definition.
ghost use Rattle.std.specs.Prelude.{◌≡◌, None, OnOk};
ghost use Rattle.schema_components.specs.in_operations.OperationQueries.{default_root_name};
ghost use Rattle.schema_fold.specs.SchemaFold.{implicit_root, implicit_roots};
ghost use Rattle.schema_fold_roots.specs.ListFoldSteps.{definitions_listed, AddsRoots};

use crate::defined::is_object;
use graphql_names::{Name, Node};
use schema_components::{Component, ComponentOrigin};
use schema_fold::NumberedDefinition;
use std::alloc::{AllocError, Global};
use tree_literals::NamedType;
use tree_operations::OperationType;

/// Adds the implicit roots: without a schema definition the objects with the default names are the roots (section 3.3.1).
pub(crate) fn add_implicit_roots(
    alloc: Global,
    list: &[NumberedDefinition],
    roots: &mut Vec<Component<(OperationType, NamedType)>>,
) -> Result<(), AllocError>
    ensures { OnOk result (AddsRoots roots.old roots.new (implicit_roots (definitions_listed list.now))) }
{
    add_implicit_root(alloc, list, OperationType::Query, roots)?;
    add_implicit_root(alloc, list, OperationType::Mutation, roots)?;
    add_implicit_root(alloc, list, OperationType::Subscription, roots)
}

/// Adds the object with the operation's default name, if there is one.
fn add_implicit_root(
    alloc: Global,
    list: &[NumberedDefinition],
    operation: OperationType,
    roots: &mut Vec<Component<(OperationType, NamedType)>>,
) -> Result<(), AllocError>
    ensures { OnOk result (AddsRoots roots.old roots.new (implicit_root (definitions_listed list.now) operation)) }
{
    if !is_object(list, operation.default_type_name()) {
        return Ok(());
    }
    // The root is added as if a schema definition had given it; as there is none, it has no place.
    let root = Node::new(alloc, (operation, default_name(operation)))?;
    roots.push(Component::new(ComponentOrigin::Definition, root))?;
    Ok(())
}

/// The default name of the root of an operation.
fn default_name(operation: OperationType) -> Name
    ensures text { result.text ≡ default_root_name operation }
    ensures location { result.location ≡ None }
{
    Name::new_static_unchecked(operation.default_type_name())
}
