//! The roots that each giver gave to the schema.
ghost use Rattle.std.specs.Prelude.{◌≡◌, [], map, None, OnOk};
ghost use Rattle.std.specs.Option.{option_map};
ghost use Rattle.graphql_names.specs.Placed.{node_tree};
ghost use Rattle.tree_definitions.specs.DefinitionTree.{root_tree};
ghost use Rattle.schema_components.specs.Given.{origin_tree, component_name_tree};
ghost use Rattle.schema_types.specs.TypeView.{schema_roots};
ghost use Rattle.schema_types.specs.Out.{same_giver, root_given_by, schema_parts_given_by};
ghost use Rattle.schema_writing.specs.Writing.{AddsRoots};

use graphql_names::Node;
use schema_components::{ComponentName, ComponentOrigin};
use schema_types::SchemaDefinition;
use std::alloc::{AllocError, Global};
use tree_literals::NamedType;
use tree_operations::OperationType;

/// Adds the roots that this giver gave, in the order query, mutation, subscription.
pub(crate) fn add_roots(
    alloc: Global,
    definition: &Node<SchemaDefinition>,
    giver: ComponentOrigin,
    roots: &mut Vec<Node<(OperationType, NamedType)>>,
) -> Result<(), AllocError>
    requires { roots.old.items ≡ [] }
    ensures { OnOk result (map (node_tree root_tree) roots.new.items ≡ (schema_parts_given_by None (origin_tree giver) (schema_roots definition.now)).roots) }
{
    let schema = definition.content();
    add_root(alloc, giver, OperationType::Query, &schema.query, roots)?;
    add_root(
        alloc,
        giver,
        OperationType::Mutation,
        &schema.mutation,
        roots,
    )?;
    add_root(
        alloc,
        giver,
        OperationType::Subscription,
        &schema.subscription,
        roots,
    )
}

/// Adds the root of an operation, if there is one and this giver gave it. The pair has no place: none was kept.
fn add_root(
    alloc: Global,
    giver: ComponentOrigin,
    operation: OperationType,
    root: &Option<ComponentName>,
    roots: &mut Vec<Node<(OperationType, NamedType)>>,
) -> Result<(), AllocError>
    ensures { OnOk result (AddsRoots roots.old roots.new (root_given_by None (origin_tree giver) operation (option_map component_name_tree root.now))) }
{
    let Some(root) = root else {
        return Ok(());
    };
    if !is_same_giver(giver, root.origin) {
        return Ok(());
    }
    let name = root.name.clone()?;
    let node = Node::new(alloc, (operation, name))?;
    roots.push(node)?;
    Ok(())
}

/// Whether both are the definition, or both are extensions of the same number.
fn is_same_giver(a: ComponentOrigin, b: ComponentOrigin) -> bool
    ensures { result ≡ same_giver (origin_tree a) (origin_tree b) }
{
    a == b
}
