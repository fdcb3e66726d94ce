//! Components filed under the definition or extension that gave them.
ghost use Rattle.std.specs.Prelude.{◌≡◌, [], map, OnOk};
ghost use Rattle.std.specs.List.{AllZip};
ghost use Rattle.graphql_names.specs.Placed.{name_tree, node_tree};
ghost use Rattle.schema_components.specs.Given.{origin_tree, component_name_tree};
ghost use Rattle.schema_types.specs.Out.{given_by};
ghost use Rattle.schema_writing.specs.Filed.{filed_under, FilesOn, given_contents, itself, without_givers};

use graphql_names::{Name, Node};
use indexmap::IndexMap;
use schema_components::{Component, ComponentName, ComponentOrigin};
use std::alloc::{AllocError, Global};

/// Files an item after what its giver gave before.
fn file<X: Drop>(
    alloc: Global,
    filed: &mut IndexMap<ComponentOrigin, Vec<X>>,
    giver: ComponentOrigin,
    item: X,
) -> Result<(), AllocError>
    ensures { OnOk result (FilesOn filed.old.entries giver item filed.new.entries) }
{
    if let Some(items) = filed.get_mut(&giver) {
        items.push(item)?;
        return Ok(());
    }
    let mut items = Vec::new(alloc);
    items.push(item)?;
    filed.insert(giver, items)?;
    Ok(())
}

/// Files nodes under their givers, shared: what they hold is not copied.
pub(crate) fn file_components<T: Drop>(
    alloc: Global,
    components: &[Component<T>],
    filed: &mut IndexMap<ComponentOrigin, Vec<Node<T>>>,
) -> Result<(), AllocError>
    requires { filed.old.entries ≡ [] }
    ensures { OnOk result ((giver : _) → map (node_tree itself) (filed_under giver filed.new.entries) ≡ given_by giver (given_contents components.now)) }
{
    for component in components {
        file(alloc, filed, component.origin, component.node.clone()?)?;
    }
    Ok(())
}

/// Files names under their givers, shared: no text is copied.
pub(crate) fn file_names(
    alloc: Global,
    components: &[ComponentName],
    filed: &mut IndexMap<ComponentOrigin, Vec<Name>>,
) -> Result<(), AllocError>
    requires { filed.old.entries ≡ [] }
    ensures { OnOk result ((giver : _) → map name_tree (filed_under giver filed.new.entries) ≡ given_by giver (map component_name_tree components.now)) }
{
    for component in components {
        file(alloc, filed, component.origin, component.name.clone()?)?;
    }
    Ok(())
}

/// Puts what this giver gave into the empty list `out`, shared.
pub(crate) fn take<X: Clone>(
    filed: &IndexMap<ComponentOrigin, Vec<X>>,
    giver: ComponentOrigin,
    out: &mut Vec<X>,
) -> Result<(), AllocError>
    requires { out.old.items ≡ [] }
    ensures { OnOk result (AllZip X.is_clone (filed_under (origin_tree giver) filed.now.entries) out.new.items) }
{
    match filed.get(&giver) {
        None => Ok(()),
        Some(items) => out.extend_from_slice(items),
    }
}

/// Takes all nodes, shared, of the definition and of the extensions.
pub(crate) fn copy_nodes<T: Drop>(
    components: &[Component<T>],
    out: &mut Vec<Node<T>>,
) -> Result<(), AllocError>
    requires { out.old.items ≡ [] }
    ensures { OnOk result (map (node_tree itself) out.new.items ≡ without_givers (given_contents components.now)) }
{
    out.reserve(components.len())?;
    for component in components {
        out.push(component.node.clone()?)?;
    }
    Ok(())
}

/// Takes all names, shared, of the definition and of the extensions.
pub(crate) fn copy_names(
    components: &[ComponentName],
    out: &mut Vec<Name>,
) -> Result<(), AllocError>
    requires { out.old.items ≡ [] }
    ensures { OnOk result (map name_tree out.new.items ≡ without_givers (map component_name_tree components.now)) }
{
    out.reserve(components.len())?;
    for component in components {
        out.push(component.name.clone()?)?;
    }
    Ok(())
}
