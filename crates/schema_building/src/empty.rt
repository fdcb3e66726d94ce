//! Definitions with nothing in them.
ghost use Rattle.std.specs.Prelude.{[], ◌∷◌, OnOk};
ghost use Rattle.graphql_names.specs.Placed.{name_tree};
ghost use Rattle.schema_building.specs.Settling.{unnumbered, empty_of};
ghost use Rattle.schema_building.specs.ListView.{Lists, ListsUnplaced};

use graphql_names::{Name, Node};
use schema_built_in::{Definition, NumberedDefinition, TypeKind};
use std::alloc::{AllocError, Global};
use tree_composite_types::{InterfaceTypeDefinition, ObjectTypeDefinition, UnionTypeDefinition};
use tree_directives::DirectiveList;
use tree_input_types::{EnumTypeDefinition, InputObjectTypeDefinition, ScalarTypeDefinition};

/// Adds the definition of a type of that kind and name, with nothing in it and no place, after the others of a list.
pub(crate) fn push_empty_type(
    alloc: Global,
    kind: TypeKind,
    name: Name,
    list: &mut Vec<NumberedDefinition>,
) -> Result<(), AllocError>
    ensures { OnOk result (Lists list.old list.new (unnumbered (empty_of (name_tree name, kind)) ∷ [])) }
{
    match kind {
        TypeKind::Scalar => push_unplaced(
            alloc,
            ScalarTypeDefinition {
                description: None,
                name,
                directives: DirectiveList::new(alloc),
            },
            list,
        ),
        TypeKind::Object => push_unplaced(
            alloc,
            ObjectTypeDefinition {
                description: None,
                name,
                implements_interfaces: Vec::new(alloc),
                directives: DirectiveList::new(alloc),
                fields: Vec::new(alloc),
            },
            list,
        ),
        TypeKind::Interface => push_unplaced(
            alloc,
            InterfaceTypeDefinition {
                description: None,
                name,
                implements_interfaces: Vec::new(alloc),
                directives: DirectiveList::new(alloc),
                fields: Vec::new(alloc),
            },
            list,
        ),
        TypeKind::Union => push_unplaced(
            alloc,
            UnionTypeDefinition {
                description: None,
                name,
                directives: DirectiveList::new(alloc),
                members: Vec::new(alloc),
            },
            list,
        ),
        TypeKind::Enum => push_unplaced(
            alloc,
            EnumTypeDefinition {
                description: None,
                name,
                directives: DirectiveList::new(alloc),
                values: Vec::new(alloc),
            },
            list,
        ),
        TypeKind::InputObject => push_unplaced(
            alloc,
            InputObjectTypeDefinition {
                description: None,
                name,
                directives: DirectiveList::new(alloc),
                fields: Vec::new(alloc),
            },
            list,
        ),
    }
}

/// Adds a definition with this content and without a place, which is not an extension, after the others of a list.
// For any content, so that the node and the push are proved once for all kinds.
pub(crate) fn push_unplaced<T: Drop>(
    alloc: Global,
    value: T,
    list: &mut Vec<NumberedDefinition>,
) -> Result<(), AllocError>
where
    Definition: From<Node<T>>,
    ensures { OnOk result (ListsUnplaced ⟦<Definition as From<Node<T>>>⟧.from_gives value list.old list.new) }
{
    let node = Node::new(alloc, value)?;
    list.push(NumberedDefinition {
        definition: Definition::from(node),
        extension: None,
    })?;
    Ok(())
}
