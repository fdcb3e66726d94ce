//! The definition of a type of each kind.
ghost use Rattle.std.specs.Prelude.{[], ◌∷◌, OnOk};
ghost use Rattle.schema_writing.specs.Writing.{Writes, WritesPlaced, headed_definition};

use crate::extension_by::{
    enum_extension, input_object_extension, interface_extension, object_extension,
    scalar_extension, union_extension,
};
use crate::parts::Parts;
use graphql_names::{Name, Node, NodeStr, SourceSpan};
use schema_types::{TypeKind, node_at};
use std::alloc::{AllocError, Global};
use tree_definitions::Definition;

/// The name and the kind of a type, and the place of its definition or of an extension of it.
#[derive(Drop)]
pub(crate) struct Heading {
    pub(crate) kind: TypeKind,
    pub(crate) location: Option<SourceSpan>,
    pub(crate) name: Name,
}

/// Writes a definition or an extension with this content, at that place.
// For any content, so that the node and the push are proved once for all kinds.
pub(crate) fn write_placed<T: Drop>(
    alloc: Global,
    location: Option<SourceSpan>,
    value: T,
    out: &mut Vec<Definition>,
) -> Result<(), AllocError>
where
    Definition: From<Node<T>>,
    ensures { OnOk result (WritesPlaced ⟦<Definition as From<Node<T>>>⟧.from_gives location value out.old out.new) }
{
    let node = node_at(alloc, location, value)?;
    out.push(Definition::from(node))?;
    Ok(())
}

/// Writes the definition of a type of that kind: an extension's parts, with a description. The parts are taken.
pub(crate) fn write_definition_by(
    alloc: Global,
    heading: Heading,
    description: Option<NodeStr>,
    parts: &mut Parts,
    out: &mut Vec<Definition>,
) -> Result<(), AllocError>
    ensures { OnOk result (Writes out.old out.new (headed_definition heading description parts.old ∷ [])) }
{
    let Heading {
        kind,
        location,
        name,
    } = heading;
    // It is made from the extension, so that each kind is put together in one function for both.
    match kind {
        TypeKind::Scalar => {
            let said = scalar_extension(alloc, name, parts);
            write_placed(alloc, location, said.into_definition(description), out)
        }
        TypeKind::Object => {
            let said = object_extension(alloc, name, parts);
            write_placed(alloc, location, said.into_definition(description), out)
        }
        TypeKind::Interface => {
            let said = interface_extension(alloc, name, parts);
            write_placed(alloc, location, said.into_definition(description), out)
        }
        TypeKind::Union => {
            let said = union_extension(alloc, name, parts);
            write_placed(alloc, location, said.into_definition(description), out)
        }
        TypeKind::Enum => {
            let said = enum_extension(alloc, name, parts);
            write_placed(alloc, location, said.into_definition(description), out)
        }
        TypeKind::InputObject => {
            let said = input_object_extension(alloc, name, parts);
            write_placed(alloc, location, said.into_definition(description), out)
        }
    }
}
