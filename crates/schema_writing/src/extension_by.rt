//! An extension of a type of each kind.
ghost use Rattle.std.specs.Prelude.{◌≡◌, [], ◌∷◌, OnOk};
ghost use Rattle.tree_definitions.specs.DefinitionTree.{scalar_extension_parts, object_extension_parts, interface_extension_parts, union_extension_parts, enum_extension_parts, input_object_extension_parts};
ghost use Rattle.schema_types.specs.TypeParts.{fields_parts};
ghost use Rattle.schema_types.specs.declared.type_kind.TypeKind.TheVariants as kind;
ghost use Rattle.schema_writing.specs.Writing.{Writes, headed_extension, parts_of, scalar_of, union_of, enum_of, input_object_of};

use crate::definition_by::{Heading, write_placed};
use crate::parts::Parts;
use graphql_names::Name;
use schema_types::TypeKind;
use std::alloc::{AllocError, Global};
use std::mem;
use tree_composite_types::{InterfaceTypeExtension, ObjectTypeExtension, UnionTypeExtension};
use tree_definitions::Definition;
use tree_directives::DirectiveList;
use tree_input_types::{EnumTypeExtension, InputObjectTypeExtension, ScalarTypeExtension};

/// Writes an extension of a type of that kind. The parts are taken.
pub(crate) fn write_extension_by(
    alloc: Global,
    heading: Heading,
    parts: &mut Parts,
    out: &mut Vec<Definition>,
) -> Result<(), AllocError>
    ensures { OnOk result (Writes out.old out.new (headed_extension heading parts.old ∷ [])) }
{
    let Heading {
        kind,
        location,
        name,
    } = heading;
    match kind {
        TypeKind::Scalar => write_placed(
            alloc,
            location,
            scalar_extension(alloc, name, parts),
            out,
        ),
        TypeKind::Object => write_placed(
            alloc,
            location,
            object_extension(alloc, name, parts),
            out,
        ),
        TypeKind::Interface => write_placed(
            alloc,
            location,
            interface_extension(alloc, name, parts),
            out,
        ),
        TypeKind::Union => write_placed(alloc, location, union_extension(alloc, name, parts), out),
        TypeKind::Enum => write_placed(alloc, location, enum_extension(alloc, name, parts), out),
        TypeKind::InputObject => write_placed(
            alloc,
            location,
            input_object_extension(alloc, name, parts),
            out,
        ),
    }
}

/// The content of an extension of a scalar type (section 3.5.7).
pub(crate) fn scalar_extension(alloc: Global, name: Name, parts: &mut Parts) -> ScalarTypeExtension
    ensures { scalar_extension_parts result ≡ scalar_of name parts.old }
{
    ScalarTypeExtension {
        name,
        directives: mem::replace(&mut parts.directives, DirectiveList(Vec::new(alloc))),
    }
}

/// The content of an extension of an object type (section 3.6.3).
pub(crate) fn object_extension(alloc: Global, name: Name, parts: &mut Parts) -> ObjectTypeExtension
    ensures { object_extension_parts result ≡ fields_parts (parts_of kind.Object name parts.old) }
{
    ObjectTypeExtension {
        name,
        implements_interfaces: mem::replace(&mut parts.interfaces, Vec::new(alloc)),
        directives: mem::replace(&mut parts.directives, DirectiveList(Vec::new(alloc))),
        fields: mem::replace(&mut parts.fields, Vec::new(alloc)),
    }
}

/// The content of an extension of an interface type (section 3.7.1).
pub(crate) fn interface_extension(
    alloc: Global,
    name: Name,
    parts: &mut Parts,
) -> InterfaceTypeExtension
    ensures { interface_extension_parts result ≡ fields_parts (parts_of kind.Interface name parts.old) }
{
    InterfaceTypeExtension {
        name,
        implements_interfaces: mem::replace(&mut parts.interfaces, Vec::new(alloc)),
        directives: mem::replace(&mut parts.directives, DirectiveList(Vec::new(alloc))),
        fields: mem::replace(&mut parts.fields, Vec::new(alloc)),
    }
}

/// The content of an extension of a union type (section 3.8.1).
pub(crate) fn union_extension(alloc: Global, name: Name, parts: &mut Parts) -> UnionTypeExtension
    ensures { union_extension_parts result ≡ union_of name parts.old }
{
    UnionTypeExtension {
        name,
        directives: mem::replace(&mut parts.directives, DirectiveList(Vec::new(alloc))),
        members: mem::replace(&mut parts.members, Vec::new(alloc)),
    }
}

/// The content of an extension of an enum type (section 3.9.1).
pub(crate) fn enum_extension(alloc: Global, name: Name, parts: &mut Parts) -> EnumTypeExtension
    ensures { enum_extension_parts result ≡ enum_of name parts.old }
{
    EnumTypeExtension {
        name,
        directives: mem::replace(&mut parts.directives, DirectiveList(Vec::new(alloc))),
        values: mem::replace(&mut parts.values, Vec::new(alloc)),
    }
}

/// The content of an extension of an input object type (section 3.10.1).
pub(crate) fn input_object_extension(
    alloc: Global,
    name: Name,
    parts: &mut Parts,
) -> InputObjectTypeExtension
    ensures { input_object_extension_parts result ≡ input_object_of name parts.old }
{
    InputObjectTypeExtension {
        name,
        directives: mem::replace(&mut parts.directives, DirectiveList(Vec::new(alloc))),
        fields: mem::replace(&mut parts.inputs, Vec::new(alloc)),
    }
}
