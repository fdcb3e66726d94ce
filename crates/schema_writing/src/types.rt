//! The definitions and extensions of types.
ghost use Rattle.std.specs.Prelude.{[], ◌∷◌, map, OnOk};
ghost use Rattle.std.specs.List.{flat_map};
ghost use Rattle.schema_writing.specs.Contents.{type_contents, defined_from, whole_definition, written_contents};
ghost use Rattle.schema_writing.specs.ContentsView.{HoldsNothing, parts_view};
ghost use Rattle.schema_writing.specs.Writing.{Writes};
ghost use Rattle.schema_writing.specs.FiledView.{type_definition, type_extension};

use crate::definition_by::{Heading, write_definition_by};
use crate::extension_by::write_extension_by;
use crate::parts::{FiledType, Parts};
use schema_components::{ComponentOrigin, ExtensionId};
use schema_types::{ExtendedType, shared_description};
use std::alloc::{AllocError, Global};
use tree_definitions::Definition;

/// Writes each type.
pub(crate) fn write_types(
    alloc: Global,
    types: &[ExtendedType],
    out: &mut Vec<Definition>,
) -> Result<(), AllocError>
    ensures { OnOk result (Writes out.old out.new (flat_map (λ t. written_contents (type_contents t)) types.now)) }
{
    for t in types {
        write_type(alloc, t, out)?;
    }
    Ok(())
}

/// Writes a type: its definition, if it is not built in, and then its extensions.
fn write_type(alloc: Global, t: &ExtendedType, out: &mut Vec<Definition>) -> Result<(), AllocError>
    ensures { OnOk result (Writes out.old out.new (written_contents (type_contents t.now))) }
{
    // The six maps are owned here and borrowed by the call, which has a `?` in each step.
    let mut filed = FiledType::new(alloc);
    write_filed(alloc, t, &mut filed, out)
}

/// Writes the definition of a type, if it is not built in, and then its extensions. Where there are extensions, all that
/// the type has is filed first.
fn write_filed(
    alloc: Global,
    t: &ExtendedType,
    filed: &mut FiledType,
    out: &mut Vec<Definition>,
) -> Result<(), AllocError>
    requires { HoldsNothing filed.old }
    ensures { OnOk result (Writes out.old out.new (written_contents (type_contents t.now))) }
{
    let extensions = t.extensions(alloc)?;
    if extensions.is_empty() {
        // The definition gave all of the type, in order: nothing has to be filed.
        return write_whole(alloc, t, out);
    }
    filed.file(alloc, t)?;
    write_definition(alloc, t, filed, out)?;
    write_extensions(alloc, t, filed, extensions.as_slice(), out)
}

/// Writes the definition of a type, if it is not built in, with all that the type has.
fn write_whole(alloc: Global, t: &ExtendedType, out: &mut Vec<Definition>) -> Result<(), AllocError>
    ensures { OnOk result (Writes out.old out.new (whole_definition (type_contents t.now))) }
{
    if t.is_built_in() {
        return Ok(());
    }
    let mut parts = Parts::new(alloc);
    parts.take_all(t)?;
    write_defined(alloc, t, &mut parts, out)
}

/// Writes the definition of a type with what it gave, if it is not built in.
fn write_definition(
    alloc: Global,
    t: &ExtendedType,
    filed: &FiledType,
    out: &mut Vec<Definition>,
) -> Result<(), AllocError>
    ensures { OnOk result (Writes out.old out.new (type_definition t.now filed.now)) }
{
    if t.is_built_in() {
        return Ok(());
    }
    let mut parts = Parts::new(alloc);
    parts.take_given(filed, ComponentOrigin::Definition)?;
    write_defined(alloc, t, &mut parts, out)
}

/// Writes the definition of a type, with these parts. They are taken.
fn write_defined(
    alloc: Global,
    t: &ExtendedType,
    parts: &mut Parts,
    out: &mut Vec<Definition>,
) -> Result<(), AllocError>
    ensures { OnOk result (Writes out.old out.new (defined_from (type_contents t.now) (parts_view parts.old) ∷ [])) }
{
    let description = shared_description(t.description())?;
    let heading = Heading {
        kind: t.kind(),
        location: t.location(),
        name: t.name().clone()?,
    };
    write_definition_by(alloc, heading, description, parts, out)
}

/// Writes the extensions of a type, in order.
fn write_extensions(
    alloc: Global,
    t: &ExtendedType,
    filed: &FiledType,
    extensions: &[ExtensionId],
    out: &mut Vec<Definition>,
) -> Result<(), AllocError>
    ensures { OnOk result (Writes out.old out.new (map (λ id. type_extension t.now filed.now id) extensions.now)) }
{
    for id in extensions {
        write_extension(alloc, t, filed, *id, out)?;
    }
    Ok(())
}

/// Writes an extension of a type with what it gave, at its place.
fn write_extension(
    alloc: Global,
    t: &ExtendedType,
    filed: &FiledType,
    id: ExtensionId,
    out: &mut Vec<Definition>,
) -> Result<(), AllocError>
    ensures { OnOk result (Writes out.old out.new (type_extension t.now filed.now id ∷ [])) }
{
    let mut parts = Parts::new(alloc);
    parts.take_given(filed, ComponentOrigin::Extension(id))?;
    let heading = Heading {
        kind: t.kind(),
        location: id.location(),
        name: t.name().clone()?,
    };
    write_extension_by(alloc, heading, &mut parts, out)
}
