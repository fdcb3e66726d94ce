//! The schema definition and its extensions.
ghost use Rattle.std.specs.Prelude.{◌≡◌, [], ◌∷◌, map, None, IfOk, OnOk};
ghost use Rattle.tree_definitions.specs.DefinitionTree.{schema_extension_parts};
ghost use Rattle.schema_components.specs.Given.{extension_tree, origin_tree};
ghost use Rattle.schema_types.specs.TypeView.{schema_roots};
ghost use Rattle.schema_types.specs.Out.{written_schema};
ghost use Rattle.schema_writing.specs.SchemaParts.{schema_and_types, schema_from, whole_schema};
ghost use Rattle.schema_writing.specs.Writing.{Writes};
ghost use Rattle.schema_writing.specs.FiledView.{filed_directives, schema_given, schema_extension};

use crate::definition_by::write_placed;
use crate::filing::{file_components, take};
use crate::implicit::is_left_out;
use crate::roots::add_roots;
use graphql_names::{Name, Node};
use indexmap::IndexMap;
use schema_components::{ComponentOrigin, ExtensionId};
use schema_types::{ExtendedType, SchemaDefinition, shared_description};
use std::alloc::{AllocError, Global};
use tree_definitions::Definition;
use tree_directives::{Directive, DirectiveList};
use tree_input_types::SchemaExtension;

/// Writes the schema definition and its extensions, unless they are left out.
pub(crate) fn write_schema(
    alloc: Global,
    definition: &Node<SchemaDefinition>,
    types: &IndexMap<Name, ExtendedType>,
    out: &mut Vec<Definition>,
) -> Result<(), AllocError>
    ensures { OnOk result (Writes out.old out.new (written_schema (schema_and_types definition.now types.now))) }
{
    let extensions = definition.content().extensions(alloc)?;
    if is_left_out(definition, extensions.as_slice(), types) {
        return Ok(());
    }
    // The map is owned here and borrowed by the call, which has a `?` in each step.
    let mut directives = IndexMap::new(alloc);
    write_whole_schema(
        alloc,
        definition,
        extensions.as_slice(),
        &mut directives,
        out,
    )
}

/// Files the applied directives, and writes the schema definition and these extensions of it.
fn write_whole_schema(
    alloc: Global,
    definition: &Node<SchemaDefinition>,
    extensions: &[ExtensionId],
    directives: &mut IndexMap<ComponentOrigin, Vec<Node<Directive>>>,
    out: &mut Vec<Definition>,
) -> Result<(), AllocError>
    requires { directives.old.entries ≡ [] }
    ensures { OnOk result (Writes out.old out.new (whole_schema (schema_roots definition.now) (map extension_tree extensions.now))) }
{
    file_components(alloc, &definition.content().directives.0, directives)?;
    write_definition(alloc, definition, directives, out)?;
    write_schema_extensions(alloc, definition, directives, extensions, out)
}

/// Writes the schema definition with what it gave.
fn write_definition(
    alloc: Global,
    definition: &Node<SchemaDefinition>,
    directives: &IndexMap<ComponentOrigin, Vec<Node<Directive>>>,
    out: &mut Vec<Definition>,
) -> Result<(), AllocError>
    ensures { OnOk result (Writes out.old out.new (schema_from (schema_roots definition.now) (filed_directives None directives.now) ∷ [])) }
{
    let description = shared_description(definition.content().description.as_ref())?;
    let said = schema_parts(alloc, definition, directives, ComponentOrigin::Definition)?;
    write_placed(
        alloc,
        definition.location(),
        said.into_definition(description),
        out,
    )
}

/// Writes these extensions of the schema, in order.
fn write_schema_extensions(
    alloc: Global,
    definition: &Node<SchemaDefinition>,
    directives: &IndexMap<ComponentOrigin, Vec<Node<Directive>>>,
    extensions: &[ExtensionId],
    out: &mut Vec<Definition>,
) -> Result<(), AllocError>
    ensures { OnOk result (Writes out.old out.new (map (λ id. schema_extension definition.now directives.now id) extensions.now)) }
{
    for id in extensions {
        write_extension(alloc, definition, directives, *id, out)?;
    }
    Ok(())
}

/// Writes an extension of the schema with what it gave, at its place.
fn write_extension(
    alloc: Global,
    definition: &Node<SchemaDefinition>,
    directives: &IndexMap<ComponentOrigin, Vec<Node<Directive>>>,
    id: ExtensionId,
    out: &mut Vec<Definition>,
) -> Result<(), AllocError>
    ensures { OnOk result (Writes out.old out.new (schema_extension definition.now directives.now id ∷ [])) }
{
    let said = schema_parts(
        alloc,
        definition,
        directives,
        ComponentOrigin::Extension(id),
    )?;
    write_placed(alloc, id.location(), said, out)
}

/// What this giver gave to the schema, in the form of an extension (section 3.3.2).
fn schema_parts(
    alloc: Global,
    definition: &Node<SchemaDefinition>,
    directives: &IndexMap<ComponentOrigin, Vec<Node<Directive>>>,
    giver: ComponentOrigin,
) -> Result<SchemaExtension, AllocError>
    ensures { IfOk result (λ s. schema_extension_parts s ≡ schema_given (origin_tree giver) definition.now directives.now) }
{
    let mut said = SchemaExtension {
        directives: DirectiveList(Vec::new(alloc)),
        root_operations: Vec::new(alloc),
    };
    take(directives, giver, &mut said.directives.0)?;
    add_roots(alloc, definition, giver, &mut said.root_operations)?;
    Ok(said)
}
