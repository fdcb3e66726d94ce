//! All that is written of a schema.
ghost use Rattle.std.specs.Prelude.{◌≡◌, map, IfOk};
ghost use Rattle.tree_definitions.specs.DefinitionTree.{definition_tree};
ghost use Rattle.schema_types.specs.Out.{written};
ghost use Rattle.schema_types.specs.SchemaView.{schema_view};

use crate::directives::write_directives;
use crate::schema::write_schema;
use crate::types::write_types;
use graphql_names::{Name, Node};
use indexmap::IndexMap;
use schema_types::{ExtendedType, SchemaDefinition};
use std::alloc::{AllocError, Global};
use tree_definitions::Definition;
use tree_directives::DirectiveDefinition;

/// A schema as a list of definitions: the schema definition unless it is implicit, the directives and the types, each
/// with its extensions, without what is built in. What the definitions hold is shared with the schema.
pub fn written_definitions(
    alloc: Global,
    definition: &Node<SchemaDefinition>,
    directives: &IndexMap<Name, Node<DirectiveDefinition>>,
    types: &IndexMap<Name, ExtendedType>,
) -> Result<Vec<Definition>, AllocError>
    ensures { IfOk result (λ v. map definition_tree v.items ≡ written (schema_view definition.now directives.now types.now)) }
{
    let mut out = Vec::new(alloc);
    write_schema(alloc, definition, types, &mut out)?;
    write_directives(directives.values().as_slice(), &mut out)?;
    write_types(alloc, types.values().as_slice(), &mut out)?;
    Ok(out)
}
