//! Adoption: empty definitions for what is extended and not defined.
ghost use Rattle.std.specs.Prelude.{map, OnOk};
ghost use Rattle.schema_built_in.specs.in_fold.NumberedDefinition.{definitions_of};
ghost use Rattle.schema_building.specs.Settling.{unnumbered, empty_of, adopted_schema};
ghost use Rattle.schema_building.specs.Waiting.{orphan_kinds};
ghost use Rattle.schema_building.specs.ListView.{listed_in, Lists};

use crate::defined::{has_schema_extension, schema_is_defined};
use crate::empty::{push_empty_type, push_unplaced};
use crate::waiting::OrphanExtensionTypes;
use schema_built_in::NumberedDefinition;
use schema_fold_index::Index;
use std::alloc::{AllocError, Global};
use tree_directives::DirectiveList;
use tree_input_types::SchemaDefinition;

/// Puts an empty definition at the list's end for each type that is extended and not defined, of the kind of its first
/// extension, in the order of first extensions.
pub(crate) fn adopt_types(
    alloc: Global,
    index: &Index,
    list: &mut Vec<NumberedDefinition>,
) -> Result<(), AllocError>
    ensures { OnOk result (Lists list.old list.new (map (λ k. unnumbered (empty_of k)) (orphan_kinds index.now))) }
{
    let mut waiting = OrphanExtensionTypes::of(index);
    // Not `for`: the iterator lends only names, and the kind is needed here too.
    while let Some((name, kind)) = waiting.next_orphan() {
        push_empty_type(alloc, kind, name.clone()?, list)?;
    }
    Ok(())
}

/// Puts an empty schema definition at the list's end, if the schema is extended and not defined.
pub(crate) fn adopt_schema(
    alloc: Global,
    list: &mut Vec<NumberedDefinition>,
) -> Result<(), AllocError>
    ensures { OnOk result (Lists list.old list.new (map unnumbered (adopted_schema (definitions_of (listed_in list.old))))) }
{
    if !has_schema_extension(list) {
        return Ok(());
    }
    if schema_is_defined(list) {
        return Ok(());
    }
    push_unplaced(
        alloc,
        SchemaDefinition {
            description: None,
            directives: DirectiveList::new(alloc),
            root_operations: Vec::new(alloc),
        },
        list,
    )
}
