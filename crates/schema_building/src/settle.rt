//! The list of definitions that counts: what is built in, and what the settings make of the texts.
ghost use Rattle.std.specs.Prelude.{◌≡◌, ◌≤◌, [], false, length, map, take, OnOk, IfOk};
ghost use Rattle.std.specs.List.{filter};
ghost use Rattle.schema_built_in.specs.in_definitions.DefinitionTree.{definition_tree};
ghost use Rattle.schema_built_in.specs.Table.{built_in_definitions};
ghost use Rattle.schema_built_in.specs.in_fold.NumberedDefinition.{definitions_of};
ghost use Rattle.schema_built_in.specs.in_fold.ListedView.{listed_view};
ghost use Rattle.schema_fold_index.specs.Index.{IsIndexOf};
ghost use Rattle.schema_building.specs.Settling.{unnumbered, is_kept};
ghost use Rattle.schema_building.specs.ListView.{listed_in, settled_list, Lists};

use crate::adopt::{adopt_schema, adopt_types};
use crate::built_in_types::is_redefinition;
use crate::texts::{Texts, push_shared};
use schema_built_in::{Definition, NumberedDefinition, built_in_definitions};
use schema_fold_index::Index;
use std::alloc::{AllocError, Global};

/// Which settings of a builder are on.
#[derive(Clone, Copy)]
pub(crate) struct Settings {
    pub(crate) adopts: bool,
    pub(crate) ignores: bool,
}

/// Puts the definitions that count into an empty list, what is built in before the texts, and returns how many of the
/// first are built in.
pub(crate) fn settle(
    alloc: Global,
    settings: Settings,
    texts: &Texts,
    list: &mut Vec<NumberedDefinition>,
) -> Result<usize, AllocError>
    requires { list.old.items ≡ [] }
    ensures settles { OnOk result (listed_in list.new ≡ settled_list settings texts.now) }
    ensures built_in { IfOk result (λ n. n ≡ length built_in_definitions) }
    ensures within { IfOk result (λ n. n ≤ length list.new.items) }
{
    list_all(&built_in_definitions(alloc)?, list)?;
    let built_in = list.len();
    keep_texts(settings.ignores, &texts.list, list)?;
    if settings.adopts {
        adopt_types(alloc, &texts.index, list)?;
        // This comes after the types: an adopted object named `Query` is a root, and then the schema is defined.
        adopt_schema(alloc, list)?;
    }
    Ok(built_in)
}

/// The index of the texts of a settled list: the index of the texts that were added, with what is adopted filed after
/// them. If redefinitions are ignored, the list is filed again.
pub(crate) fn settled_index(
    alloc: Global,
    ignores: bool,
    texts: Texts,
    settled: &[NumberedDefinition],
) -> Result<Index, AllocError>
    requires { ignores ≡ false → IsIndexOf (take (length texts.list.items) (definitions_of (map listed_view settled.now))) texts.index }
    ensures { IfOk result (λ index. IsIndexOf (definitions_of (map listed_view settled.now)) index) }
{
    // Each ignored redefinition has moved the positions of all that came after it.
    if ignores {
        return Index::of(alloc, settled);
    }
    let Texts {
        extensions: _,
        list,
        mut index,
    } = texts;
    index.file_rest(alloc, settled, list.len())?;
    Ok(index)
}

/// Adds definitions that are not extensions after the others of the list.
fn list_all(
    definitions: &[Definition],
    list: &mut Vec<NumberedDefinition>,
) -> Result<(), AllocError>
    ensures { OnOk result (Lists list.old list.new (map unnumbered (map definition_tree definitions.now))) }
{
    for definition in definitions {
        push_shared(list, definition, None)?;
    }
    Ok(())
}

/// Adds the definitions of the texts after the others of the list, shared. If `ignores` is true, redefinitions are
/// left out.
fn keep_texts(
    ignores: bool,
    texts: &[NumberedDefinition],
    list: &mut Vec<NumberedDefinition>,
) -> Result<(), AllocError>
    ensures { OnOk result (Lists list.old list.new (filter (is_kept ignores) (map listed_view texts.now))) }
{
    for listed in texts {
        if ignores && is_redefinition(&listed.definition) {
            continue;
        }
        push_shared(list, &listed.definition, listed.extension)?;
    }
    Ok(())
}
