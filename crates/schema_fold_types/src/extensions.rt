//! The extensions of a type, by the positions that are filed under its name.
ghost use Rattle.std.specs.Prelude.{◌≡◌, ◌++◌, map, IfOk, OnOk};
ghost use Rattle.std.specs.List.{flat_map};
ghost use Rattle.schema_fold_index.specs.in_fold.ListedView.{listed_view};
ghost use Rattle.schema_fold_index.specs.Index.{positions_of, listed_at, extensions_under};

use graphql_names::Name;
use indexmap::IndexMap;
use schema_fold_index::{NumberedDefinition, Positions};
use std::alloc::{AllocError, Global};

/// The extensions that are filed under a name, shared, with their numbers, in the order of the list.
pub(crate) fn extensions_of(
    alloc: Global,
    texts: &[NumberedDefinition],
    extended: &IndexMap<Name, Positions>,
    name: &Name,
) -> Result<Vec<NumberedDefinition>, AllocError>
    ensures { IfOk result (λ v. map listed_view v.items ≡ extensions_under (map listed_view texts.now) extended.now.entries name.now.text) }
{
    match extended.get(name) {
        None => Ok(Vec::new(alloc)),
        Some(filed) => gather(alloc, texts, filed),
    }
}

/// The entries at the positions that are filed, shared.
fn gather(
    alloc: Global,
    texts: &[NumberedDefinition],
    filed: &Positions,
) -> Result<Vec<NumberedDefinition>, AllocError>
    ensures { IfOk result (λ v. map listed_view v.items ≡ flat_map (listed_at (map listed_view texts.now)) (positions_of filed.now)) }
{
    let mut gathered = Vec::new(alloc);
    push_at(texts, filed.first, &mut gathered)?;
    for position in &filed.others {
        push_at(texts, *position, &mut gathered)?;
    }
    Ok(gathered)
}

/// Adds the entry at a position of the list after the others, shared, if there is one.
fn push_at(
    texts: &[NumberedDefinition],
    position: usize,
    gathered: &mut Vec<NumberedDefinition>,
) -> Result<(), AllocError>
    ensures { OnOk result (map listed_view gathered.new.items ≡ map listed_view gathered.old.items ++ listed_at (map listed_view texts.now) position) }
{
    // Each position that is filed is in the list, but this function need not know that.
    let Some(listed) = texts.get(position) else {
        return Ok(());
    };
    let definition = listed.definition.clone()?;
    gathered.push(NumberedDefinition {
        definition,
        extension: listed.extension,
    })?;
    Ok(())
}
