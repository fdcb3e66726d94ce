//! Inserting under a new name.
ghost use Rattle.std.specs.Prelude.{◌≡◌, ◌++◌, ◌∷◌, [], None, OnOk};
ghost use Rattle.indexmap.specs.IndexMap.{get};
ghost use Rattle.schema_types.specs.in_components.Names.{same_text};
ghost use Rattle.schema_types.specs.TypeView.{name_text};

use graphql_names::Name;
use indexmap::IndexMap;
use std::alloc::AllocError;

/// Inserts a value under a name that has no value yet.
pub fn insert_new<T: Drop>(
    map: &mut IndexMap<Name, T>,
    name: &Name,
    value: T,
) -> Result<(), AllocError>
    requires { get (same_text name_text) map.old name.now ≡ None }
    ensures { OnOk result (map.new.entries ≡ map.old.entries ++ (name.now, value) ∷ []) }
{
    // Both `?` are here once, and not in each caller with what it owns.
    let name = name.clone()?;
    map.insert(name, value)?;
    Ok(())
}
