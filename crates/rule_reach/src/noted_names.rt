//! Names in a set of names.
ghost use Rattle.std.specs.Prelude.{◌≡◌, OnOk};
ghost use Rattle.std.specs.List.{list_any};
ghost use Rattle.std.specs.Str.{bytes_eq};
ghost use Rattle.indexmap.specs.IndexSet.{insert_key};
ghost use Rattle.rule_reach.specs.NotedNames.{noted_names};

use graphql_names::Name;
use indexmap::IndexSet;
use std::alloc::AllocError;

/// Whether the name is among these.
pub fn has_name(names: &IndexSet<Name>, name: &Name) -> bool
    ensures { result ≡ list_any (bytes_eq name.now.text) (noted_names names.now) }
{
    names.contains(name)
}

/// Adds a name, unless it is there.
pub fn note_name(name: &Name, names: &mut IndexSet<Name>) -> Result<(), AllocError>
    ensures { OnOk result (noted_names names.new ≡ insert_key bytes_eq (noted_names names.old) name.now.text) }
{
    let name = name.clone()?;
    names.insert(name)?;
    Ok(())
}
