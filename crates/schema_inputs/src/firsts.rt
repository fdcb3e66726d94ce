//! The first value that is noted under each name.
ghost use Rattle.std.specs.Prelude.{◌≡◌, IfOk, OnOk, None, Some, bytes_eq, if◌then◌else◌};
ghost use Rattle.std.specs.Option.{option_or};
ghost use Rattle.indexmap.specs.IndexMap.{get};
ghost use Rattle.schema_components.specs.Names.{same_text};
ghost use Rattle.schema_types.specs.TypeView.{name_text};

use graphql_names::Name;
use indexmap::IndexMap;
use std::alloc::AllocError;

/// Notes a value under a name, unless there is one: that one stays, and is returned.
// It is not inlined, so that its locals take no stack at each level of a value.
#[inline(never)]
pub fn note_first<V: Copy>(
    firsts: &mut IndexMap<Name, V>,
    name: &Name,
    value: V,
) -> Result<Option<V>, AllocError>
    ensures there { IfOk result (λ first. first ≡ get (same_text name_text) firsts.old name.now) }
    ensures noted { OnOk result ((n : _) → get (same_text name_text) firsts.new n ≡ option_or (get (same_text name_text) firsts.old n) (if bytes_eq name.now.text n.text then Some value else None)) }
{
    if let Some(first) = firsts.get(name) {
        return Ok(Some(*first));
    }
    firsts.insert(name.clone()?, value)?;
    Ok(None)
}
