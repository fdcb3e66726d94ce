//! Copies of names that may be missing, and the names of meta-fields.
ghost use Rattle.std.specs.Prelude.{◌≡◌, IfOk};
ghost use Rattle.std.specs.List.{list_any};
ghost use Rattle.std.specs.Option.{option_map};
ghost use Rattle.std.specs.Str.{bytes_eq};
ghost use Rattle.rule_document_definitions.specs.RootFields.{meta_field_names};

use graphql_names::Name;
use std::alloc::AllocError;

/// A copy of the name, if there is one.
pub(crate) fn copied_name(name: Option<&Name>) -> Result<Option<Name>, AllocError>
    ensures { IfOk result (λ r. option_map (λ n. n.text) r ≡ option_map (λ n. n.now.text) name.entry) }
{
    match name {
        None => Ok(None),
        Some(name) => Ok(Some(name.clone()?)),
    }
}

/// Whether a meta-field has that name (sections 4.1 and 4.2).
pub(crate) fn is_meta_field_name(name: &Name) -> bool
    ensures { result ≡ list_any (bytes_eq name.now.text) meta_field_names }
{
    let name = name.as_str();
    name == "__typename" || name == "__schema" || name == "__type"
}
