//! The types that are extended and not defined.
ghost use Rattle.std.specs.Prelude.{◌≡◌, []};
ghost use Rattle.std.specs.Iterator.{YieldsFirstBy, item_count};
ghost use Rattle.schema_building.specs.Waiting.{orphan_kinds, left_kinds, lent_kind, left_names, lent_name};

use crate::built_in_types::is_built_in_type;
use graphql_names::Name;
use indexmap::IndexMap;
use indexmap::map::Slice;
use schema_built_in::TypeKind;
use schema_fold_index::{Index, Positions};

/// Lends the names of the types that are extended and not defined, in the order of their first extensions.
#[derive(Drop)]
pub struct OrphanExtensionTypes<'a> {
    extended: Slice<'a, Name, Positions>,
    defined: &'a IndexMap<Name, Positions>,
}

impl<'a> OrphanExtensionTypes<'a> {
    /// All such types.
    pub(crate) fn of(index: &'a Index) -> OrphanExtensionTypes<'a>
        ensures { left_kinds result ≡ orphan_kinds index.now }
    {
        OrphanExtensionTypes {
            extended: index.extended.as_slice(),
            defined: &index.defined,
        }
    }

    /// No types.
    pub(crate) fn none(index: &'a Index) -> OrphanExtensionTypes<'a>
        ensures { left_kinds result ≡ [] }
    {
        OrphanExtensionTypes {
            extended: Slice::new(),
            defined: &index.defined,
        }
    }

    /// The next type, with the kind of its first extension.
    pub(crate) fn next_orphan(&mut self) -> Option<(&'a Name, TypeKind)>
        ensures { YieldsFirstBy lent_kind left_kinds self.old result self.new }
    {
        while let Some(((name, filed), others)) = self.extended.split_first() {
            self.extended = others;
            // A built-in type is defined, though by none of the texts.
            if !self.defined.contains_key(name) && !is_built_in_type(name.as_str()) {
                return Some((name, filed.kind));
            }
        }
        None
    }
}

impl<'a> Iterator for OrphanExtensionTypes<'a> {
    type Item = &'a Name;

    ghost next_gives = { YieldsFirstBy lent_name left_names };

    ghost remaining = { item_count left_names };

    fn next(&mut self) -> Option<&'a Name> {
        let (name, _) = self.next_orphan()?;
        Some(name)
    }
}
