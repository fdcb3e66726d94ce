//! The positions of the definitions and extensions of types in a list, by the names of the types.
ghost use Rattle.std.specs.Prelude.{◌≡◌, ◌++◌, ◌∷◌, [], None, map, IfOk, OnOk};
ghost use Rattle.indexmap.specs.IndexMap.{get};
ghost use Rattle.schema_fold.specs.in_components.Names.{same_text};
ghost use Rattle.schema_fold.specs.in_definitions.DefinitionTree.{definition_tree};
ghost use Rattle.schema_fold.specs.in_schema_types.TypeView.{name_text};
ghost use Rattle.schema_fold.specs.NumberedDefinition.{definitions_of};
ghost use Rattle.schema_fold.specs.ListedView.{listed_view};
ghost use Rattle.schema_fold.specs.PartsView.{parts_view};
ghost use Rattle.schema_fold_index.specs.Index.{IsIndexOf, Files, FilesUnder, FilesRest};

use graphql_names::Name;
use indexmap::IndexMap;
use schema_fold::{
    Definition, NumberedDefinition, Parts, TypeKind, extension_parts, insert_new, type_definition,
};
use std::alloc::{AllocError, Global};

/// What is filed under the name of a type: the kind and the position of the first entry, and the positions of the
/// others, in the order of the list.
// Positions and not references: a schema builder owns the list and its index together.
pub struct Positions {
    pub kind: TypeKind,
    pub first: usize,
    pub others: Vec<usize>,
}

/// Drops the positions, here and not at each place where a `Positions` is dropped.
impl Drop for Positions {
    fn drop(self) {
        let Positions {
            kind: _,
            first: _,
            others: _,
        } = self;
    }
}

impl Positions {
    /// Adds a position after the others.
    fn add(&mut self, position: usize) -> Result<(), AllocError>
        ensures kind { self.new.kind ≡ self.old.kind }
        ensures first { self.new.first ≡ self.old.first }
        ensures others { OnOk result (self.new.others.items ≡ self.old.others.items ++ position ∷ []) }
    {
        self.others.push(position)?;
        Ok(())
    }
}

/// The types of a list: the definitions, and the extensions, under the names of their types, in the order of the
/// first of each name.
pub struct Index {
    pub defined: IndexMap<Name, Positions>,
    pub extended: IndexMap<Name, Positions>,
}

/// Drops what is filed, here and not at each place where an index is dropped.
impl Drop for Index {
    fn drop(self) {
        let Index {
            defined: _,
            extended: _,
        } = self;
    }
}

impl Index {
    /// The index of the empty list. It takes no memory.
    pub fn new(alloc: Global) -> Index
        ensures { IsIndexOf [] result }
    {
        Index {
            defined: IndexMap::new(alloc),
            extended: IndexMap::new(alloc),
        }
    }

    /// The index of a list.
    pub fn of(alloc: Global, list: &[NumberedDefinition]) -> Result<Index, AllocError>
        ensures { IfOk result (λ index. IsIndexOf (definitions_of (map listed_view list.now)) index) }
    {
        let mut index = Index::new(alloc);
        index.file_rest(alloc, list, 0)?;
        Ok(index)
    }

    /// Files the entries of the list from that position on, after those before it.
    pub fn file_rest(
        &mut self,
        alloc: Global,
        list: &[NumberedDefinition],
        from: usize,
    ) -> Result<(), AllocError>
        ensures { OnOk result (FilesRest (definitions_of (map listed_view list.now)) from self.old self.new) }
    {
        for position in from..list.len() {
            self.file(alloc, position, &list[position].definition)?;
        }
        Ok(())
    }

    /// Files the definition or the extension of a type, which has that position, after the others. Other definitions
    /// are not filed.
    pub fn file(
        &mut self,
        alloc: Global,
        position: usize,
        definition: &Definition,
    ) -> Result<(), AllocError>
        ensures { OnOk result (Files position (definition_tree definition.now) self.old self.new) }
    {
        if let Some(defined) = type_definition(definition) {
            return file_under(alloc, &mut self.defined, position, &defined.parts);
        }
        if let Some(parts) = extension_parts(definition) {
            return file_under(alloc, &mut self.extended, position, &parts);
        }
        Ok(())
    }
}

/// Files a position under the name of a type, after those already there.
fn file_under(
    alloc: Global,
    filed: &mut IndexMap<Name, Positions>,
    position: usize,
    parts: &Parts<'_>,
) -> Result<(), AllocError>
    ensures { OnOk result (FilesUnder position (parts_view parts.now) filed.old.entries filed.new.entries) }
{
    if let Some(same_name) = filed.get_mut(parts.name) {
        return same_name.add(position);
    }
    file_first(alloc, filed, position, parts)
}

/// Files the first position under the name of a type.
fn file_first(
    alloc: Global,
    filed: &mut IndexMap<Name, Positions>,
    position: usize,
    parts: &Parts<'_>,
) -> Result<(), AllocError>
    requires { get (same_text name_text) filed.old parts.now.name.now ≡ None }
    ensures { OnOk result (FilesUnder position (parts_view parts.now) filed.old.entries filed.new.entries) }
{
    let first = Positions {
        kind: parts.kind,
        first: position,
        others: Vec::new(alloc),
    };
    insert_new(filed, parts.name, first)
}
