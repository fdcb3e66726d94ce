//! What the definitions of types fold to.
ghost use Rattle.std.specs.Prelude.{◌≡◌, ◌++◌, ◌∷◌, [], map, IfOk, OnOk};
ghost use Rattle.schema_fold_index.specs.in_schema_types.SchemaView.{types_view};
ghost use Rattle.schema_fold_index.specs.in_fold.FaultView.{faults_of};
ghost use Rattle.schema_fold_index.specs.in_fold.NumberedDefinition.{types_in, definitions_of};
ghost use Rattle.schema_fold_index.specs.in_fold.ListedView.{listed_view};
ghost use Rattle.schema_fold_index.specs.in_fold.Made.{defined_view, IsDefinition};
ghost use Rattle.schema_fold_index.specs.Index.{IsIndexOf, defined_at};
ghost use Rattle.schema_fold_types.specs.ListTypes.{types_from, faults_from, FoldsTypes, TellsTypes};
ghost use Rattle.schema_fold_types.specs.OwnNames.{TypesUnderOwnNames};
ghost use Rattle.schema_fold_types.specs.TypeFoldSteps.{definitions_listed, defined_filed, FoldsMore, defined_here};

use crate::extensions::extensions_of;
use graphql_names::{Name, SourceSpan};
use indexmap::IndexMap;
use schema_fold_index::{
    BuildError, Defined, ExtendedType, Index, NumberedDefinition, Positions, fold_type, insert_new,
    type_definition,
};
use std::alloc::{AllocError, Global};

/// The texts, and the positions in them at which types are extended, filed under the names of the types.
#[derive(Clone, Copy)]
struct Extended<'a> {
    texts: &'a [NumberedDefinition],
    filed: &'a IndexMap<Name, Positions>,
}

/// Folds the types (sections 3.4 to 3.10): the first definition of each name, with each extension of its name and kind.
/// Tells each component that is not the first of its name.
pub fn fold_types(
    alloc: Global,
    built_in: &[NumberedDefinition],
    texts: &[NumberedDefinition],
    index: &Index,
    faults: &mut Vec<(Option<SourceSpan>, BuildError)>,
) -> Result<IndexMap<Name, ExtendedType>, AllocError>
    requires { IsIndexOf (definitions_of (map listed_view texts.now)) index.now }
    ensures types { IfOk result (λ m. types_view m ≡ types_from (map listed_view built_in.now) (map listed_view texts.now)) }
    ensures faults { OnOk result (faults_of faults.new ≡ faults_of faults.old ++ faults_from (map listed_view built_in.now) (map listed_view texts.now)) }
    ensures folded { IfOk result (λ m. FoldsTypes (map listed_view built_in.now) (map listed_view texts.now) (types_view m)) }
    ensures tells { OnOk result (TellsTypes (map listed_view built_in.now) (map listed_view texts.now) (faults_of faults.old) (faults_of faults.new)) }
    ensures own_names { IfOk result (λ m. TypesUnderOwnNames (types_view m)) }
{
    // The map is owned here and filled by loops that borrow it.
    let mut types = IndexMap::new(alloc);
    let extended = Extended {
        texts,
        filed: &index.extended,
    };
    fold_built_in(alloc, built_in, &extended, &mut types, faults)?;
    let filed = index.defined.values().as_slice();
    fold_filed(alloc, filed, &extended, &mut types, faults)?;
    Ok(types)
}

/// Folds the built-in types, with their extensions.
fn fold_built_in(
    alloc: Global,
    built_in: &[NumberedDefinition],
    extended: &Extended<'_>,
    types: &mut IndexMap<Name, ExtendedType>,
    faults: &mut Vec<(Option<SourceSpan>, BuildError)>,
) -> Result<(), AllocError>
    ensures { OnOk result (FoldsMore extended.now (types_in (definitions_listed built_in.now)) types.old faults.old types.new faults.new) }
{
    for listed in built_in {
        fold_here(alloc, listed, extended, types, faults)?;
    }
    Ok(())
}

/// Folds the first definition of each name that is filed, with its extensions.
// From here to `fold_first` each step has its own function, which is proved separately: the position, the definition
// there, the first of its name. Built-in types come in at `fold_here`.
fn fold_filed(
    alloc: Global,
    defined: &[Positions],
    extended: &Extended<'_>,
    types: &mut IndexMap<Name, ExtendedType>,
    faults: &mut Vec<(Option<SourceSpan>, BuildError)>,
) -> Result<(), AllocError>
    ensures { OnOk result (FoldsMore extended.now (defined_filed extended.now.texts.now defined.now) types.old faults.old types.new faults.new) }
{
    for filed in defined {
        fold_at(alloc, filed.first, extended, types, faults)?;
    }
    Ok(())
}

/// Folds the type that is defined at a position of the texts, if one is.
fn fold_at(
    alloc: Global,
    position: usize,
    extended: &Extended<'_>,
    types: &mut IndexMap<Name, ExtendedType>,
    faults: &mut Vec<(Option<SourceSpan>, BuildError)>,
) -> Result<(), AllocError>
    ensures { OnOk result (FoldsMore extended.now (defined_at (definitions_listed extended.now.texts.now) position) types.old faults.old types.new faults.new) }
{
    match extended.texts.get(position) {
        None => Ok(()),
        Some(listed) => fold_here(alloc, listed, extended, types, faults),
    }
}

/// Folds the type that is defined here, if one is.
fn fold_here(
    alloc: Global,
    listed: &NumberedDefinition,
    extended: &Extended<'_>,
    types: &mut IndexMap<Name, ExtendedType>,
    faults: &mut Vec<(Option<SourceSpan>, BuildError)>,
) -> Result<(), AllocError>
    ensures { OnOk result (FoldsMore extended.now (defined_here listed.now) types.old faults.old types.new faults.new) }
{
    match type_definition(&listed.definition) {
        None => Ok(()),
        Some(defined) => fold_first(alloc, &defined, extended, types, faults),
    }
}

/// Folds a type, if no earlier one has its name.
fn fold_first(
    alloc: Global,
    defined: &Defined<'_>,
    extended: &Extended<'_>,
    types: &mut IndexMap<Name, ExtendedType>,
    faults: &mut Vec<(Option<SourceSpan>, BuildError)>,
) -> Result<(), AllocError>
    requires { IsDefinition (defined_view defined.now) }
    ensures { OnOk result (FoldsMore extended.now (defined_view defined.now ∷ []) types.old faults.old types.new faults.new) }
{
    let name = defined.parts.name;
    if types.contains_key(name) {
        return Ok(());
    }
    let extensions = extensions_of(alloc, extended.texts, extended.filed, name)?;
    let folded = fold_type(alloc, defined, &extensions, faults)?;
    insert_new(types, name, folded)
}
