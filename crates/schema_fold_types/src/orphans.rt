//! The rules that are judged by what the whole list defines.
ghost use Rattle.std.specs.Prelude.{◌≡◌, ◌++◌, [], ◌∷◌, is_some, OnOk};
ghost use Rattle.schema_fold_index.specs.in_definitions.DefinitionTree.{definition_tree};
ghost use Rattle.schema_fold_index.specs.in_fold.BuildErrors.{OrphanSchemaExtension, OrphanTypeExtension, TypeExtensionKindMismatch};
ghost use Rattle.schema_fold_index.specs.in_fold.FaultView.{faults_of};
ghost use Rattle.schema_fold_index.specs.in_fold.SchemaFold.{schema_extension_here};
ghost use Rattle.schema_fold_types.specs.DefinedKinds.{extension_faults};
ghost use Rattle.schema_fold_types.specs.DefinedKindsView.{seen_view};
ghost use Rattle.schema_fold_types.specs.TextDefinitionsView.{own_view};
ghost use Rattle.schema_fold_types.specs.TypeFoldSteps.{AddsFaults, all_extension_faults, faults_of_extension};

use crate::defined_kinds::{DefinedKinds, TextDefinitions, kind_of, schema_is_defined};
use graphql_names::{Name, SourceSpan};
use schema_fold_index::{BuildError, Definition, NumberedDefinition, Parts, extension_parts, tell};
use std::alloc::AllocError;

/// Tells each extension of the texts whose schema or type is not defined, or is of another kind.
pub(crate) fn tell_extensions(
    built_in: &DefinedKinds,
    own: &TextDefinitions<'_>,
    texts: &[NumberedDefinition],
    faults: &mut Vec<(Option<SourceSpan>, BuildError)>,
) -> Result<(), AllocError>
    ensures { OnOk result (AddsFaults faults.old faults.new (all_extension_faults (seen_view built_in.now) (own_view own.now) texts.now)) }
{
    for listed in texts {
        tell_extension(built_in, own, &listed.definition, faults)?;
    }
    Ok(())
}

/// Tells what is wrong with an extension, given what the whole list defines.
fn tell_extension(
    built_in: &DefinedKinds,
    own: &TextDefinitions<'_>,
    d: &Definition,
    faults: &mut Vec<(Option<SourceSpan>, BuildError)>,
) -> Result<(), AllocError>
    ensures { OnOk result (faults_of faults.new ≡ faults_of faults.old ++ extension_faults (seen_view built_in.now) (own_view own.now) (definition_tree d.now)) }
{
    if is_schema_extension(d) && !schema_is_defined(built_in, own) {
        return orphan_schema_extension(d.location(), faults);
    }
    match extension_parts(d) {
        None => Ok(()),
        Some(parts) => tell_type_extension(built_in, own, &parts, d.location(), faults),
    }
}

/// Whether it is a schema extension.
fn is_schema_extension(d: &Definition) -> bool
    ensures { result ≡ is_some (schema_extension_here (definition_tree d.now)) }
{
    matches!(d, Definition::SchemaExtension(_))
}

/// Tells what is wrong with the extension of a type, given what the whole list defines.
fn tell_type_extension(
    built_in: &DefinedKinds,
    own: &TextDefinitions<'_>,
    parts: &Parts<'_>,
    location: Option<SourceSpan>,
    faults: &mut Vec<(Option<SourceSpan>, BuildError)>,
) -> Result<(), AllocError>
    ensures { OnOk result (AddsFaults faults.old faults.new (faults_of_extension (seen_view built_in.now) (own_view own.now) location parts.now)) }
{
    match kind_of(built_in, own, parts.name) {
        // What a builder adopts is defined by now: it is put into the list before that is folded.
        None => orphan_type_extension(parts.name, location, faults),
        Some(defined) => {
            if defined.is(parts.kind) {
                return Ok(());
            }
            type_extension_kind_mismatch(parts.name, location, faults)
        }
    }
}

/// OrphanSchemaExtension: a schema extension is valid only if the schema is defined (section 3.3.2). This extension is
/// told, whose schema is not.
fn orphan_schema_extension(
    location: Option<SourceSpan>,
    faults: &mut Vec<(Option<SourceSpan>, BuildError)>,
) -> Result<(), AllocError>
    ensures { OnOk result (faults_of faults.new ≡ faults_of faults.old ++ record { place = location; breach = OrphanSchemaExtension } ∷ []) }
{
    tell(faults, location, BuildError::OrphanSchemaExtension)
}

/// OrphanTypeExtension: a type extension is valid only if its type is defined (section 3.4.3). This extension is told,
/// whose type is not.
fn orphan_type_extension(
    name: &Name,
    location: Option<SourceSpan>,
    faults: &mut Vec<(Option<SourceSpan>, BuildError)>,
) -> Result<(), AllocError>
    ensures { OnOk result (faults_of faults.new ≡ faults_of faults.old ++ record { place = location; breach = OrphanTypeExtension name.now.text } ∷ []) }
{
    let name = name.clone()?;
    tell(faults, location, BuildError::OrphanTypeExtension { name })
}

/// TypeExtensionKindMismatch: a type extension is valid only if it is of the kind of its type (sections 3.5 to 3.10). This
/// one is told, which is of another.
fn type_extension_kind_mismatch(
    name: &Name,
    location: Option<SourceSpan>,
    faults: &mut Vec<(Option<SourceSpan>, BuildError)>,
) -> Result<(), AllocError>
    ensures { OnOk result (faults_of faults.new ≡ faults_of faults.old ++ record { place = location; breach = TypeExtensionKindMismatch name.now.text } ∷ []) }
{
    let name = name.clone()?;
    tell(
        faults,
        location,
        BuildError::TypeExtensionKindMismatch { name },
    )
}
