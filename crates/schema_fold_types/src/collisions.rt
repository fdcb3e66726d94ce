//! The rules that are judged by what comes before a definition.
ghost use Rattle.std.specs.Prelude.{◌≡◌, ◌||◌, ◌++◌, [], ◌∷◌, map, is_some, IfOk, OnOk};
ghost use Rattle.schema_fold_index.specs.in_definitions.DefinitionTree.{definition_tree};
ghost use Rattle.schema_fold_index.specs.in_fold.BuildErrors.{ExecutableDefinition, SchemaDefinitionCollision, TypeDefinitionCollision, BuiltInScalarTypeRedefinition};
ghost use Rattle.schema_fold_index.specs.in_fold.FaultView.{faults_of};
ghost use Rattle.schema_fold_index.specs.in_fold.NumberedDefinition.{definitions_of};
ghost use Rattle.schema_fold_index.specs.in_fold.ListedView.{listed_view};
ghost use Rattle.schema_fold_index.specs.in_fold.SchemaFold.{schema_definition_in};
ghost use Rattle.schema_fold_index.specs.Index.{AreFiled, standing_in_list, parts_here};
ghost use Rattle.schema_fold_types.specs.DefinedKinds.{kind_in, type_faults, collision_faults};
ghost use Rattle.schema_fold_types.specs.DefinedKindsView.{seen_view};
ghost use Rattle.schema_fold_types.specs.TextDefinitionsView.{is_defined_before};
ghost use Rattle.schema_fold_types.specs.TypeFoldSteps.{AddsFaults, definitions_listed, faults_after};

use crate::defined_kinds::{DefinedKinds, is_schema_definition};
use graphql_names::{Name, SourceSpan};
use indexmap::IndexMap;
use schema_fold_index::{
    BuildError, Definition, NumberedDefinition, Positions, tell, type_definition,
};
use std::alloc::AllocError;

/// What comes before a position of the texts: the types that are filed, and whether there is a schema definition.
#[derive(Clone, Copy)]
struct Before<'a> {
    defined: &'a IndexMap<Name, Positions>,
    schema: bool,
    position: usize,
}

impl<'a> Before<'a> {
    /// Whether a type of that name is defined before the position.
    fn defines(&self, name: &Name) -> bool
        ensures { result ≡ is_defined_before self.now name.now.text }
    {
        match self.defined.get(name) {
            None => false,
            // The index has the first position of each name: there is an earlier definition exactly if the first is earlier.
            Some(filed) => filed.first < self.position,
        }
    }
}

/// Tells each definition of the texts that collides with an earlier one, or is not of the type system. Returns whether
/// the texts define the schema.
pub(crate) fn tell_collisions(
    built_in: &DefinedKinds,
    texts: &[NumberedDefinition],
    defined: &IndexMap<Name, Positions>,
    faults: &mut Vec<(Option<SourceSpan>, BuildError)>,
) -> Result<bool, AllocError>
    requires { AreFiled (standing_in_list parts_here (definitions_of (map listed_view texts.now))) defined.now.entries }
    ensures schema { IfOk result (λ schema. schema ≡ is_some (schema_definition_in (definitions_of (map listed_view texts.now)))) }
    ensures faults { OnOk result (AddsFaults faults.old faults.new (collision_faults (seen_view built_in.now) (definitions_listed texts.now))) }
{
    let mut schema = false;
    for position in 0..texts.len() {
        let definition = &texts[position].definition;
        let before = Before {
            defined,
            schema,
            position,
        };
        tell_definition(built_in, &before, definition, faults)?;
        schema |= is_schema_definition(definition);
    }
    Ok(schema)
}

/// Tells what is wrong with a definition, given those before it.
fn tell_definition(
    built_in: &DefinedKinds,
    before: &Before<'_>,
    d: &Definition,
    faults: &mut Vec<(Option<SourceSpan>, BuildError)>,
) -> Result<(), AllocError>
    ensures { OnOk result (AddsFaults faults.old faults.new (faults_after (seen_view built_in.now) before.now (definition_tree d.now))) }
{
    if d.is_executable_definition() {
        return executable_definition(d.location(), faults);
    }
    if before.schema && is_schema_definition(d) {
        return schema_definition_collision(d.location(), faults);
    }
    match type_definition(d) {
        None => Ok(()),
        Some(t) => tell_type(built_in, before, t.parts.name, d.location(), faults),
    }
}

/// Tells what is wrong with a type of that name, given those before it.
fn tell_type(
    built_in: &DefinedKinds,
    before: &Before<'_>,
    name: &Name,
    location: Option<SourceSpan>,
    faults: &mut Vec<(Option<SourceSpan>, BuildError)>,
) -> Result<(), AllocError>
    ensures { OnOk result (AddsFaults faults.old faults.new (type_faults (seen_view built_in.now) (is_defined_before before.now) location name.now.text)) }
{
    // The name of a built-in scalar is told only by this rule, whatever kind of type is defined under it.
    if built_in.has_scalar(name) {
        return built_in_scalar_type_redefinition(name, location, faults);
    }
    if is_defined(built_in, before, name) {
        return type_definition_collision(name, location, faults);
    }
    Ok(())
}

/// Whether a type of that name is built in, or is defined before the position.
fn is_defined(built_in: &DefinedKinds, before: &Before<'_>, name: &Name) -> bool
    ensures { result ≡ (is_some (kind_in (seen_view built_in.now) name.now.text) || is_defined_before before.now name.now.text) }
{
    built_in.kind(name).is_some() || before.defines(name)
}

/// ExecutableDefinition: a schema document is valid only if it holds no operation and no fragment (section 3). This one is
/// told.
fn executable_definition(
    location: Option<SourceSpan>,
    faults: &mut Vec<(Option<SourceSpan>, BuildError)>,
) -> Result<(), AllocError>
    ensures { OnOk result (faults_of faults.new ≡ faults_of faults.old ++ record { place = location; breach = ExecutableDefinition } ∷ []) }
{
    tell(faults, location, BuildError::ExecutableDefinition)
}

/// SchemaDefinitionCollision: a schema is valid only if it is defined at most once (section 3.3). This one is told:
/// it comes after another.
fn schema_definition_collision(
    location: Option<SourceSpan>,
    faults: &mut Vec<(Option<SourceSpan>, BuildError)>,
) -> Result<(), AllocError>
    ensures { OnOk result (faults_of faults.new ≡ faults_of faults.old ++ record { place = location; breach = SchemaDefinitionCollision } ∷ []) }
{
    tell(faults, location, BuildError::SchemaDefinitionCollision)
}

/// TypeDefinitionCollision: a type definition is valid only if no earlier one has its name (section 3.4). This one is told,
/// which has that of an earlier one.
fn type_definition_collision(
    name: &Name,
    location: Option<SourceSpan>,
    faults: &mut Vec<(Option<SourceSpan>, BuildError)>,
) -> Result<(), AllocError>
    ensures { OnOk result (faults_of faults.new ≡ faults_of faults.old ++ record { place = location; breach = TypeDefinitionCollision name.now.text } ∷ []) }
{
    let name = name.clone()?;
    tell(
        faults,
        location,
        BuildError::TypeDefinitionCollision { name },
    )
}

/// BuiltInScalarTypeRedefinition: a type definition is valid only if no built-in scalar has its name (section 3.5). This
/// definition of one is told.
fn built_in_scalar_type_redefinition(
    name: &Name,
    location: Option<SourceSpan>,
    faults: &mut Vec<(Option<SourceSpan>, BuildError)>,
) -> Result<(), AllocError>
    ensures { OnOk result (faults_of faults.new ≡ faults_of faults.old ++ record { place = location; breach = BuiltInScalarTypeRedefinition name.now.text } ∷ []) }
{
    let name = name.clone()?;
    tell(
        faults,
        location,
        BuildError::BuiltInScalarTypeRedefinition { name },
    )
}
