//! All rules on positions.
ghost use Rattle.std.specs.Prelude.{◌≡◌, ◌++◌, map, OnOk};
ghost use Rattle.schema_fold_index.specs.in_fold.FaultView.{faults_of};
ghost use Rattle.schema_fold_index.specs.in_fold.NumberedDefinition.{definitions_of};
ghost use Rattle.schema_fold_index.specs.in_fold.ListedView.{listed_view};
ghost use Rattle.schema_fold_index.specs.Index.{IsIndexOf};
ghost use Rattle.schema_fold_types.specs.Misplaced.{TellsMisplaced};
ghost use Rattle.schema_fold_types.specs.DefinedKinds.{misplaced_faults};

use crate::collisions::tell_collisions;
use crate::defined_kinds::{DefinedKinds, TextDefinitions};
use crate::orphans::tell_extensions;
use graphql_names::SourceSpan;
use schema_fold_index::{BuildError, Index, NumberedDefinition};
use std::alloc::{AllocError, Global};

/// Tells each definition and each extension of the texts that breaks a rule on positions: definitions in order, then
/// extensions in order.
pub fn tell_misplaced(
    alloc: Global,
    built_in: &[NumberedDefinition],
    texts: &[NumberedDefinition],
    index: &Index,
    faults: &mut Vec<(Option<SourceSpan>, BuildError)>,
) -> Result<(), AllocError>
    requires { IsIndexOf (definitions_of (map listed_view texts.now)) index.now }
    ensures faults { OnOk result (faults_of faults.new ≡ faults_of faults.old ++ misplaced_faults (definitions_of (map listed_view built_in.now)) (definitions_of (map listed_view texts.now))) }
    ensures tells { OnOk result (TellsMisplaced (definitions_of (map listed_view built_in.now)) (definitions_of (map listed_view texts.now)) (faults_of faults.old) (faults_of faults.new)) }
{
    let built_in = DefinedKinds::of(alloc, built_in)?;
    let schema = tell_collisions(&built_in, texts, &index.defined, faults)?;
    // This comes after all definitions: an extension may come before what it extends.
    let own = TextDefinitions {
        defined: &index.defined,
        schema,
    };
    tell_extensions(&built_in, &own, texts, faults)
}
