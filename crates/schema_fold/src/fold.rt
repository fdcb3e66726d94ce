//! What a type folds to.
ghost use Rattle.std.specs.Prelude.{◌≡◌, ◌++◌, map, IfOk, OnOk};
ghost use Rattle.schema_types.specs.TypeView.{extended_type};
ghost use Rattle.schema_fold.specs.Components.{parts_of};
ghost use Rattle.schema_fold.specs.Fold.{folded_type};
ghost use Rattle.schema_fold.specs.FaultView.{faults_of};
ghost use Rattle.schema_fold.specs.ListedView.{listed_view};
ghost use Rattle.schema_fold.specs.Collected.{collected_from};
ghost use Rattle.schema_fold.specs.Kept.{component_faults};
ghost use Rattle.schema_fold.specs.Made.{defined_view, IsDefinition};

use crate::build_error::BuildError;
use crate::collected::Collected;
use crate::gather::collect_type;
use crate::kept_classes::Kept;
use crate::make::make_type;
use crate::numbered_definition::NumberedDefinition;
use crate::parts::Defined;
use graphql_names::SourceSpan;
use schema_types::ExtendedType;
use std::alloc::{AllocError, Global};

/// Folds a type: its definition, then each entry of the list that extends it, in order. Tells each component that is not
/// the first of its name.
pub fn fold_type(
    alloc: Global,
    defined: &Defined<'_>,
    list: &[NumberedDefinition],
    faults: &mut Vec<(Option<SourceSpan>, BuildError)>,
) -> Result<ExtendedType, AllocError>
    requires { IsDefinition (defined_view defined.now) }
    ensures folded { IfOk result (λ t. extended_type t ≡ folded_type (map listed_view list.now) (defined_view defined.now)) }
    ensures faults { OnOk result (faults_of faults.new ≡ faults_of faults.old ++ component_faults defined.now.parts.kind defined.now.parts.name.now.text (collected_from (parts_of (map listed_view list.now) (defined_view defined.now)))) }
{
    // The lists and maps are owned here and filled by calls that borrow them: a loop that owned them would cost more to
    // prove.
    let mut all = Collected::new(alloc);
    collect_type(&defined.parts, list, &mut all)?;
    let mut kept = Kept::new(alloc);
    kept.keep_all(defined.parts.kind, defined.parts.name, &mut all, faults)?;
    make_type(alloc, defined, &mut kept)
}
