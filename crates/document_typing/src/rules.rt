//! The rules of typing on selections: each function tells what breaks its rule. They are not inlined, so that they take no
//! stack at each level of selections.
ghost use Rattle.std.specs.Prelude.{◌≡◌, true, not, ◌&&◌, OnOk};
ghost use Rattle.fault_document_errors.specs.DocumentBreaches as breach;
ghost use Rattle.fault_document_errors.specs.DocumentBreachView.{document_breach_of};
ghost use Rattle.tree_operations.specs.SelectionTree.{selection_tree, selection_trees};
ghost use Rattle.tree_operations.specs.OperationWritable.{has_selection};
ghost use Rattle.document_typing.specs.KeptSelections.{is_leaf};
ghost use Rattle.document_typing.specs.SetFaults.{leaf_faults};
ghost use Rattle.document_typing.specs.MeaningView.{meanings_under};
ghost use Rattle.document_typing.specs.Telling.{Tells, TellsOne, is_leaf_type};

use crate::look_ups::{is_leaf, is_scalar};
use fault_document_errors::BuildError;
use graphql_names::{Name, SourceSpan};
use graphql_schema::Schema;
use schema_types::ExtendedType;
use std::alloc::AllocError;
use tree_operations::Selection;

/// Tells a fault at a place.
pub(crate) fn tell(
    location: Option<SourceSpan>,
    error: BuildError,
    faults: &mut Vec<(Option<SourceSpan>, BuildError)>,
) -> Result<(), AllocError>
    ensures { OnOk result (TellsOne faults.old faults.new location (document_breach_of error)) }
{
    faults.push((location, error))?;
    Ok(())
}

/// UndefinedField: a field is valid only if the type that it is selected on defines it (section 5.3.1). This one is not.
#[inline(never)]
pub(crate) fn undefined_field(
    location: Option<SourceSpan>,
    type_name: &Name,
    field_name: &Name,
    faults: &mut Vec<(Option<SourceSpan>, BuildError)>,
) -> Result<(), AllocError>
    ensures { OnOk result (TellsOne faults.old faults.new location (breach.UndefinedField type_name.now.text field_name.now.text)) }
{
    let type_name = type_name.clone()?;
    let field_name = field_name.clone()?;
    tell(
        location,
        BuildError::UndefinedField {
            type_name,
            field_name,
        },
        faults,
    )
}

/// Whether a field of that inner type may have these selections: on a leaf there must be none (section 5.3.3).
pub(crate) fn may_select(ty: Option<&ExtendedType>, selections: &[Selection]) -> bool
    ensures { result ≡ not (has_selection (selection_trees selection_tree selections.now) && is_leaf_type ty.entry) }
{
    selections.is_empty() || !is_leaf(ty)
}

/// SubselectionOnScalarType: a field whose values are scalars is valid only if it selects nothing (section 5.3.3).
/// SubselectionOnEnumType: a field whose values are of an enum is valid only if it selects nothing (section 5.3.3). Tells
/// of a set on a leaf, which is one of the two.
#[inline(never)]
pub(crate) fn subselection_on_leaf(
    schema: Option<&Schema>,
    location: Option<SourceSpan>,
    type_name: &Name,
    faults: &mut Vec<(Option<SourceSpan>, BuildError)>,
) -> Result<(), AllocError>
    requires { is_leaf (meanings_under schema) type_name.now.text ≡ true }
    ensures { OnOk result (Tells faults.old faults.new (leaf_faults (meanings_under schema.entry) location type_name.now.text)) }
{
    let type_name = type_name.clone()?;
    let error = if is_scalar(schema, &type_name) {
        BuildError::SubselectionOnScalarType { type_name }
    } else {
        BuildError::SubselectionOnEnumType { type_name }
    };
    tell(location, error, faults)
}

/// UndefinedTypeInInlineFragmentTypeCondition: an inline fragment is valid only if its type is defined (section 5.5.1.2).
/// This one is not.
#[inline(never)]
pub(crate) fn undefined_type_in_inline_fragment_type_condition(
    location: Option<SourceSpan>,
    type_name: &Name,
    faults: &mut Vec<(Option<SourceSpan>, BuildError)>,
) -> Result<(), AllocError>
    ensures { OnOk result (TellsOne faults.old faults.new location (breach.UndefinedTypeInInlineFragmentTypeCondition type_name.now.text)) }
{
    let type_name = type_name.clone()?;
    tell(
        location,
        BuildError::UndefinedTypeInInlineFragmentTypeCondition { type_name },
        faults,
    )
}
