//! Rules of typing on definitions: each function tells that its rule is broken.
ghost use Rattle.std.specs.Prelude.{OnOk};
ghost use Rattle.fault_document_errors.specs.DocumentBreaches as breach;
ghost use Rattle.document_typing.specs.TypingFaults.{typing_fault_at};
ghost use Rattle.document_typing.specs.TypedDefinitions.{faults_if};
ghost use Rattle.document_typing.specs.Telling.{Tells, TellsOne};

use crate::rules::tell;
use fault_document_errors::BuildError;
use graphql_names::{Name, SourceSpan};
use std::alloc::AllocError;
use tree_operations::OperationType;

/// TypeSystemDefinition: a document is valid only if it holds operations and fragments alone (section 5.1.1). This
/// definition is of the type system.
pub(crate) fn type_system_definition(
    location: Option<SourceSpan>,
    faults: &mut Vec<(Option<SourceSpan>, BuildError)>,
) -> Result<(), AllocError>
    ensures { OnOk result (TellsOne faults.old faults.new location breach.TypeSystemDefinition) }
{
    tell(location, BuildError::TypeSystemDefinition, faults)
}

/// AmbiguousAnonymousOperation: an operation without a name is valid only if it is the only operation (section 5.2.2.1).
/// This one is not.
pub(crate) fn ambiguous_anonymous_operation(
    location: Option<SourceSpan>,
    faults: &mut Vec<(Option<SourceSpan>, BuildError)>,
) -> Result<(), AllocError>
    ensures { OnOk result (TellsOne faults.old faults.new location breach.AmbiguousAnonymousOperation) }
{
    tell(location, BuildError::AmbiguousAnonymousOperation, faults)
}

/// UndefinedRootOperation: an operation is valid only if the schema has a root for it (section 3.3.1). It has none for
/// this one.
pub(crate) fn undefined_root_operation(
    location: Option<SourceSpan>,
    operation_type: OperationType,
    faults: &mut Vec<(Option<SourceSpan>, BuildError)>,
) -> Result<(), AllocError>
    ensures { OnOk result (TellsOne faults.old faults.new location (breach.UndefinedRootOperation operation_type)) }
{
    tell(
        location,
        BuildError::UndefinedRootOperation { operation_type },
        faults,
    )
}

/// OperationNameCollision: an operation is valid only if no earlier one has its name (section 5.2.1.1). `is_known` says
/// whether an earlier one has this name.
pub(crate) fn operation_name_collision(
    is_known: bool,
    location: Option<SourceSpan>,
    name: &Name,
    faults: &mut Vec<(Option<SourceSpan>, BuildError)>,
) -> Result<(), AllocError>
    ensures { OnOk result (Tells faults.old faults.new (faults_if is_known (typing_fault_at location (breach.OperationNameCollision name.now.text)))) }
{
    if !is_known {
        return Ok(());
    }
    let name = name.clone()?;
    tell(
        location,
        BuildError::OperationNameCollision { name },
        faults,
    )
}

/// FragmentNameCollision: a fragment definition is valid only if no earlier one has its name (section 5.5.1.1). `is_known`
/// says whether an earlier one has this name.
pub(crate) fn fragment_name_collision(
    is_known: bool,
    location: Option<SourceSpan>,
    name: &Name,
    faults: &mut Vec<(Option<SourceSpan>, BuildError)>,
) -> Result<(), AllocError>
    ensures { OnOk result (Tells faults.old faults.new (faults_if is_known (typing_fault_at location (breach.FragmentNameCollision name.now.text)))) }
{
    if !is_known {
        return Ok(());
    }
    let name = name.clone()?;
    tell(location, BuildError::FragmentNameCollision { name }, faults)
}

/// UndefinedTypeInNamedFragmentTypeCondition: a fragment definition is valid only if its type is defined (section 5.5.1.2).
/// This one is not.
pub(crate) fn undefined_type_in_named_fragment_type_condition(
    location: Option<SourceSpan>,
    type_name: &Name,
    faults: &mut Vec<(Option<SourceSpan>, BuildError)>,
) -> Result<(), AllocError>
    ensures { OnOk result (TellsOne faults.old faults.new location (breach.UndefinedTypeInNamedFragmentTypeCondition type_name.now.text)) }
{
    let type_name = type_name.clone()?;
    tell(
        location,
        BuildError::UndefinedTypeInNamedFragmentTypeCondition { type_name },
        faults,
    )
}
