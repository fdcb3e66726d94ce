//! The faults of rules that stay broken, among others.
ghost use Rattle.std.specs.Prelude.{◌≡◌};
ghost use Rattle.std.specs.List.{filter};
ghost use Rattle.fault_document_errors.specs.DocumentBreachView.{document_breach_of};
ghost use Rattle.fault_data.specs.DiagnosticView.{diagnostic_of};
ghost use Rattle.fault_data.specs.FaultView.{faults_of};
ghost use Rattle.graphql_validation.specs.Lasts.{data_lasts, fault_lasts, breach_lasts};

use fault_data::{DiagnosticData, Fault};
use fault_document_errors::BuildError;
use graphql_names::SourceSpan;

/// Whether no addition to a document can take the fault away: it is not that a use, a selection or a fragment is missing.
fn data_lasts(diagnostic: &DiagnosticData) -> bool
    ensures { result ≡ data_lasts (diagnostic_of diagnostic.now) }
{
    !matches!(
        diagnostic,
        DiagnosticData::UnusedVariable { .. }
            | DiagnosticData::MissingSubselection { .. }
            | DiagnosticData::UndefinedFragment { .. }
            | DiagnosticData::UnusedFragment { .. }
            | DiagnosticData::DeeplyNestedType { .. }
    )
}

/// Whether no addition to a document changes what is told: it is about one selection, and not about several.
fn breach_lasts(error: &BuildError) -> bool
    ensures { result ≡ breach_lasts (document_breach_of error.now) }
{
    matches!(
        error,
        BuildError::SubscriptionUsesIntrospection { .. }
            | BuildError::SubscriptionUsesConditionalSelection { .. }
            | BuildError::DeferOnRootMutationOrSubscriptionField { .. }
            | BuildError::DeferInSubscriptionMustBeConditional
    )
}

/// Keeps the faults that last, in order. It takes no memory.
// They are selected by their data, after the rules ran: so no rule is written a second time for what typing left.
pub(crate) fn keep_lasting_faults(faults: &mut Vec<Fault>)
    ensures { faults_of faults.new ≡ filter fault_lasts (faults_of faults.old) }
{
    faults.retain(|fault| data_lasts(&fault.data));
}

/// Keeps the breaches that last, in order. It takes no memory.
pub(crate) fn keep_lasting_breaches(breaches: &mut Vec<(Option<SourceSpan>, BuildError)>)
    ensures { breaches.new.items ≡ filter (λ b. breach_lasts (document_breach_of b.1)) breaches.old.items }
{
    breaches.retain(|breach| breach_lasts(&breach.1));
}
