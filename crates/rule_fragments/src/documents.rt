//! What breaks the rules on subscriptions and on `@defer` in all operations of a document.
ghost use Rattle.std.specs.Prelude.{◌↔◌, IfOk, IsTrue, OnOk};
ghost use Rattle.rule_selection_queries.specs.in_reach.in_typed_operations.DocumentView.{document_meant};
ghost use Rattle.rule_fragments.specs.Broken.{brokens_of};
ghost use Rattle.rule_fragments.specs.Documents.{AddsDefers, AddsSubscriptions, DeferredTold, BreachesTold};
ghost use Rattle.rule_fragments.specs.UnlessFull.{IsFull};
ghost use Rattle.rule_fragments.specs.Used.{AreUnderOwnNames};

use crate::breach::Breach;
use crate::defer::check_defer;
use crate::labels::check_labels;
use crate::subscriptions::check_subscription;
use crate::thinned::thinned_if_shared;
use document_typed_operations::ExecutableDocument;
use fault_data::MOST_TOLD;
use std::alloc::{AllocError, Global};

/// Whether there are as many breaches as a call tells.
// A `&Vec` and not a slice: contracts see the breaches of a list.
fn is_full(breaches: &Vec<Breach>) -> bool
    ensures { IsTrue result ↔ IsFull (brokens_of breaches.now) }
{
    breaches.len() >= MOST_TOLD
}

/// Adds what breaks the rules on `@defer` in each operation, until the list is full.
fn check_defers(document: &ExecutableDocument, breaches: &mut Vec<Breach>) -> Result<(), AllocError>
    ensures { OnOk result (AddsDefers breaches.old breaches.new (document_meant document.now)) }
{
    let thin = thinned_if_shared(*breaches.allocator(), true, document)?;
    let thin = thin.as_ref().unwrap_or(document);
    for operation in document.operations.iter() {
        if is_full(breaches) {
            return Ok(());
        }
        check_defer(thin, operation, breaches)?;
    }
    Ok(())
}

/// What breaks the rules on `@defer` in a document: all of it, or [`MOST_TOLD`].
pub fn deferred_breaches(
    alloc: Global,
    document: &ExecutableDocument,
) -> Result<Vec<Breach>, AllocError>
    ensures { IfOk result (λ r. DeferredTold (document_meant document.now) (brokens_of r)) }
{
    let mut breaches = Vec::new(alloc);
    check_defers(document, &mut breaches)?;
    check_labels(document, &mut breaches)?;
    Ok(breaches)
}

/// Adds what breaks the rules on subscriptions in each operation, until the list is full.
fn check_subscriptions(
    document: &ExecutableDocument,
    breaches: &mut Vec<Breach>,
) -> Result<(), AllocError>
    ensures { OnOk result (AreUnderOwnNames (document_meant document.now) → AddsSubscriptions breaches.old breaches.new (document_meant document.now)) }
{
    let thin = thinned_if_shared(*breaches.allocator(), false, document)?;
    let thin = thin.as_ref().unwrap_or(document);
    for operation in document.operations.iter() {
        if is_full(breaches) {
            return Ok(());
        }
        check_subscription(document, thin, operation, breaches)?;
    }
    Ok(())
}

/// What breaks the rules on `@defer` in a document, and then what breaks those on subscriptions (section 5.2.3): all of it,
/// or [`MOST_TOLD`].
pub fn document_breaches(
    alloc: Global,
    document: &ExecutableDocument,
) -> Result<Vec<Breach>, AllocError>
    ensures { IfOk result (λ r. AreUnderOwnNames (document_meant document.now) → BreachesTold (document_meant document.now) (brokens_of r)) }
{
    let mut breaches = deferred_breaches(alloc, document)?;
    check_subscriptions(document, &mut breaches)?;
    Ok(breaches)
}
