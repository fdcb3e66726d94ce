//! Rules on `@defer` in an operation. They are not in the specification of October 2021, but in the proposal on incremental
//! delivery; the directive is judged by its name.
ghost use Rattle.std.specs.Prelude.{◌≡◌, flat_map, OnOk};
ghost use Rattle.graphql_names.specs.Placed.{node_tree};
ghost use Rattle.tree_directives.specs.DirectiveTree.{directive_tree};
ghost use Rattle.rule_selection_queries.specs.in_reach.in_typed_operations.DocumentView.{document_meant, operation_meant};
ghost use Rattle.rule_document_definitions.specs.Defer.{DeferBreaks};
ghost use Rattle.rule_fragments.specs.Broken.{AddsBroken, AddsThese};
ghost use Rattle.rule_fragments.specs.ListedBreaches.{deferred_at_root, fragment_deferred, is_conditional, deferred_always, always_deferred};
ghost use Rattle.rule_selection_queries.specs.Lent.{lent, lent_all};

use crate::breach::Breach;
use crate::roots::root_selections;
use document_typed_operations::{ExecutableDocument, Operation};
use document_typed_selections::Selection;
use fault_document_errors::BuildError;
use graphql_names::Node;
use rule_selection_queries::{always_reached, tell_breach};
use std::alloc::AllocError;
use tree_directives::Directive;

/// DeferOnRootMutationOrSubscriptionField: a `@defer` is valid only if it does not stand at the root of a mutation or
/// subscription.
fn defer_on_root_mutation_or_subscription_field(
    operation: &Node<Operation>,
    directive: &Node<Directive>,
    breaches: &mut Vec<Breach>,
) -> Result<(), AllocError>
    ensures { OnOk result (AddsThese breaches.old breaches.new (deferred_at_root (operation_meant operation.now) (node_tree directive_tree directive.now))) }
{
    if directive.content().name.as_str() != "defer" {
        return Ok(());
    }
    let operation_type = operation.content().operation_type;
    let breach = BuildError::DeferOnRootMutationOrSubscriptionField { operation_type };
    tell_breach(breaches, Some((directive.location(), breach)))
}

/// Adds what breaks that rule at a selection at the root: nothing for a field.
#[tactic(auto, using(rule_definitions::proofs::Room::room_both, std::proofs::lemmas::Grind::common_steps))]
fn check_root_selection(
    operation: &Node<Operation>,
    selection: &Selection,
    breaches: &mut Vec<Breach>,
) -> Result<(), AllocError>
    ensures { OnOk result (AddsThese breaches.old breaches.new (fragment_deferred (operation_meant operation.now) (lent selection.now))) }
{
    if selection.as_field().is_some() {
        return Ok(());
    }
    let directives = selection.directives().as_slice();
    for directive in directives {
        defer_on_root_mutation_or_subscription_field(operation, directive, breaches)?;
    }
    Ok(())
}

/// Adds what breaks that rule at the selections at the root.
#[tactic(auto, using(rule_definitions::proofs::Room::room_both, std::proofs::lemmas::Grind::common_steps))]
fn check_root_selections(
    operation: &Node<Operation>,
    roots: &[Selection],
    breaches: &mut Vec<Breach>,
) -> Result<(), AllocError>
    ensures { OnOk result (AddsThese breaches.old breaches.new (flat_map (fragment_deferred (operation_meant operation.now)) (lent_all roots.now))) }
{
    for selection in roots {
        check_root_selection(operation, selection, breaches)?;
    }
    Ok(())
}

/// Whether `if` is given to the directive as `false` or as a variable.
fn is_conditional(directive: &Node<Directive>) -> bool
    ensures { result ≡ is_conditional (node_tree directive_tree directive.now) }
{
    let Some(value) = directive.content().specified_argument_by_name("if") else {
        return false;
    };
    let value = value.content();
    value.as_variable().is_some() || !value.to_bool().unwrap_or(true)
}

/// DeferInSubscriptionMustBeConditional: a `@defer` that a subscription always reaches is valid only if a condition decides
/// on it.
fn defer_in_subscription_must_be_conditional(
    directive: &Node<Directive>,
    breaches: &mut Vec<Breach>,
) -> Result<(), AllocError>
    ensures { OnOk result (AddsThese breaches.old breaches.new (deferred_always (node_tree directive_tree directive.now))) }
{
    if directive.content().name.as_str() != "defer" || is_conditional(directive) {
        return Ok(());
    }
    let breach = BuildError::DeferInSubscriptionMustBeConditional;
    tell_breach(breaches, Some((directive.location(), breach)))
}

/// Adds what breaks that rule at a selection.
#[tactic(auto, using(rule_definitions::proofs::Room::room_both, std::proofs::lemmas::Grind::common_steps))]
fn check_always_reached(selection: &Selection, breaches: &mut Vec<Breach>) -> Result<(), AllocError>
    ensures { OnOk result (AddsThese breaches.old breaches.new (always_deferred (lent selection.now))) }
{
    let directives = selection.directives().as_slice();
    for directive in directives {
        defer_in_subscription_must_be_conditional(directive, breaches)?;
    }
    Ok(())
}

/// Adds what breaks that rule at the selections that a subscription always reaches.
#[tactic(auto, using(rule_definitions::proofs::Room::room_both, std::proofs::lemmas::Grind::common_steps))]
fn check_all_always_reached(
    found: &[Selection],
    breaches: &mut Vec<Breach>,
) -> Result<(), AllocError>
    ensures { OnOk result (AddsThese breaches.old breaches.new (flat_map always_deferred (lent_all found.now))) }
{
    for selection in found {
        check_always_reached(selection, breaches)?;
    }
    Ok(())
}

/// Adds what breaks the rules on `@defer` in an operation: at the root of a mutation or subscription no fragment has it; in a
/// subscription its `if` is `false` or a variable, unless on every path there some selection may be left out. Fails if memory
/// is refused.
pub fn check_defer(
    document: &ExecutableDocument,
    operation: &Node<Operation>,
    breaches: &mut Vec<Breach>,
) -> Result<(), AllocError>
    ensures { OnOk result (AddsBroken breaches.old breaches.new (DeferBreaks (document_meant document.now) (operation_meant operation.now))) }
{
    if operation.content().is_query() {
        return Ok(());
    }
    let alloc = *breaches.allocator();
    let roots = root_selections(alloc, document, operation)?;
    check_root_selections(operation, &roots, breaches)?;
    if !operation.content().is_subscription() {
        return Ok(());
    }
    let found = always_reached(alloc, document, operation)?;
    check_all_always_reached(&found, breaches)
}
