//! Rules on the root of a subscription.
ghost use Rattle.std.specs.Prelude.{false, flat_map, OnOk};
ghost use Rattle.graphql_names.specs.Placed.{node_tree};
ghost use Rattle.tree_directives.specs.DirectiveTree.{directive_tree};
ghost use Rattle.rule_selection_queries.specs.in_reach.in_typed_operations.DocumentView.{document_meant, operation_meant};
ghost use Rattle.rule_document_definitions.specs.Subscriptions.{SubscriptionUsesMultipleFieldsAt, SubscriptionBreaks};
ghost use Rattle.rule_fragments.specs.Broken.{AddsBroken, AddsThese};
ghost use Rattle.rule_fragments.specs.ListedBreaches.{introspection, conditional, at_root};
ghost use Rattle.rule_selection_queries.specs.Lent.{lent, lent_all};
ghost use Rattle.rule_fragments.specs.Thinned.{MayReplace};
ghost use Rattle.rule_fragments.specs.Used.{AreUnderOwnNames};

use crate::breach::Breach;
use crate::names::is_meta_field_name;
use crate::roots::{has_several_fields, root_selections};
use document_typed_operations::{ExecutableDocument, Operation};
use document_typed_selections::Selection;
use fault_document_errors::BuildError;
use graphql_names::Node;
use rule_selection_queries::tell_breach;
use std::alloc::AllocError;
use tree_directives::Directive;

/// SubscriptionUsesMultipleFields: a subscription is valid only if it has at most one field at its root (section 5.2.3.1).
fn subscription_uses_multiple_fields(
    document: &ExecutableDocument,
    operation: &Node<Operation>,
    breaches: &mut Vec<Breach>,
) -> Result<(), AllocError>
    ensures { OnOk result (AreUnderOwnNames (document_meant document.now) → AddsBroken breaches.old breaches.new (SubscriptionUsesMultipleFieldsAt (document_meant document.now) (operation_meant operation.now))) }
{
    let alloc = *breaches.allocator();
    if !has_several_fields(alloc, document, operation)? {
        return Ok(());
    }
    let name = operation.content().name.clone()?;
    let breach = BuildError::SubscriptionUsesMultipleFields { name };
    tell_breach(breaches, Some((operation.location(), breach)))
}

/// SubscriptionUsesIntrospection: a subscription is valid only if no field at its root is a meta-field (section 5.2.3.1).
fn subscription_uses_introspection(
    operation: &Node<Operation>,
    selection: &Selection,
    breaches: &mut Vec<Breach>,
) -> Result<(), AllocError>
    ensures { OnOk result (AddsThese breaches.old breaches.new (introspection (operation_meant operation.now) (lent selection.now))) }
{
    let Some(node) = selection.as_field() else {
        return Ok(());
    };
    let field = &node.content().name;
    if !is_meta_field_name(field) {
        return Ok(());
    }
    let name = operation.content().name.clone()?;
    let field = field.clone()?;
    let breach = BuildError::SubscriptionUsesIntrospection { name, field };
    tell_breach(breaches, Some((node.location(), breach)))
}

/// SubscriptionUsesConditionalSelection: a subscription is valid only if no selection at its root has `@skip` or `@include`
/// (past section 5.2.3.1).
fn subscription_uses_conditional_selection(
    operation: &Node<Operation>,
    directive: &Node<Directive>,
    breaches: &mut Vec<Breach>,
) -> Result<(), AllocError>
    ensures { OnOk result (AddsThese breaches.old breaches.new (conditional (operation_meant operation.now) (node_tree directive_tree directive.now))) }
{
    let used = directive.content().name.as_str();
    if !(used == "skip" || used == "include") {
        return Ok(());
    }
    let name = operation.content().name.clone()?;
    let breach = BuildError::SubscriptionUsesConditionalSelection { name };
    tell_breach(breaches, Some((directive.location(), breach)))
}

/// Adds what breaks a rule of one selection at the root of a subscription.
#[tactic(auto, using(rule_definitions::proofs::Room::room_both, std::proofs::lemmas::Grind::common_steps))]
fn check_root_selection(
    operation: &Node<Operation>,
    selection: &Selection,
    breaches: &mut Vec<Breach>,
) -> Result<(), AllocError>
    ensures { OnOk result (AddsThese breaches.old breaches.new (at_root (operation_meant operation.now) (lent selection.now))) }
{
    subscription_uses_introspection(operation, selection, breaches)?;
    let directives = selection.directives().as_slice();
    for directive in directives {
        subscription_uses_conditional_selection(operation, directive, breaches)?;
    }
    Ok(())
}

/// Adds what breaks a rule of all selections at the root of a subscription.
#[tactic(auto, using(rule_definitions::proofs::Room::room_both, std::proofs::lemmas::Grind::common_steps))]
fn check_root_selections(
    operation: &Node<Operation>,
    roots: &[Selection],
    breaches: &mut Vec<Breach>,
) -> Result<(), AllocError>
    ensures { OnOk result (AddsThese breaches.old breaches.new (flat_map (at_root (operation_meant operation.now)) (lent_all roots.now))) }
{
    for selection in roots {
        check_root_selection(operation, selection, breaches)?;
    }
    Ok(())
}

/// Adds what breaks the rules on the root of a subscription, if the operation is one: it has one field, through fragments;
/// that is no meta-field; and no selection has `@skip` or `@include` (section 5.2.3.1). `thin` is the document, or one whose
/// fragments have lost quiet selections. Fails if memory is refused.
pub fn check_subscription(
    document: &ExecutableDocument,
    thin: &ExecutableDocument,
    operation: &Node<Operation>,
    breaches: &mut Vec<Breach>,
) -> Result<(), AllocError>
    ensures { OnOk result (AreUnderOwnNames (document_meant document.now) → MayReplace false (document_meant document.now).fragments (document_meant thin.now).fragments → AddsBroken breaches.old breaches.new (SubscriptionBreaks (document_meant document.now) (operation_meant operation.now))) }
{
    if !operation.content().is_subscription() {
        return Ok(());
    }
    subscription_uses_multiple_fields(document, operation, breaches)?;
    let alloc = *breaches.allocator();
    let roots = root_selections(alloc, thin, operation)?;
    check_root_selections(operation, &roots, breaches)
}
