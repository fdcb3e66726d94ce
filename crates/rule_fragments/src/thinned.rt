//! Documents without those selections of their fragments at which the rules on `@defer`, or those on the root of a subscription,
//! find nothing. So what operations share is examined once, and not for each of them.
ghost use Rattle.std.specs.Prelude.{◌≡◌, unwrap_or, IfOk, OnOk};
ghost use Rattle.spec_document.specs.MeantTree.{meant_of_set};
ghost use Rattle.document_typed_selections.specs.TypedTree.{typed_set_tree};
ghost use Rattle.rule_selection_queries.specs.in_reach.in_typed_operations.DocumentView.{document_meant};
ghost use Rattle.rule_selection_queries.specs.Lent.{lent};
ghost use Rattle.rule_document_definitions.specs.Selected.{selection_directives};
ghost use Rattle.rule_reach.specs.Reach.{meant_fragments};
ghost use Rattle.rule_fragments.specs.Rooted.{fragment_set};
ghost use Rattle.rule_fragments.specs.Thinned.{has_noted, is_quiet, are_quiet, Leaves, StillMayReplace, MayReplace};

use crate::names::is_meta_field_name;
use document_typed_operations::{ExecutableDocument, Fragment, FragmentMap};
use document_typed_selections::{Selection, SelectionSet};
use graphql_names::{Name, Node};
use std::alloc::{AllocError, Global};

/// Whether the rules look at a directive on the selection: those on `@defer` look at `@defer`, those on subscriptions at `@skip`
/// and `@include`.
fn has_noted(deferred: bool, selection: &Selection) -> bool
    ensures { result ≡ has_noted deferred (selection_directives (lent selection.now)) }
{
    let directives = selection.directives();
    if deferred {
        return directives.has("defer");
    }
    directives.has("skip") || directives.has("include")
}

/// Whether all selections of the set are quiet.
#[cycle(quiet)]
fn are_quiet(deferred: bool, set: &SelectionSet) -> bool
    ensures { result ≡ are_quiet deferred (meant_of_set (typed_set_tree set.now)) }
{
    for selection in &set.selections {
        if !is_quiet(deferred, selection) {
            return false;
        }
    }
    true
}

/// Whether the rules find nothing at the selection, nor at what it leads to; a spread is not quiet. Those on subscriptions do not
/// enter fields.
#[cycle(quiet)]
fn is_quiet(deferred: bool, selection: &Selection) -> bool
    ensures { result ≡ is_quiet deferred (lent selection.now) }
{
    if has_noted(deferred, selection) {
        return false;
    }
    match selection {
        Selection::Field(field) => {
            let field = field.content();
            if deferred {
                return are_quiet(deferred, &field.selection_set);
            }
            !is_meta_field_name(&field.name)
        }
        Selection::FragmentSpread(_) => false,
        Selection::InlineFragment(inline) => are_quiet(deferred, &inline.content().selection_set),
    }
}

/// The set without its quiet selections.
fn thinned_set(
    alloc: Global,
    deferred: bool,
    set: &SelectionSet,
) -> Result<SelectionSet, AllocError>
    ensures { IfOk result (λ r. Leaves deferred (meant_of_set (typed_set_tree r)) (meant_of_set (typed_set_tree set.now))) }
{
    let mut kept = SelectionSet::new(alloc, set.ty.clone()?);
    for selection in &set.selections {
        if !is_quiet(deferred, selection) {
            kept.push(selection.clone()?)?;
        }
    }
    Ok(kept)
}

/// The fragment without its quiet selections, at the same place.
fn thinned_fragment(
    alloc: Global,
    deferred: bool,
    fragment: &Node<Fragment>,
) -> Result<Node<Fragment>, AllocError>
    ensures { IfOk result (λ r. Leaves deferred (fragment_set r) (fragment_set fragment.now)) }
{
    let own = fragment.content();
    let name = own.name.clone()?;
    let directives = own.directives.clone()?;
    let selection_set = thinned_set(alloc, deferred, &own.selection_set)?;
    let thin = Fragment {
        name,
        directives,
        selection_set,
    };
    Ok(fragment.same_location(alloc, thin)?)
}

/// Replaces the fragment of that name by itself without its quiet selections.
fn thin(
    deferred: bool,
    fragments: &FragmentMap,
    name: &Name,
    instead: &mut FragmentMap,
) -> Result<(), AllocError>
    ensures { OnOk result (StillMayReplace deferred (meant_fragments fragments.now) (meant_fragments instead.old) (meant_fragments instead.new)) }
{
    let Some(fragment) = fragments.get(name) else {
        return Ok(());
    };
    let alloc = *instead.allocator();
    let name = name.clone()?;
    instead.insert(name, thinned_fragment(alloc, deferred, fragment)?)?;
    Ok(())
}

/// Whether several operations are of a kind at which the rules look.
fn are_several(deferred: bool, document: &ExecutableDocument) -> bool {
    let mut has_one = false;
    for operation in document.operations.iter() {
        let operation = operation.content();
        if operation.is_subscription() || (deferred && operation.is_mutation()) {
            if has_one {
                return true;
            }
            has_one = true;
        }
    }
    false
}

/// If several operations are of such a kind: a document without operations, whose fragments are those of this one without their
/// quiet selections, so that with it the rules on `@defer`, or, if `deferred` is false, those on the root of a subscription, find
/// the same in each operation. Otherwise nothing, and the document itself is used.
pub(crate) fn thinned_if_shared(
    alloc: Global,
    deferred: bool,
    document: &ExecutableDocument,
) -> Result<Option<ExecutableDocument>, AllocError>
    ensures { IfOk result (λ r. MayReplace deferred (document_meant document.now).fragments (document_meant (unwrap_or r document.now)).fragments) }
{
    if !are_several(deferred, document) {
        return Ok(None);
    }
    let fragments = &document.fragments;
    let mut instead = fragments.clone()?;
    for (name, _) in fragments {
        thin(deferred, fragments, name, &mut instead)?;
    }
    let mut thin = ExecutableDocument::new(alloc);
    thin.fragments = instead;
    Ok(Some(thin))
}
