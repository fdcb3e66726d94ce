//! What a selection set reaches.
ghost use Rattle.std.specs.Prelude.{◌≡◌, ◌↔◌, Contains, IfOk, true};
ghost use Rattle.graphql_names.specs.Placed.{Place};
ghost use Rattle.document_typed_selections.specs.TypedTree.{typed_set_tree};
ghost use Rattle.document_typed_operations.specs.Reached.{Member, IsReached};
ghost use Rattle.document_typed_operations.specs.WalkView.{fragments_tree, gathered_names};
ghost use Rattle.rule_document_definitions.specs.in_spec_document.MeantTree.{MeantDocument, meant_of_set};
ghost use Rattle.rule_document_definitions.specs.Selected.{Position, standing_in};
ghost use Rattle.rule_reach.specs.Reach.{IsReach, meant_fragments, reached_fragments_of, reached_members};
ghost use Rattle.rule_reach.specs.Gathered.{lent_members, lent_fragments, fragments_under, AreSpreadFrom};

use crate::lists::Reach;
use document_typed_operations::{Fragment, FragmentMap, ReachedSelections, reached_fragments};
use document_typed_selections::{Selection, SelectionSet};
use graphql_names::{Name, Node};
use indexmap::IndexSet;
use std::alloc::{AllocError, Global};
use tree_literals::NamedType;

/// What the set reaches in a document with these fragments: in itself at any depth, and in each fragment that is spread. A
/// spread of an undefined fragment counts as a selection and leads no further.
pub fn reach<'doc>(
    alloc: Global,
    start: &'doc SelectionSet,
    fragments: &'doc FragmentMap,
) -> Result<Reach<'doc>, AllocError>
    ensures { IfOk result (λ r. (d : MeantDocument Place) (holder : Position) → d.fragments ≡ meant_fragments fragments.now → IsReach d (standing_in holder (meant_of_set (typed_set_tree start.now))) (reached_members r) (reached_fragments_of r)) }
{
    // The set is walked twice: one loop would own both lists.
    let selections = reached_selections(alloc, start, fragments)?;
    let fragments = spread_fragments(alloc, start, fragments)?;
    Ok(Reach {
        selections,
        fragments,
    })
}

/// Each selection that the set reaches, once.
fn reached_selections<'doc>(
    alloc: Global,
    start: &'doc SelectionSet,
    fragments: &'doc FragmentMap,
) -> Result<Vec<(&'doc NamedType, &'doc Selection)>, AllocError>
    ensures { IfOk result (λ r. (e : Member Place) → Contains (lent_members r) e ↔ IsReached true (fragments_tree fragments.now) (typed_set_tree start.now) e) }
{
    let mut selections = Vec::new(alloc);
    for selection in ReachedSelections::new(alloc, true, start, fragments) {
        selections.push(selection?)?;
    }
    Ok(selections)
}

/// The fragments that are spread in what the set reaches, each once.
fn spread_fragments<'doc>(
    alloc: Global,
    start: &'doc SelectionSet,
    fragments: &'doc FragmentMap,
) -> Result<Vec<&'doc Node<Fragment>>, AllocError>
    ensures { IfOk result (λ r. AreSpreadFrom (fragments_tree fragments.now) (meant_fragments fragments.now) (typed_set_tree start.now) (lent_fragments r)) }
{
    let names = reached_fragments(alloc, true, start, fragments)?;
    fragments_named(alloc, &names, fragments)
}

/// The fragments of these names, in their order.
fn fragments_named<'doc>(
    alloc: Global,
    names: &IndexSet<&'doc Name>,
    fragments: &'doc FragmentMap,
) -> Result<Vec<&'doc Node<Fragment>>, AllocError>
    ensures { IfOk result (λ r. lent_fragments r ≡ fragments_under (meant_fragments fragments.now) (gathered_names names.now)) }
{
    let mut named = Vec::new(alloc);
    for name in names.as_slice() {
        // Each name has a fragment, as only names of fragments were gathered: this needs no proof here.
        if let Some(fragment) = fragments.get(*name) {
            named.push(fragment)?;
        }
    }
    Ok(named)
}
