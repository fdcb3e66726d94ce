//! What fragments refer to by spreads (section 5.5.2.2).
ghost use Rattle.std.specs.Prelude.{◌≡◌, map, IfOk, OnOk};
ghost use Rattle.spec_document.specs.MeantTree.{meant_of_set};
ghost use Rattle.document_typed_selections.specs.TypedTree.{typed_set_tree};
ghost use Rattle.rule_cycles.specs.Numbers.{number_of};
ghost use Rattle.rule_fragments.specs.SpreadNumbers.{spread_references, references_in, references_of, references_at};
ghost use Rattle.rule_fragments.specs.SpreadViews.{fragment_entries, spread_tree, spread_view, AddsSpreads};
ghost use Rattle.rule_fragments.specs.Telling.{meant_selection};
ghost use Rattle.rule_fragments.specs.SpreadGraph.{AreSpreadReferences};

use document_typed_operations::FragmentMap;
use document_typed_selections::{FragmentSpread, Selection, SelectionSet};
use graphql_names::{Name, Node};
use rule_cycles::{Reference, References};
use std::alloc::{AllocError, Global};

/// The most fragments on a path of spreads.
const BOUND: u32 = 100;

/// A spread by which a fragment refers to another, and the number of that one.
pub(crate) type SpreadReference = Reference<Node<FragmentSpread>>;

/// What fragments refer to, and by which spread first.
pub(crate) type SpreadReferences = References<Node<FragmentSpread>>;

/// The number of the fragment of that name, if it is defined.
fn fragment_number(fragments: &FragmentMap, name: &Name) -> Option<usize>
    ensures { result ≡ number_of name.now.text (fragment_entries fragments.now) }
{
    fragments.get_index_of(name)
}

/// Adds the reference of a spread, if its fragment is defined.
fn add_spread(
    fragments: &FragmentMap,
    spread: &Node<FragmentSpread>,
    references: &mut Vec<SpreadReference>,
) -> Result<(), AllocError>
    ensures { OnOk result (AddsSpreads references.old references.new (spread_references (fragment_entries fragments.now) (spread_tree spread.now))) }
{
    match fragment_number(fragments, &spread.content().fragment_name) {
        None => Ok(()),
        Some(to) => {
            let by = spread.clone()?;
            references.push(Reference { to, by })?;
            Ok(())
        }
    }
}

/// Adds the references of the spreads in a set, at any depth, in the order of the text.
#[cycle(spreads)]
fn add_spreads(
    fragments: &FragmentMap,
    set: &SelectionSet,
    references: &mut Vec<SpreadReference>,
) -> Result<(), AllocError>
    ensures { OnOk result (AddsSpreads references.old references.new (references_in (fragment_entries fragments.now) (meant_of_set (typed_set_tree set.now)))) }
{
    for selection in &set.selections {
        add_spreads_of(fragments, selection, references)?;
    }
    Ok(())
}

/// Adds the reference of a spread, or those of the spreads in another selection.
#[cycle(spreads)]
fn add_spreads_of(
    fragments: &FragmentMap,
    selection: &Selection,
    references: &mut Vec<SpreadReference>,
) -> Result<(), AllocError>
    ensures { OnOk result (AddsSpreads references.old references.new (references_of (fragment_entries fragments.now) (meant_selection selection.now))) }
{
    match selection {
        Selection::Field(field) => {
            add_spreads(fragments, &field.content().selection_set, references)
        }
        Selection::FragmentSpread(spread) => add_spread(fragments, spread, references),
        Selection::InlineFragment(inline) => {
            add_spreads(fragments, &inline.content().selection_set, references)
        }
    }
}

/// Adds the references of the fragment of that number.
fn add_spreads_at(
    fragments: &FragmentMap,
    number: usize,
    references: &mut Vec<SpreadReference>,
) -> Result<(), AllocError>
    ensures { OnOk result (AddsSpreads references.old references.new (references_at (fragment_entries fragments.now) number)) }
{
    match fragments.get_index(number) {
        None => Ok(()),
        Some((_, fragment)) => {
            add_spreads(fragments, &fragment.content().selection_set, references)
        }
    }
}

/// The references of the fragment of that number.
fn spread_references(
    alloc: Global,
    fragments: &FragmentMap,
    number: usize,
) -> Result<Vec<SpreadReference>, AllocError>
    ensures { IfOk result (λ r. map spread_view r.items ≡ references_at (fragment_entries fragments.now) number) }
{
    let mut references = Vec::new(alloc);
    add_spreads_at(fragments, number, &mut references)?;
    Ok(references)
}

/// What each fragment refers to by the spreads in it.
pub(crate) fn references_of_fragments(
    alloc: Global,
    fragments: &FragmentMap,
) -> Result<SpreadReferences, AllocError>
    ensures { IfOk result (λ r. AreSpreadReferences (fragment_entries fragments.now) r) }
{
    let roots = fragments.len();
    let mut all = References::new(alloc, 0, roots, BOUND);
    for number in 0..roots {
        all.push(alloc, spread_references(alloc, fragments, number)?)?;
    }
    Ok(all)
}
