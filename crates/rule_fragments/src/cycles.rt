//! Tells which fragments spread themselves.
ghost use Rattle.std.specs.Prelude.{◌≡◌, OnOk};
ghost use Rattle.graphql_names.specs.Placed.{Place};
ghost use Rattle.spec_document.specs.MeantTree.{MeantDocument};
ghost use Rattle.fault_data.specs.FaultView.{faults_of};
ghost use Rattle.rule_cycle_search.specs.Found.{AreFound};
ghost use Rattle.rule_reach.specs.Reach.{meant_fragments};
ghost use Rattle.rule_reach.specs.NotedNames.{noted_names};
ghost use Rattle.rule_fragments.specs.Used.{AreUnderOwnNames, AreUsed};
ghost use Rattle.rule_fragments.specs.SpreadViews.{fragment_entries, lent_at};
ghost use Rattle.rule_fragments.specs.CycleFaults.{used_at, TellsSpreads, AddsFound};
ghost use Rattle.rule_fragments.specs.FragmentCycles.{TellsFragmentCycles};

use crate::cycle_faults::{deeply_nested_fragment, recursive_fragment_definition};
use crate::spread_graph::{SpreadReferences, references_of_fragments};
use document_typed_operations::{Fragment, FragmentMap};
use fault_data::Fault;
use graphql_names::{Name, Node};
use indexmap::IndexSet;
use rule_cycle_search::{Found, find_cycles};
use rule_reach::has_name;
use std::alloc::{AllocError, Global};

/// The fragment of that number, if its name is among those that are used.
fn used_fragment<'doc>(
    fragments: &'doc FragmentMap,
    used: &IndexSet<Name>,
    number: usize,
) -> Option<&'doc Node<Fragment>>
    ensures { lent_at result number ≡ used_at (fragment_entries fragments.now) (noted_names used.now) number }
{
    let (name, fragment) = fragments.get_index(number)?;
    if has_name(used, name) {
        Some(fragment)
    } else {
        None
    }
}

/// Adds the fault for what was found of a fragment, whose number is `root`; nothing if there is no fragment.
fn tell_found(
    fragment: Option<&Node<Fragment>>,
    references: &SpreadReferences,
    root: usize,
    found: &Found,
    faults: &mut Vec<Fault>,
) -> Result<(), AllocError>
    ensures { OnOk result (AddsFound references.now (lent_at fragment.entry) root found.now faults.old faults.new) }
{
    let Some(fragment) = fragment else {
        return Ok(());
    };
    match found {
        Found::Nothing => Ok(()),
        Found::Cycle(path) => {
            recursive_fragment_definition(fragment, references, root, path, faults)
        }
        Found::Deep => deeply_nested_fragment(fragment, faults),
    }
}

/// Adds what was found of each fragment whose name is among those that are used. `all` has what was found of each, by number.
fn tell_cycles(
    fragments: &FragmentMap,
    used: &IndexSet<Name>,
    references: &SpreadReferences,
    all: &[Found],
    faults: &mut Vec<Fault>,
) -> Result<(), AllocError>
    requires { AreFound references.now.graph all.now }
    ensures { OnOk result (TellsSpreads references.now (fragment_entries fragments.now) (noted_names used.now) (faults_of faults.old) (faults_of faults.new)) }
{
    for (root, found) in all.iter().enumerate() {
        let fragment = used_fragment(fragments, used, root);
        tell_found(fragment, references, root, found, faults)?;
    }
    Ok(())
}

/// Adds RecursiveFragmentDefinition for each fragment that an operation reaches and that reaches itself by spreads, with the
/// spreads that lead back to it (section 5.5.2.2), or the fault that paths of spreads from it hold more than 100 fragments.
/// `used` has the names of the fragments that an operation reaches. If memory is refused, some faults may be told.
pub fn check_cycles(
    alloc: Global,
    fragments: &FragmentMap,
    used: &IndexSet<Name>,
    faults: &mut Vec<Fault>,
) -> Result<(), AllocError>
    ensures { OnOk result ((d : MeantDocument Place) → d.fragments ≡ meant_fragments fragments.now → AreUnderOwnNames d → AreUsed d (noted_names used.now) → TellsFragmentCycles d (faults_of faults.old) (faults_of faults.new)) }
{
    let references = references_of_fragments(alloc, fragments)?;
    let all = find_cycles(alloc, &references.graph)?;
    tell_cycles(fragments, used, &references, &all, faults)
}
