//! Fragments that no operation reaches.
ghost use Rattle.std.specs.Prelude.{◌≡◌, OnOk};
ghost use Rattle.graphql_names.specs.Placed.{Place};
ghost use Rattle.spec_document.specs.MeantTree.{MeantDocument};
ghost use Rattle.fault_data.specs.Adds.{Adds};
ghost use Rattle.rule_document_definitions.specs.Fragments.{UnusedFragmentAt};
ghost use Rattle.rule_reach.specs.Reach.{meant_fragments};
ghost use Rattle.rule_reach.specs.NotedNames.{noted_names};
ghost use Rattle.rule_fragments.specs.Used.{AreUnderOwnNames, AreUsed};
ghost use Rattle.rule_fragments.specs.Unused.{unused_fragment};
ghost use Rattle.rule_fragments.specs.SpreadViews.{fragment_meant};
ghost use Rattle.rule_fragments.specs.Telling.{AddsThese, unused_fragments};

use document_typed_operations::{Fragment, FragmentMap};
use fault_data::{DiagnosticData, Fault, tell};
use graphql_names::{Name, Node};
use indexmap::IndexSet;
use rule_reach::has_name;
use std::alloc::AllocError;

/// UnusedFragment: a fragment definition is valid only if an operation uses it (section 5.5.1.4). `used` has the names of
/// those that are.
fn unused_fragment(
    used: &IndexSet<Name>,
    fragment: &Node<Fragment>,
    faults: &mut Vec<Fault>,
) -> Result<(), AllocError>
    ensures { OnOk result (AddsThese faults.old faults.new (unused_fragment (noted_names used.now) (fragment_meant fragment.now))) }
{
    let name = &fragment.content().name;
    if has_name(used, name) {
        return Ok(());
    }
    let name = name.clone()?;
    let location = fragment.location();
    let data = DiagnosticData::UnusedFragment { name };
    tell(faults, Some(Fault { location, data }))
}

/// Adds a fault for each fragment, in order, whose name is not among those that are used.
#[tactic(auto, using(rule_definitions::proofs::Room::room_both, std::proofs::lemmas::Grind::common_steps))]
fn tell_unused(
    fragments: &FragmentMap,
    used: &IndexSet<Name>,
    faults: &mut Vec<Fault>,
) -> Result<(), AllocError>
    ensures { OnOk result (AddsThese faults.old faults.new (unused_fragments (noted_names used.now) fragments.now)) }
{
    for (_, fragment) in fragments {
        unused_fragment(used, fragment, faults)?;
    }
    Ok(())
}

/// Adds UnusedFragment for each fragment that no operation reaches. `used` has the names of those that one reaches. If
/// memory is refused, some faults may be told.
pub fn check_unused(
    fragments: &FragmentMap,
    used: &IndexSet<Name>,
    faults: &mut Vec<Fault>,
) -> Result<(), AllocError>
    ensures { OnOk result ((d : MeantDocument Place) → d.fragments ≡ meant_fragments fragments.now → AreUnderOwnNames d → AreUsed d (noted_names used.now) → Adds faults.old faults.new (λ f. UnusedFragmentAt d f)) }
{
    // A contract of `len` says that the names in a map differ, as the rule takes for granted.
    let _distinct = fragments.len();
    tell_unused(fragments, used, faults)
}
